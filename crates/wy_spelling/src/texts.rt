//! Texts as bytes: the number of their bytes, and these bytes.

ghost use Rattle.wy_spelling.specs.Plain.{IsTextSpelled, text_bytes};
ghost use Rattle.wy_spelling.specs.TextLaws.{some_text, texts_apart, texts_filled};

use crate::spelled::{ReadError, Spelled, WriteRefusal};
use std::alloc::Global;
use wy_text::text::{Text, from_bytes};

impl Spelled for Text {
    ghost IsSpelled = { IsTextSpelled };

    ghost bytes_of = { text_bytes };

    fn read(alloc: Global, bytes: &[u8]) -> Result<(Text, &[u8]), ReadError> {
        let (count, behind) = u32::read(alloc, bytes)?;
        if behind.len() < count as usize {
            return Err(ReadError::Bad(0));
        }
        let (text, rest) = behind.split_at(count as usize);
        Ok((from_bytes(alloc, text)?, rest))
    }

    fn write(&self, out: &mut Vec<u8>) -> Result<(), WriteRefusal> {
        let bytes = self.as_bytes();
        if bytes.len() > u32::MAX as usize {
            return Err(WriteRefusal::Long);
        }
        (bytes.len() as u32).write(out)?;
        out.extend_from_slice(bytes)?;
        Ok(())
    }

    ghost some = { some_text };

    ghost apart = { texts_apart };

    ghost filled = { texts_filled };
}
