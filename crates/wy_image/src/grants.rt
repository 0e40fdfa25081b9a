//! Grants as bytes: a name, and a byte for the primitive type.

ghost use Rattle.wy_image.specs.GrantLaws.{grant_kind};
ghost use Rattle.wy_image.specs.Spelled.{IsGrantSpelled, grant_bytes};

use crate::file::Grant;
use crate::primitives::{byte_of, read_primitive};
use std::alloc::Global;
use wy_spelling::{ReadError, Spelled, WriteRefusal};
use wy_text::text::Text;

impl Spelled for Grant {
    ghost IsSpelled = { IsGrantSpelled };

    ghost bytes_of = { grant_bytes };

    fn read(alloc: Global, bytes: &[u8]) -> Result<(Grant, &[u8]), ReadError> {
        let (name, rest) = Text::read(alloc, bytes)?;
        let (primitive, rest) = read_primitive(rest)?;
        Ok((Grant { name, primitive }, rest))
    }

    fn write(&self, out: &mut Vec<u8>) -> Result<(), WriteRefusal> {
        self.name.write(out)?;
        out.push(byte_of(self.primitive))?;
        Ok(())
    }

    ghost some = { grant_kind.some };

    ghost apart = { grant_kind.apart };

    ghost filled = { grant_kind.filled };
}
