//! Literals as bytes: the captured values, the number of fields, and the methods.

ghost use Rattle.std.specs.Prelude.{◌≡◌};
ghost use Rattle.wy_image.specs.LiteralLaws.{literal_kind, literal_of};
ghost use Rattle.wy_image.specs.Spelled.{IsLiteralSpelled, literal_bytes};

use crate::file::{Capture, Entry, Literal};
use std::alloc::Global;
use wy_spelling::{ReadError, Spelled, WriteRefusal};
use wy_text::list::Items;

/// The parts, in the order of their bytes.
type Parts = (Items<Capture>, (u32, Items<Entry>));

/// Makes the whole of its parts.
fn literal_of(parts: Parts) -> Literal
    ensures { result ≡ literal_of parts }
{
    let (captures, (fields, entries)) = parts;
    Literal {
        captures,
        fields,
        entries,
    }
}

impl Spelled for Literal {
    ghost IsSpelled = { IsLiteralSpelled };

    ghost bytes_of = { literal_bytes };

    fn read(alloc: Global, bytes: &[u8]) -> Result<(Literal, &[u8]), ReadError> {
        let (parts, rest) = Parts::read(alloc, bytes)?;
        Ok((literal_of(parts), rest))
    }

    fn write(&self, out: &mut Vec<u8>) -> Result<(), WriteRefusal> {
        self.captures.write(out)?;
        self.fields.write(out)?;
        self.entries.write(out)
    }

    ghost some = { literal_kind.some };

    ghost apart = { literal_kind.apart };

    ghost filled = { literal_kind.filled };
}
