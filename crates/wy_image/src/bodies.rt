//! Bodies as bytes: the numbers of parameters and slots, and the rows.

ghost use Rattle.std.specs.Prelude.{◌≡◌};
ghost use Rattle.wy_image.specs.BodyLaws.{body_kind, body_of};
ghost use Rattle.wy_image.specs.Spelled.{IsBodySpelled, body_bytes};

use crate::file::{Body, Row};
use std::alloc::Global;
use wy_spelling::{ReadError, Spelled, WriteRefusal};
use wy_text::list::Items;

/// The parts, in the order of their bytes.
type Parts = (u32, (u32, Items<Row>));

/// Makes the whole of its parts.
fn body_of(parts: Parts) -> Body
    ensures { result ≡ body_of parts }
{
    let (parameters, (slots, rows)) = parts;
    Body {
        parameters,
        slots,
        rows,
    }
}

impl Spelled for Body {
    ghost IsSpelled = { IsBodySpelled };

    ghost bytes_of = { body_bytes };

    fn read(alloc: Global, bytes: &[u8]) -> Result<(Body, &[u8]), ReadError> {
        let (parts, rest) = Parts::read(alloc, bytes)?;
        Ok((body_of(parts), rest))
    }

    fn write(&self, out: &mut Vec<u8>) -> Result<(), WriteRefusal> {
        self.parameters.write(out)?;
        self.slots.write(out)?;
        self.rows.write(out)
    }

    ghost some = { body_kind.some };

    ghost apart = { body_kind.apart };

    ghost filled = { body_kind.filled };
}
