//! What is stated of an instance, as bytes.

ghost use Rattle.std.specs.Prelude.{◌≡◌};
ghost use Rattle.wy_image.specs.TypingLaws.{typing_kind, typing_of};
ghost use Rattle.wy_image.specs.Spelled.{IsTypingSpelled, typing_bytes};

use crate::typing::{Bounds, Reference, Typing};
use std::alloc::Global;
use wy_spelling::{ReadError, Spelled, WriteRefusal};
use wy_text::list::Items;

/// The parts, in the order of their bytes.
type Parts = (Items<Reference>, (Items<Items<Reference>>, Items<Bounds>));

/// Makes the whole of its parts.
fn typing_of(parts: Parts) -> Typing
    ensures { result ≡ typing_of parts }
{
    let (values, (literals, bodies)) = parts;
    Typing {
        values,
        literals,
        bodies,
    }
}

impl Spelled for Typing {
    ghost IsSpelled = { IsTypingSpelled };

    ghost bytes_of = { typing_bytes };

    fn read(alloc: Global, bytes: &[u8]) -> Result<(Typing, &[u8]), ReadError> {
        let (parts, rest) = Parts::read(alloc, bytes)?;
        Ok((typing_of(parts), rest))
    }

    fn write(&self, out: &mut Vec<u8>) -> Result<(), WriteRefusal> {
        self.values.write(out)?;
        self.literals.write(out)?;
        self.bodies.write(out)
    }

    ghost some = { typing_kind.some };

    ghost apart = { typing_kind.apart };

    ghost filled = { typing_kind.filled };
}
