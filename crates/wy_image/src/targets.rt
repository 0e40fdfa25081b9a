//! Targets as bytes: an address, the operands there, and the stored slots.

ghost use Rattle.std.specs.Prelude.{◌≡◌};
ghost use Rattle.wy_image.specs.TargetLaws.{target_kind, target_of};
ghost use Rattle.wy_image.specs.Spelled.{IsTargetSpelled, target_bytes};

use crate::typing::{Reference, Target};
use std::alloc::Global;
use wy_spelling::{ReadError, Spelled, WriteRefusal};
use wy_text::list::Items;

/// The parts, in the order of their bytes.
type Parts = (u32, (Items<Reference>, Items<u32>));

/// Makes the whole of its parts.
fn target_of(parts: Parts) -> Target
    ensures { result ≡ target_of parts }
{
    let (address, (operands, stored)) = parts;
    Target {
        address,
        operands,
        stored,
    }
}

impl Spelled for Target {
    ghost IsSpelled = { IsTargetSpelled };

    ghost bytes_of = { target_bytes };

    fn read(alloc: Global, bytes: &[u8]) -> Result<(Target, &[u8]), ReadError> {
        let (parts, rest) = Parts::read(alloc, bytes)?;
        Ok((target_of(parts), rest))
    }

    fn write(&self, out: &mut Vec<u8>) -> Result<(), WriteRefusal> {
        self.address.write(out)?;
        self.operands.write(out)?;
        self.stored.write(out)
    }

    ghost some = { target_kind.some };

    ghost apart = { target_kind.apart };

    ghost filled = { target_kind.filled };
}
