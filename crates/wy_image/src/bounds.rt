//! What is stated of a body, as bytes.

ghost use Rattle.std.specs.Prelude.{◌≡◌};
ghost use Rattle.wy_image.specs.BoundsLaws.{bounds_kind, bounds_of};
ghost use Rattle.wy_image.specs.Spelled.{IsBoundsSpelled, bounds_bytes};

use crate::typing::{Atom, Bounds, Reference, Target};
use std::alloc::Global;
use wy_spelling::{ReadError, Spelled, WriteRefusal};
use wy_text::list::Items;
use wy_text::text::Text;

/// The parts, in the order of their bytes.
type Parts = (
    u32,
    (
        Text,
        (
            Items<Atom>,
            (
                Items<Reference>,
                (Reference, (Items<Reference>, Items<Target>)),
            ),
        ),
    ),
);

/// Makes the whole of its parts.
fn bounds_of(parts: Parts) -> Bounds
    ensures { result ≡ bounds_of parts }
{
    let (body, (name, (effect, (parameters, (result, (vals, targets)))))) = parts;
    Bounds {
        body,
        name,
        effect,
        parameters,
        result,
        vals,
        targets,
    }
}

impl Spelled for Bounds {
    ghost IsSpelled = { IsBoundsSpelled };

    ghost bytes_of = { bounds_bytes };

    fn read(alloc: Global, bytes: &[u8]) -> Result<(Bounds, &[u8]), ReadError> {
        let (parts, rest) = Parts::read(alloc, bytes)?;
        Ok((bounds_of(parts), rest))
    }

    fn write(&self, out: &mut Vec<u8>) -> Result<(), WriteRefusal> {
        self.body.write(out)?;
        self.name.write(out)?;
        self.effect.write(out)?;
        self.parameters.write(out)?;
        self.result.write(out)?;
        self.vals.write(out)?;
        self.targets.write(out)
    }

    ghost some = { bounds_kind.some };

    ghost apart = { bounds_kind.apart };

    ghost filled = { bounds_kind.filled };
}
