//! Instances as bytes: a name, a scope, the arguments, and what is stated.

ghost use Rattle.std.specs.Prelude.{◌≡◌};
ghost use Rattle.wy_image.specs.InstanceLaws.{instance_kind, instance_of};
ghost use Rattle.wy_image.specs.Spelled.{IsInstanceSpelled, instance_bytes};

use crate::file::{Argument, Instance};
use crate::typing::Typing;
use std::alloc::Global;
use wy_spelling::{ReadError, Spelled, WriteRefusal};
use wy_text::list::Items;
use wy_text::text::Text;

/// The parts, in the order of their bytes.
type Parts = (Text, (u32, (Items<Argument>, Typing)));

/// Makes the whole of its parts.
fn instance_of(parts: Parts) -> Instance
    ensures { result ≡ instance_of parts }
{
    let (name, (scope, (arguments, typing))) = parts;
    Instance {
        name,
        scope,
        arguments,
        typing,
    }
}

impl Spelled for Instance {
    ghost IsSpelled = { IsInstanceSpelled };

    ghost bytes_of = { instance_bytes };

    fn read(alloc: Global, bytes: &[u8]) -> Result<(Instance, &[u8]), ReadError> {
        let (parts, rest) = Parts::read(alloc, bytes)?;
        Ok((instance_of(parts), rest))
    }

    fn write(&self, out: &mut Vec<u8>) -> Result<(), WriteRefusal> {
        self.name.write(out)?;
        self.scope.write(out)?;
        self.arguments.write(out)?;
        self.typing.write(out)
    }

    ghost some = { instance_kind.some };

    ghost apart = { instance_kind.apart };

    ghost filled = { instance_kind.filled };
}
