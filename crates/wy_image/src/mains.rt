//! The program as bytes: its scope, and what is stated of it.

ghost use Rattle.std.specs.Prelude.{◌≡◌};
ghost use Rattle.wy_image.specs.MainLaws.{main_kind, main_of};
ghost use Rattle.wy_image.specs.Spelled.{IsMainSpelled, main_bytes};

use crate::file::Main;
use crate::typing::Typing;
use std::alloc::Global;
use wy_spelling::{ReadError, Spelled, WriteRefusal};

/// The parts, in the order of their bytes.
type Parts = (u32, Typing);

/// Makes the whole of its parts.
fn main_of(parts: Parts) -> Main
    ensures { result ≡ main_of parts }
{
    let (scope, typing) = parts;
    Main { scope, typing }
}

impl Spelled for Main {
    ghost IsSpelled = { IsMainSpelled };

    ghost bytes_of = { main_bytes };

    fn read(alloc: Global, bytes: &[u8]) -> Result<(Main, &[u8]), ReadError> {
        let (parts, rest) = Parts::read(alloc, bytes)?;
        Ok((main_of(parts), rest))
    }

    fn write(&self, out: &mut Vec<u8>) -> Result<(), WriteRefusal> {
        self.scope.write(out)?;
        self.typing.write(out)
    }

    ghost some = { main_kind.some };

    ghost apart = { main_kind.apart };

    ghost filled = { main_kind.filled };
}
