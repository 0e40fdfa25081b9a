//! Atoms as bytes: a grant and a member.

ghost use Rattle.std.specs.Prelude.{◌≡◌};
ghost use Rattle.wy_image.specs.AtomLaws.{atom_kind, atom_of};
ghost use Rattle.wy_image.specs.Spelled.{IsAtomSpelled, atom_bytes};

use crate::typing::Atom;
use std::alloc::Global;
use wy_spelling::{ReadError, Spelled, WriteRefusal};

/// The parts, in the order of their bytes.
type Parts = (u32, u32);

/// Makes the whole of its parts.
fn atom_of(parts: Parts) -> Atom
    ensures { result ≡ atom_of parts }
{
    let (grant, member) = parts;
    Atom { grant, member }
}

impl Spelled for Atom {
    ghost IsSpelled = { IsAtomSpelled };

    ghost bytes_of = { atom_bytes };

    fn read(alloc: Global, bytes: &[u8]) -> Result<(Atom, &[u8]), ReadError> {
        let (parts, rest) = Parts::read(alloc, bytes)?;
        Ok((atom_of(parts), rest))
    }

    fn write(&self, out: &mut Vec<u8>) -> Result<(), WriteRefusal> {
        self.grant.write(out)?;
        self.member.write(out)
    }

    ghost some = { atom_kind.some };

    ghost apart = { atom_kind.apart };

    ghost filled = { atom_kind.filled };
}
