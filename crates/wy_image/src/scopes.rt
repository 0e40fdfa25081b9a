//! Scopes as bytes: the number of arguments, the first body, the number of fields, the methods and the literals.

ghost use Rattle.std.specs.Prelude.{◌≡◌};
ghost use Rattle.wy_image.specs.ScopeLaws.{scope_kind, scope_of};
ghost use Rattle.wy_image.specs.Spelled.{IsScopeSpelled, scope_bytes};

use crate::file::{Entry, Literal, Scope};
use std::alloc::Global;
use wy_spelling::{ReadError, Spelled, WriteRefusal};
use wy_text::list::Items;

/// The parts, in the order of their bytes.
type Parts = (u32, (u32, (u32, (Items<Entry>, Items<Literal>))));

/// Makes the whole of its parts.
fn scope_of(parts: Parts) -> Scope
    ensures { result ≡ scope_of parts }
{
    let (arguments, (first, (fields, (entries, literals)))) = parts;
    Scope {
        arguments,
        first,
        fields,
        entries,
        literals,
    }
}

impl Spelled for Scope {
    ghost IsSpelled = { IsScopeSpelled };

    ghost bytes_of = { scope_bytes };

    fn read(alloc: Global, bytes: &[u8]) -> Result<(Scope, &[u8]), ReadError> {
        let (parts, rest) = Parts::read(alloc, bytes)?;
        Ok((scope_of(parts), rest))
    }

    fn write(&self, out: &mut Vec<u8>) -> Result<(), WriteRefusal> {
        self.arguments.write(out)?;
        self.first.write(out)?;
        self.fields.write(out)?;
        self.entries.write(out)?;
        self.literals.write(out)
    }

    ghost some = { scope_kind.some };

    ghost apart = { scope_kind.apart };

    ghost filled = { scope_kind.filled };
}
