//! Methods of objects as bytes: a name and a body.

ghost use Rattle.std.specs.Prelude.{◌≡◌};
ghost use Rattle.wy_image.specs.EntryLaws.{entry_kind, entry_of};
ghost use Rattle.wy_image.specs.Spelled.{IsEntrySpelled, entry_bytes};

use crate::file::Entry;
use std::alloc::Global;
use wy_spelling::{ReadError, Spelled, WriteRefusal};

/// The parts, in the order of their bytes.
type Parts = (u32, u32);

/// Makes the whole of its parts.
fn entry_of(parts: Parts) -> Entry
    ensures { result ≡ entry_of parts }
{
    let (method, body) = parts;
    Entry { method, body }
}

impl Spelled for Entry {
    ghost IsSpelled = { IsEntrySpelled };

    ghost bytes_of = { entry_bytes };

    fn read(alloc: Global, bytes: &[u8]) -> Result<(Entry, &[u8]), ReadError> {
        let (parts, rest) = Parts::read(alloc, bytes)?;
        Ok((entry_of(parts), rest))
    }

    fn write(&self, out: &mut Vec<u8>) -> Result<(), WriteRefusal> {
        self.method.write(out)?;
        self.body.write(out)
    }

    ghost some = { entry_kind.some };

    ghost apart = { entry_kind.apart };

    ghost filled = { entry_kind.filled };
}
