//! Rows as bytes: an instruction and its place.

ghost use Rattle.std.specs.Prelude.{◌≡◌};
ghost use Rattle.wy_image.specs.RowLaws.{row_kind, row_of};
ghost use Rattle.wy_image.specs.Spelled.{IsRowSpelled, row_bytes};

use crate::file::{Instruction, Row};
use std::alloc::Global;
use wy_spelling::{ReadError, Spelled, WriteRefusal};

/// The parts, in the order of their bytes.
type Parts = (Instruction, (u32, (u32, u32)));

/// Makes the whole of its parts.
fn row_of(parts: Parts) -> Row
    ensures { result ≡ row_of parts }
{
    let (instruction, (file, (line, column))) = parts;
    Row {
        instruction,
        file,
        line,
        column,
    }
}

impl Spelled for Row {
    ghost IsSpelled = { IsRowSpelled };

    ghost bytes_of = { row_bytes };

    fn read(alloc: Global, bytes: &[u8]) -> Result<(Row, &[u8]), ReadError> {
        let (parts, rest) = Parts::read(alloc, bytes)?;
        Ok((row_of(parts), rest))
    }

    fn write(&self, out: &mut Vec<u8>) -> Result<(), WriteRefusal> {
        self.instruction.write(out)?;
        self.file.write(out)?;
        self.line.write(out)?;
        self.column.write(out)
    }

    ghost some = { row_kind.some };

    ghost apart = { row_kind.apart };

    ghost filled = { row_kind.filled };
}
