//! Ints as bytes: the eight bytes of the two's complement, the least first.

ghost use Rattle.wy_spelling.specs.IntLaws.{ints_apart, ints_filled, some_int};
ghost use Rattle.wy_spelling.specs.Plain.{IsIntSpelled, int_bytes};

use crate::spelled::{ReadError, Spelled, WriteRefusal};
use std::alloc::Global;

impl Spelled for i64 {
    ghost IsSpelled = { IsIntSpelled };

    ghost bytes_of = { int_bytes };

    fn read(_alloc: Global, bytes: &[u8]) -> Result<(i64, &[u8]), ReadError> {
        match bytes {
            [a, b, c, d, e, f, g, h, rest @ ..] => {
                Ok((i64::from_le_bytes([*a, *b, *c, *d, *e, *f, *g, *h]), rest))
            }
            _ => Err(ReadError::Bad(0)),
        }
    }

    fn write(&self, out: &mut Vec<u8>) -> Result<(), WriteRefusal> {
        let number = *self;
        out.extend_from_slice(&number.to_le_bytes())?;
        Ok(())
    }

    ghost some = { some_int };

    ghost apart = { ints_apart };

    ghost filled = { ints_filled };
}
