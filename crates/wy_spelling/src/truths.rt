//! Truth values as bytes: 0 is false, 1 is true.

ghost use Rattle.std.specs.Prelude.{◌≡◌, ◌<◌, IfNone, IfSome};
ghost use Rattle.wy_spelling.specs.Plain.{IsTruthSpelled, truth_byte, truth_bytes};
ghost use Rattle.wy_spelling.specs.TruthLaws.{some_truth, truths_apart, truths_filled};

use crate::spelled::{ReadError, Spelled, WriteRefusal};
use std::alloc::Global;

/// Returns the truth value of a byte.
fn truth_of(byte: u8) -> Option<bool>
    ensures found { IfSome result (λ b. truth_byte b ≡ byte) }
    ensures none { IfNone result (1 < byte) }
{
    match byte {
        0 => Some(false),
        1 => Some(true),
        _ => None,
    }
}

impl Spelled for bool {
    ghost IsSpelled = { IsTruthSpelled };

    ghost bytes_of = { truth_bytes };

    fn read(_alloc: Global, bytes: &[u8]) -> Result<(bool, &[u8]), ReadError> {
        let [byte, rest @ ..] = bytes else {
            return Err(ReadError::Bad(0));
        };
        match truth_of(*byte) {
            Some(truth) => Ok((truth, rest)),
            None => Err(ReadError::Bad(bytes.len())),
        }
    }

    fn write(&self, out: &mut Vec<u8>) -> Result<(), WriteRefusal> {
        out.push(if *self { 1 } else { 0 })?;
        Ok(())
    }

    ghost some = { some_truth };

    ghost apart = { truths_apart };

    ghost filled = { truths_filled };
}
