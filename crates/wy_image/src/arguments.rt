//! Arguments of instances as bytes: the form, and its number.

ghost use Rattle.std.specs.Prelude.{◌≡◌, ◌∷◌, slice_index};
ghost use Rattle.wy_spelling.specs.Spelling.{number_bytes};
ghost use Rattle.wy_image.specs.Forms.{IsNumberedArgument};
ghost use Rattle.wy_image.specs.ArgumentLaws.{argument_kind};
ghost use Rattle.wy_image.specs.Spelled.{IsArgumentSpelled, argument_bytes};

use crate::file::Argument;
use std::alloc::Global;
use wy_spelling::{ReadError, Spelled, WriteRefusal};

/// Makes the value of a form that has a number.
fn numbered(form: u8, number: u32) -> Argument
    requires { IsNumberedArgument form }
    ensures spelled { IsArgumentSpelled result }
    ensures bytes { argument_bytes result ≡ form ∷ number_bytes number }
{
    match form {
        0 => Argument::Grant(number),
        _ => Argument::Instance(number),
    }
}

/// Returns the byte of the form.
fn form_of(argument: &Argument) -> u8
    ensures { result ≡ slice_index (argument_bytes argument.now) 0 }
{
    match argument {
        Argument::Grant(_) => 0,
        Argument::Instance(_) => 1,
    }
}

impl Spelled for Argument {
    ghost IsSpelled = { IsArgumentSpelled };

    ghost bytes_of = { argument_bytes };

    fn read(alloc: Global, bytes: &[u8]) -> Result<(Argument, &[u8]), ReadError> {
        let [form, rest @ ..] = bytes else {
            return Err(ReadError::Bad(0));
        };
        match *form {
            0..=1 => {
                let (number, rest) = u32::read(alloc, rest)?;
                Ok((numbered(*form, number), rest))
            }
            _ => Err(ReadError::Bad(bytes.len())),
        }
    }

    fn write(&self, out: &mut Vec<u8>) -> Result<(), WriteRefusal> {
        out.push(form_of(self))?;
        match self {
            Argument::Grant(number) | Argument::Instance(number) => number.write(out),
        }
    }

    ghost some = { argument_kind.some };

    ghost apart = { argument_kind.apart };

    ghost filled = { argument_kind.filled };
}
