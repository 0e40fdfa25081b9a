//! Constants as bytes: the form, and what follows it.

ghost use Rattle.std.specs.Prelude.{◌≡◌, ◌∷◌, slice_index};
ghost use Rattle.wy_spelling.specs.Spelling.{number_bytes};
ghost use Rattle.wy_image.specs.Forms.{IsNumberedConstant};
ghost use Rattle.wy_image.specs.ConstantLaws.{constant_kind};
ghost use Rattle.wy_image.specs.Spelled.{IsConstantSpelled, constant_bytes};

use crate::file::Constant;
use std::alloc::Global;
use wy_spelling::{ReadError, Spelled, WriteRefusal};
use wy_text::text::Text;

/// Makes the value of a form that has a number.
fn numbered(form: u8, number: u32) -> Constant
    requires { IsNumberedConstant form }
    ensures spelled { IsConstantSpelled result }
    ensures bytes { constant_bytes result ≡ form ∷ number_bytes number }
{
    match form {
        4 => Constant::Grant(number),
        _ => Constant::Instance(number),
    }
}

/// Returns the byte of the form.
fn form_of(constant: &Constant) -> u8
    ensures { result ≡ slice_index (constant_bytes constant.now) 0 }
{
    match constant {
        Constant::Int(_) => 0,
        Constant::Truth(_) => 1,
        Constant::Unit => 2,
        Constant::Text(_) => 3,
        Constant::Grant(_) => 4,
        Constant::Instance(_) => 5,
    }
}

impl Spelled for Constant {
    ghost IsSpelled = { IsConstantSpelled };

    ghost bytes_of = { constant_bytes };

    fn read(alloc: Global, bytes: &[u8]) -> Result<(Constant, &[u8]), ReadError> {
        let [form, rest @ ..] = bytes else {
            return Err(ReadError::Bad(0));
        };
        match *form {
            0 => {
                let (int, rest) = i64::read(alloc, rest)?;
                Ok((Constant::Int(int), rest))
            }
            1 => {
                let (truth, rest) = bool::read(alloc, rest)?;
                Ok((Constant::Truth(truth), rest))
            }
            2 => Ok((Constant::Unit, rest)),
            3 => {
                let (text, rest) = Text::read(alloc, rest)?;
                Ok((Constant::Text(text), rest))
            }
            4..=5 => {
                let (number, rest) = u32::read(alloc, rest)?;
                Ok((numbered(*form, number), rest))
            }
            _ => Err(ReadError::Bad(bytes.len())),
        }
    }

    fn write(&self, out: &mut Vec<u8>) -> Result<(), WriteRefusal> {
        out.push(form_of(self))?;
        match self {
            Constant::Grant(number) | Constant::Instance(number) => number.write(out),
            Constant::Int(int) => int.write(out),
            Constant::Truth(truth) => truth.write(out),
            Constant::Text(text) => text.write(out),
            _ => Ok(()),
        }
    }

    ghost some = { constant_kind.some };

    ghost apart = { constant_kind.apart };

    ghost filled = { constant_kind.filled };
}
