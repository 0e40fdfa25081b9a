//! References as bytes: the form, and the number that some forms have.

ghost use Rattle.std.specs.Prelude.{◌≡◌, ◌∷◌, slice_index};
ghost use Rattle.wy_spelling.specs.Spelling.{number_bytes};
ghost use Rattle.wy_image.specs.Forms.{IsNumberedReference};
ghost use Rattle.wy_image.specs.ReferenceLaws.{reference_kind};
ghost use Rattle.wy_image.specs.Spelled.{IsReferenceSpelled, reference_bytes};

use crate::typing::Reference;
use std::alloc::Global;
use wy_spelling::{ReadError, Spelled, WriteRefusal};

/// Makes the value of a form that has a number.
fn numbered(form: u8, number: u32) -> Reference
    requires { IsNumberedReference form }
    ensures spelled { IsReferenceSpelled result }
    ensures bytes { reference_bytes result ≡ form ∷ number_bytes number }
{
    match form {
        4 => Reference::Listed(number),
        5 => Reference::Literal(number),
        6 => Reference::Grant(number),
        _ => Reference::Instance(number),
    }
}

/// Returns the byte of the form.
fn form_of(reference: &Reference) -> u8
    ensures { result ≡ slice_index (reference_bytes reference.now) 0 }
{
    match reference {
        Reference::Int => 0,
        Reference::Truth => 1,
        Reference::Bytes => 2,
        Reference::Unit => 3,
        Reference::Listed(_) => 4,
        Reference::Literal(_) => 5,
        Reference::Grant(_) => 6,
        Reference::Instance(_) => 7,
    }
}

impl Spelled for Reference {
    ghost IsSpelled = { IsReferenceSpelled };

    ghost bytes_of = { reference_bytes };

    fn read(alloc: Global, bytes: &[u8]) -> Result<(Reference, &[u8]), ReadError> {
        let [form, rest @ ..] = bytes else {
            return Err(ReadError::Bad(0));
        };
        match *form {
            0 => Ok((Reference::Int, rest)),
            1 => Ok((Reference::Truth, rest)),
            2 => Ok((Reference::Bytes, rest)),
            3 => Ok((Reference::Unit, rest)),
            4..=7 => {
                let (number, rest) = u32::read(alloc, rest)?;
                Ok((numbered(*form, number), rest))
            }
            _ => Err(ReadError::Bad(bytes.len())),
        }
    }

    fn write(&self, out: &mut Vec<u8>) -> Result<(), WriteRefusal> {
        out.push(form_of(self))?;
        match self {
            Reference::Listed(number)
            | Reference::Literal(number)
            | Reference::Grant(number)
            | Reference::Instance(number) => number.write(out),
            _ => Ok(()),
        }
    }

    ghost some = { reference_kind.some };

    ghost apart = { reference_kind.apart };

    ghost filled = { reference_kind.filled };
}
