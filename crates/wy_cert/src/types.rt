//! Types as bytes: a byte that says of which form they are, and what that form has.

ghost use Rattle.std.specs.Prelude.{◌≡◌, slice_index};
ghost use Rattle.wy_cert.specs.Spelled.{IsTypeSpelled, type_bytes};
ghost use Rattle.wy_cert.specs.TypeLaws.{types_apart, types_filled};
ghost use Rattle.wy_cert.specs.declared.certificate.CertType.TheVariants as typ;

use crate::certificate::{CertType, NumberList};
use std::alloc::Global;
use wy_spelling::{ReadError, Spelled, WriteRefusal};
use wy_text::list::Items;

/// The byte that says of which form a type is.
fn form_of(typ: &CertType) -> u8
    ensures { result ≡ slice_index (type_bytes typ.now) 0 }
{
    match typ {
        CertType::Int => 0,
        CertType::Bool => 1,
        CertType::Text => 2,
        CertType::Unit => 3,
        CertType::Named { .. } => 4,
        CertType::At { .. } => 5,
        CertType::Own { .. } => 6,
    }
}

impl Spelled for CertType {
    ghost IsSpelled = { IsTypeSpelled };

    ghost bytes_of = { type_bytes };

    fn read(alloc: Global, bytes: &[u8]) -> Result<(CertType, &[u8]), ReadError> {
        let [form, rest @ ..] = bytes else {
            return Err(ReadError::Bad(0));
        };
        match *form {
            0 => Ok((CertType::Int, rest)),
            1 => Ok((CertType::Bool, rest)),
            2 => Ok((CertType::Text, rest)),
            3 => Ok((CertType::Unit, rest)),
            4 => {
                let ((decl, members), rest) = <(u32, Items<NumberList>)>::read(alloc, rest)?;
                Ok((CertType::Named { decl, members }, rest))
            }
            5 => {
                let ((decl, bound), rest) = <(u32, NumberList)>::read(alloc, rest)?;
                Ok((CertType::At { decl, bound }, rest))
            }
            6 => {
                let (literal, rest) = u32::read(alloc, rest)?;
                Ok((CertType::Own { literal }, rest))
            }
            _ => Err(ReadError::Bad(bytes.len())),
        }
    }

    fn write(&self, out: &mut Vec<u8>) -> Result<(), WriteRefusal> {
        out.push(form_of(self))?;
        match self {
            CertType::Named { decl, members } => {
                decl.write(out)?;
                members.write(out)
            }
            CertType::At { decl, bound } => {
                decl.write(out)?;
                bound.write(out)
            }
            CertType::Own { literal } => literal.write(out),
            _ => Ok(()),
        }
    }

    ghost some = { (typ.Int, tt) };

    ghost apart = { types_apart };

    ghost filled = { types_filled };
}
