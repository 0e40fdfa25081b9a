//! Methods of listed types as bytes: a name, the types of the parameters, the effect and the type of the result.

ghost use Rattle.std.specs.Prelude.{◌≡◌};
ghost use Rattle.wy_image.specs.SignatureLaws.{signature_kind, signature_of};
ghost use Rattle.wy_image.specs.Spelled.{IsSignatureSpelled, signature_bytes};

use crate::typing::{Atom, Reference, Signature};
use std::alloc::Global;
use wy_spelling::{ReadError, Spelled, WriteRefusal};
use wy_text::list::Items;

/// The parts, in the order of their bytes.
type Parts = (u32, (Items<Reference>, (Items<Atom>, Reference)));

/// Makes the whole of its parts.
fn signature_of(parts: Parts) -> Signature
    ensures { result ≡ signature_of parts }
{
    let (method, (parameters, (effect, result))) = parts;
    Signature {
        method,
        parameters,
        effect,
        result,
    }
}

impl Spelled for Signature {
    ghost IsSpelled = { IsSignatureSpelled };

    ghost bytes_of = { signature_bytes };

    fn read(alloc: Global, bytes: &[u8]) -> Result<(Signature, &[u8]), ReadError> {
        let (parts, rest) = Parts::read(alloc, bytes)?;
        Ok((signature_of(parts), rest))
    }

    fn write(&self, out: &mut Vec<u8>) -> Result<(), WriteRefusal> {
        self.method.write(out)?;
        self.parameters.write(out)?;
        self.effect.write(out)?;
        self.result.write(out)
    }

    ghost some = { signature_kind.some };

    ghost apart = { signature_kind.apart };

    ghost filled = { signature_kind.filled };
}
