//! Listed types.

ghost use Rattle.std.specs.Prelude.{◌≡◌, ◌↔◌, ◌<◌, ℕ, List, IsTrue, IfOk, map};
ghost use Rattle.wy_text.specs.Members.{In};
ghost use Rattle.wy_image.specs.declared.typing.Signature.{Signature};
ghost use Rattle.wy_verified.specs.Ranges.{SignatureInRange, TypeInRange};

use crate::ranges::distinct::are_apart;
use crate::ranges::references::{are_atoms, are_plain, is_plain};
use std::alloc::Global;
use wy_image::{ImageFile, Listed, Signature};
use wy_text::text::Memory;

/// Whether a method of a listed type names what is there.
fn is_signature(file: &ImageFile, signature: &Signature) -> bool
    ensures { IsTrue result ↔ SignatureInRange file.now signature.now }
{
    (signature.method as usize) < file.methods.len()
        && are_plain(file, signature.parameters.as_slice())
        && are_atoms(file, signature.effect.as_slice())
        && is_plain(file, signature.result)
}

/// Whether all methods of a listed type do.
fn are_signatures(file: &ImageFile, signatures: &[Signature]) -> bool
    ensures { IsTrue result ↔ ((g : Signature) → In g signatures.now → SignatureInRange file.now g) }
{
    for signature in signatures {
        if !is_signature(file, signature) {
            return false;
        }
    }
    true
}

/// Returns the numbers of the methods' names.
fn names_of(alloc: Global, signatures: &[Signature]) -> Result<Vec<u32>, Memory>
    ensures { IfOk result (λ v. v.items ≡ map (λ (g : Signature). g.method) signatures.now) }
{
    let mut names = Vec::new(alloc);
    for signature in signatures {
        names.push(signature.method)?;
    }
    Ok(names)
}

/// Whether the methods of a listed type have different names, and name what is there.
fn is_type(alloc: Global, file: &ImageFile, signatures: &[Signature]) -> Result<bool, Memory>
    ensures { IfOk result (λ b. IsTrue b ↔ TypeInRange file.now signatures.now) }
{
    let names = names_of(alloc, signatures)?;
    let apart = are_apart(alloc, names.as_slice())?;
    if !apart {
        return Ok(false);
    }
    Ok(are_signatures(file, signatures))
}

/// Whether all listed types are so.
pub(super) fn are_types(alloc: Global, file: &ImageFile, types: &[Listed]) -> Result<bool, Memory>
    ensures { IfOk result (λ b. IsTrue b ↔ ((t : List Signature) → In t types.now → TypeInRange file.now t)) }
{
    for listed in types {
        let fits = is_type(alloc, file, listed.as_slice())?;
        if !fits {
            return Ok(false);
        }
    }
    Ok(true)
}
