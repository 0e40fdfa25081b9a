//! Pairs of types.

ghost use Rattle.std.specs.Prelude.{◌≡◌, IfOk};
ghost use Rattle.wy_certify.specs.Pair.{pair_of};

use std::alloc::Global;
use wy_text::text::Memory;
use wy_types::types::TypeRef;

/// Two types, the first of which is to be a subtype of the second.
#[derive(Drop)]
pub struct TypePair {
    pub left: TypeRef,
    pub right: TypeRef,
}

/// A pair of copies of these types.
pub fn copied_pair(alloc: Global, left: &TypeRef, right: &TypeRef) -> Result<TypePair, Memory>
    ensures { IfOk result (λ q. pair_of q ≡ (left.now, right.now)) }
{
    Ok(TypePair {
        left: left.copy(alloc)?,
        right: right.copy(alloc)?,
    })
}
