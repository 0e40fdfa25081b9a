//! The step from a pair to one that it asks for.

ghost use Rattle.std.specs.Prelude.{◌≡◌, ℕ, ◌≤◌, ◌↔◌, IfOk, IfSome, IfNone, IsTrue, length, map};
ghost use Rattle.wy_text.specs.Members.{In};
ghost use Rattle.wy_types.specs.Signature.{Signature, find_method};
ghost use Rattle.wy_types.specs.Types.{signature};
ghost use Rattle.wy_subtype.specs.Asked.{AreExchanged, AsksBy, IsAskedOf, IsAskedBy};

use crate::unfolding::find;
use wy_text::text::Memory;
use wy_types::path::{Part, Step};
use wy_types::types::{Method, TypeRef};

/// Whether the parameters of a number are the two types, with the sides exchanged.
fn are_exchanged(left: &[TypeRef], right: &[TypeRef], i: usize, s: &TypeRef, t: &TypeRef) -> bool
    ensures { IsTrue result ↔ AreExchanged left.now right.now i (s.now, t.now) }
{
    match (left.get(i), right.get(i)) {
        (Some(a), Some(b)) => b.same(s) && a.same(t),
        _ => false,
    }
}

/// The number of the first parameter that asks for a pair.
fn asking_parameter(left: &[TypeRef], right: &[TypeRef], s: &TypeRef, t: &TypeRef) -> Option<u16>
    requires few { length left.now ≤ 16 }
    ensures some { IfSome result (λ i. AreExchanged left.now right.now i (s.now, t.now)) }
    ensures none { IfNone result ((i : ℕ) → AreExchanged left.now right.now i (s.now, t.now) → ⊥) }
{
    for i in 0..left.len() {
        if are_exchanged(left, right, i, s, t) {
            return Some(i as u16);
        }
    }
    None
}

/// Whether the results of two methods are the two types.
fn are_results(left: &Method, right: &Method, s: &TypeRef, t: &TypeRef) -> bool
    ensures { IsTrue result ↔ (s.now ≡ left.now.result) × (t.now ≡ right.now.result) }
{
    left.result.same(s) && right.result.same(t)
}

/// The first part of two methods that asks for a pair: a parameter asks with the sides exchanged.
fn asking_part(left: &Method, right: &Method, s: &TypeRef, t: &TypeRef) -> Option<Part>
    requires few { length left.now.params ≤ 16 }
    ensures some { IfSome result (λ part. AsksBy (signature left.now) (signature right.now) part (s.now, t.now)) }
    ensures none { IfNone result ((part : Part) → AsksBy (signature left.now) (signature right.now) part (s.now, t.now) → ⊥) }
{
    if let Some(i) = asking_parameter(left.params.as_slice(), right.params.as_slice(), s, t) {
        return Some(Part::Parameter(i));
    }
    if are_results(left, right, s, t) {
        return Some(Part::Result);
    }
    None
}

/// The first part by which the left side's method of the same name asks for a pair.
fn asked_by(lefts: &[Method], right: &Method, s: &TypeRef, t: &TypeRef) -> Option<Part>
    requires few { (m : Signature TypeRef) → In m (map signature lefts.now) → length m.params ≤ 16 }
    ensures some { IfSome result (λ part. IsAskedOf (find_method right.now.name (map signature lefts.now)) (signature right.now) part (s.now, t.now)) }
    ensures none { IfNone result ((part : Part) → IsAskedOf (find_method right.now.name (map signature lefts.now)) (signature right.now) part (s.now, t.now) → ⊥) }
{
    match find(lefts, &right.name) {
        Some(left) => asking_part(left, right, s, t),
        None => None,
    }
}

/// The first step by which methods ask for a pair, in the order of the right side's methods, and
/// there in the order of the parameters before the result.
pub fn asking_step(
    lefts: &[Method],
    rights: &[Method],
    s: &TypeRef,
    t: &TypeRef,
) -> Result<Option<Step>, Memory>
    requires few { (m : Signature TypeRef) → In m (map signature lefts.now) → length m.params ≤ 16 }
    ensures some { IfOk result (λ o. IfSome o (IsAskedBy (map signature lefts.now) (map signature rights.now) (s.now, t.now))) }
    ensures none { IfOk result (λ o. IfNone o ((step : Step) → IsAskedBy (map signature lefts.now) (map signature rights.now) (s.now, t.now) step → ⊥)) }
{
    for right in rights {
        if let Some(part) = asked_by(lefts, right, s, t) {
            let method = right.name.copy()?;
            return Ok(Some(Step { method, part }));
        }
    }
    Ok(None)
}
