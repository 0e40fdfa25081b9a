//! The test of one pair of types by itself.

ghost use Rattle.std.specs.Prelude.{◌≡◌, ◌≤◌, ◌+◌, ◌++◌, ◌∷◌, [], Some, IfOk, OnOk, OnErr, IfSome, IfNone, map, length};
ghost use Rattle.std.specs.Option.{option_copied, option_map};
ghost use Rattle.wy_text.specs.Members.{In, Within};
ghost use Rattle.wy_effects.specs.Bounds.{IsOneOf, IsLeastMissing};
ghost use Rattle.wy_types.specs.Program.{program_of};
ghost use Rattle.wy_types.specs.Types.{signature};
ghost use Rattle.wy_types.specs.Signature.{find_method};
ghost use Rattle.wy_types.specs.InRange.{IsInRange};
ghost use Rattle.wy_subtype.specs.Steps.{Allows};
ghost use Rattle.wy_subtype.specs.Unfolding.{param_pairs, method_pairs, found_pairs, LacksAtom, CauseOf, FaultOf, IsMet, AreMet, IsUnfolded};

use crate::steps::Steps;
use crate::verdict::{Cause, Mode};
use std::alloc::Global;
use std::sync::ledger::Ledger;
use wy_effects::atom::Atom;
use wy_effects::set::EffSet;
use wy_text::list::Items;
use wy_text::text::{Memory, Text};
use wy_types::bounds::widened;
use wy_types::methods::methods;
use wy_types::path::{Part, Step};
use wy_types::resolved::Core;
use wy_types::types::{Method, TypeRef};

/// A pair that another asks for, one step away.
#[derive(Drop)]
pub struct UnfoldedPair {
    pub step: Step,
    pub left: TypeRef,
    pub right: TypeRef,
}

/// The pairs that another asks for, in the order of the right side's methods.
pub type PairList = Items<UnfoldedPair>;

/// What a pair's own test says.
#[derive(Drop)]
pub enum Unfolding {
    /// The pair is closed by these.
    Closed(PairList),
    /// The pair fails by itself.
    Fails(Cause),
}

/// The first method of a name.
pub(crate) fn find<'a>(methods: &'a [Method], name: &Text) -> Option<&'a Method>
    ensures { option_map signature (option_copied result) ≡ find_method name.now (map signature methods.now) }
{
    for m in methods {
        if m.name == *name {
            return Some(m);
        }
    }
    None
}

/// The least atom of the left effect that the right one lacks.
fn lacking(left: &EffSet, right: &EffSet) -> Result<Option<Atom>, Memory>
    ensures none { IfOk result (λ o. IfNone o (Within left.now right.now)) }
    ensures some { IfOk result (λ o. IfSome o (λ a. IsLeastMissing IsOneOf a.0 left.now right.now)) }
{
    left.is_set();
    if right.includes(left) {
        return Ok(None);
    }
    let atoms = left.without(right)?.atoms()?;
    Ok(atoms.first().copied())
}

/// How effects are compared: in a mode, over the bounds of a scope's atoms.
#[derive(Drop)]
struct Order<'a> {
    core: &'a Core,
    scope: u16,
    mode: Mode,
}

/// The least atom of the left effect that is not within the right one.
fn effect_fault(left: &EffSet, right: &EffSet, order: &Order) -> Result<Option<Atom>, Memory>
    requires core { IsInRange (program_of order.now.core.now) }
    ensures none { IfOk result (λ o. IfNone o (Allows (program_of order.now.core.now) order.now.scope order.now.mode left.now right.now)) }
    ensures some { IfOk result (λ o. IfSome o (λ a. LacksAtom (program_of order.now.core.now) order.now.scope order.now.mode a.0 left.now right.now)) }
{
    match order.mode {
        Mode::Plain => Ok(None),
        Mode::Annotated => lacking(left, &widened(order.core, order.scope, right)),
    }
}

/// What is at fault with the left side's method, but for the pairs that it then asks for.
fn method_fault(left: &Method, right: &Method, order: &Order) -> Result<Option<Cause>, Memory>
    requires core { IsInRange (program_of order.now.core.now) }
    ensures none { IfOk result (λ o. IfNone o ((length left.now.params ≡ length right.now.params) × Allows (program_of order.now.core.now) order.now.scope order.now.mode left.now.effect right.now.effect)) }
    ensures some { IfOk result (λ o. IfSome o (λ c. CauseOf (program_of order.now.core.now) order.now.scope order.now.mode (signature left.now) (signature right.now) c)) }
{
    if left.params.len() != right.params.len() {
        return Ok(Some(Cause::Arity(right.name.copy()?)));
    }
    match effect_fault(&left.effect, &right.effect, order)? {
        Some(atom) => Ok(Some(Cause::Effect {
            method: right.name.copy()?,
            atom,
        })),
        None => Ok(None),
    }
}

/// The pair that is asked for by a part of a method.
fn asked_pair(
    alloc: Global,
    method: &Text,
    part: Part,
    left: &TypeRef,
    right: &TypeRef,
) -> Result<UnfoldedPair, Memory>
    ensures { IfOk result (λ p. p ≡ record { step = record { method = method.now; part = part }; left = left.now; right = right.now }) }
{
    let left = left.copy(alloc)?;
    let right = right.copy(alloc)?;
    Ok(UnfoldedPair {
        step: Step {
            method: method.copy()?,
            part,
        },
        left,
        right,
    })
}

/// Adds the pair that is asked for by a part of a method.
fn add_pair(
    alloc: Global,
    into: &mut PairList,
    method: &Text,
    part: Part,
    left: &TypeRef,
    right: &TypeRef,
) -> Result<(), Memory>
    ensures { OnOk result (into.new ≡ into.old ++ record { step = record { method = method.now; part = part }; left = left.now; right = right.now } ∷ []) }
{
    into.push(asked_pair(alloc, method, part, left, right)?)
}

/// Adds the pairs of two methods' parameters, with their sides exchanged.
fn add_parameters(
    alloc: Global,
    into: &mut PairList,
    name: &Text,
    left: &[TypeRef],
    right: &[TypeRef],
) -> Result<(), Memory>
    requires same { length left.now ≡ length right.now }
    requires few { length left.now ≤ 16 }
    ensures { OnOk result (into.new ≡ into.old ++ param_pairs name.now 0 left.now right.now) }
{
    for (i, a) in left.iter().enumerate() {
        add_pair(alloc, into, name, Part::Parameter(i as u16), &right[i], a)?;
    }
    Ok(())
}

/// Adds the pairs that two methods ask for.
fn add_pairs(
    alloc: Global,
    into: &mut PairList,
    left: &Method,
    right: &Method,
) -> Result<(), Memory>
    requires same { length left.now.params ≡ length right.now.params }
    requires few { length right.now.params ≤ 16 }
    ensures { OnOk result (into.new ≡ into.old ++ method_pairs (signature left.now) (signature right.now)) }
{
    add_parameters(
        alloc,
        into,
        &right.name,
        left.params.as_slice(),
        right.params.as_slice(),
    )?;
    add_pair(
        alloc,
        into,
        &right.name,
        Part::Result,
        &left.result,
        &right.result,
    )
}

/// Tests a method of the right side with the left side's of its name, and adds the pairs that it asks for.
fn meet_found(
    alloc: Global,
    into: &mut PairList,
    left: &Method,
    right: &Method,
    order: &Order,
) -> Result<Option<Cause>, Memory>
    requires core { IsInRange (program_of order.now.core.now) }
    requires few { length right.now.params ≤ 16 }
    ensures met { IfOk result (λ o. IfNone o (IsMet (program_of order.now.core.now) order.now.scope order.now.mode (Some (signature left.now)) (signature right.now))) }
    ensures added { IfOk result (λ o. IfNone o (into.new ≡ into.old ++ method_pairs (signature left.now) (signature right.now))) }
    ensures fault { IfOk result (λ o. IfSome o (λ c. CauseOf (program_of order.now.core.now) order.now.scope order.now.mode (signature left.now) (signature right.now) c)) }
{
    if let Some(cause) = method_fault(left, right, order)? {
        return Ok(Some(cause));
    }
    add_pairs(alloc, into, left, right)?;
    Ok(None)
}

/// Tests one method of the right side, and adds the pairs that it asks for.
fn meet(
    alloc: Global,
    into: &mut PairList,
    lefts: &[Method],
    right: &Method,
    order: &Order,
) -> Result<Option<Cause>, Memory>
    requires core { IsInRange (program_of order.now.core.now) }
    requires few { length right.now.params ≤ 16 }
    ensures met { IfOk result (λ o. IfNone o (IsMet (program_of order.now.core.now) order.now.scope order.now.mode (find_method right.now.name (map signature lefts.now)) (signature right.now))) }
    ensures added { IfOk result (λ o. IfNone o (into.new ≡ into.old ++ found_pairs (find_method right.now.name (map signature lefts.now)) (signature right.now))) }
    ensures fault { IfOk result (λ o. IfSome o (λ c. FaultOf (program_of order.now.core.now) order.now.scope order.now.mode (find_method right.now.name (map signature lefts.now)) (signature right.now) c)) }
{
    match find(lefts, &right.name) {
        None => Ok(Some(Cause::MissingMethod(right.name.copy()?))),
        Some(left) => meet_found(alloc, into, left, right, order),
    }
}

/// Tests all methods of the right side.
fn meet_all(
    alloc: Global,
    lefts: &[Method],
    rights: &[Method],
    order: &Order,
) -> Result<Unfolding, Memory>
    requires core { IsInRange (program_of order.now.core.now) }
    requires few { (m : Method) → In m rights.now → length m.params ≤ 16 }
    ensures { IfOk result (λ u. AreMet (program_of order.now.core.now) order.now.scope order.now.mode (map signature lefts.now) (map signature rights.now) u) }
{
    let mut asked = Items::new(alloc);
    for right in rights {
        if let Some(cause) = meet(alloc, &mut asked, lefts, right, order)? {
            return Ok(Unfolding::Fails(cause));
        }
    }
    Ok(Unfolding::Closed(asked))
}

/// What the test of one pair by itself says.
pub(crate) fn test_pair(
    alloc: Global,
    core: &Core,
    scope: u16,
    left: &TypeRef,
    right: &TypeRef,
    mode: Mode,
) -> Result<Unfolding, Memory>
    requires core { IsInRange (program_of core.now) }
    ensures { IfOk result (λ u. IsUnfolded (program_of core.now) scope mode (left.now, right.now) u) }
{
    if !left.is_object() {
        if left.same(right) {
            return Ok(Unfolding::Closed(Items::new(alloc)));
        }
        return Ok(Unfolding::Fails(Cause::Base));
    }
    if !right.is_object() {
        return Ok(Unfolding::Fails(Cause::Base));
    }
    let lefts = methods(alloc, core, scope, left)?;
    let rights = methods(alloc, core, scope, right)?;
    let order = Order { core, scope, mode };
    meet_all(alloc, lefts.as_slice(), rights.as_slice(), &order)
}

/// The test of one pair by itself, in a mode: the cause by which it fails, or the pairs that it
/// asks for, those of parameters with their sides exchanged (docs/LANGUAGE.md, "Subtyping"). It is
/// one step, or none where memory is wanting.
pub fn unfold<L: Ledger>(
    alloc: Global,
    core: &Core,
    scope: u16,
    left: &TypeRef,
    right: &TypeRef,
    mode: Mode,
    steps: &mut Steps<L>,
) -> Result<Unfolding, Memory>
    requires core { IsInRange (program_of core.now) }
    ensures unfolded { IfOk result (λ u. IsUnfolded (program_of core.now) scope mode (left.now, right.now) u) }
    ensures step { OnOk result (steps.new ≡ steps.old + 1) }
    ensures none { OnErr result (steps.new ≡ steps.old) }
{
    let unfolding = test_pair(alloc, core, scope, left, right, mode)?;
    steps.tick();
    Ok(unfolding)
}
