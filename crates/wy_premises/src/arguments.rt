//! What the rules for lines ask that is no subtyping: the module's kind, as many arguments as it has parameters, the members
//! that its parameters open, and the bounds of these (docs/LANGUAGE.md, "Modules and lines").

ghost use Rattle.std.specs.Prelude.{◌≡◌, ◌↔◌, IfOk, true, length};
ghost use Rattle.wy_effects.specs.Bounds.{AreNone};
ghost use Rattle.wy_types.specs.Program.{program_of};
ghost use Rattle.wy_types.specs.InRange.{IsInRange};
ghost use Rattle.wy_rules.specs.Acceptance.{handed_to, IsOfKind, RespectsBounds};
ghost use Rattle.wy_rules.specs.Failing.{LacksInMember};
ghost use Rattle.wy_premises.specs.Tried.{handed_pair, OfEach, HasAll, HasOpened, OrFails, OrLacks, FirstLack, missing_atom, Agrees, Disagrees};

use crate::members::{
    add_argument_sets, argument_type, member_set, opened, opened_members, parameters_of,
};
use crate::respecting::first_outside;
use std::alloc::Global;
use wy_effects::atom::Atom;
use wy_effects::set::EffSet;
use wy_text::list::Items;
use wy_text::text::{Memory, Text};
use wy_types::resolved::{Core, OwnName, ScopeKind};
use wy_types::types::TypeRef;

// ----------------------------------------------------------------------------
// The module

/// Whether the scope of a number is of a kind.
pub fn is_of_kind(core: &Core, kind: ScopeKind, target: u16) -> bool
    ensures { (result ≡ true) ↔ IsOfKind (program_of core.now) kind target }
{
    match core.scopes.get(target as usize) {
        Some(scope) => scope.kind == kind,
        None => false,
    }
}

/// The first premise that is false of the two that M-Inst and M-Import have in common: the module's kind, and that there
/// are as many arguments as it has parameters.
pub fn disagreement(core: &Core, kind: ScopeKind, target: u16, arguments: &[u32]) -> Option<u8>
    ensures { OrFails (Agrees (program_of core.now) kind target arguments.now) (Disagrees (program_of core.now) kind target arguments.now) result }
{
    if !is_of_kind(core, kind, target) {
        return Some(1);
    }
    if arguments.len() != parameters_of(core, target).len() {
        return Some(2);
    }
    None
}

// ----------------------------------------------------------------------------
// Members

/// Whether a type has the members of these names.
fn has_all(core: &Core, typ: &TypeRef, members: &[Text]) -> Result<bool, Memory>
    ensures { IfOk result (λ b. (b ≡ true) ↔ HasAll (program_of core.now) typ.now members.now) }
{
    for member in members {
        if member_set(core, typ, member)?.is_none() {
            return Ok(false);
        }
    }
    Ok(true)
}

/// Whether the argument's type has the members that the parameter opens.
fn has_opened(
    alloc: Global,
    core: &Core,
    outer: &[OwnName],
    parameter: &OwnName,
    argument: u32,
) -> Result<bool, Memory>
    ensures { IfOk result (λ b. (b ≡ true) ↔ HasOpened (program_of core.now) outer.now (handed_pair parameter.now argument)) }
{
    let typ = argument_type(alloc, outer, argument)?;
    has_all(core, &typ, opened(core, parameter))
}

/// Whether each argument's type has the members that its parameter opens.
pub fn all_have_opened(
    alloc: Global,
    core: &Core,
    outer: &[OwnName],
    parameters: &[OwnName],
    arguments: &[u32],
) -> Result<bool, Memory>
    requires numbers { length arguments.now ≡ length parameters.now }
    ensures { IfOk result (λ b. (b ≡ true) ↔ OfEach (HasOpened (program_of core.now) outer.now) (handed_to parameters.now arguments.now)) }
{
    for (i, parameter) in parameters.iter().enumerate() {
        if !has_opened(alloc, core, outer, parameter, arguments[i])? {
            return Ok(false);
        }
    }
    Ok(true)
}

// ----------------------------------------------------------------------------
// Upper bounds of members

/// Whether no member has an upper bound.
fn are_none(bounds: &[Option<EffSet>]) -> bool
    ensures { (result ≡ true) ↔ AreNone bounds.now }
{
    for bound in bounds {
        if bound.is_some() {
            return false;
        }
    }
    true
}

/// The least atom of an argument's member that is not within the argument's members of its bound, at the first such member
/// that the parameter opens.
fn outside_member(
    alloc: Global,
    core: &Core,
    number: u16,
    outer: &[OwnName],
    parameter: &OwnName,
    argument: u32,
) -> Result<Option<Atom>, Memory>
    requires core { IsInRange (program_of core.now) }
    ensures { IfOk result (λ o. OrLacks (RespectsBounds (program_of core.now) number outer.now (handed_pair parameter.now argument)) (LacksInMember (program_of core.now) number outer.now (handed_pair parameter.now argument)) (missing_atom o)) }
{
    let bounds = opened_members(core, parameter);
    if are_none(bounds) {
        return Ok(None);
    }
    let mut sets = Items::new(alloc);
    add_argument_sets(alloc, core, outer, parameter, argument, &mut sets)?;
    first_outside(core, number, bounds, sets.as_slice())
}

/// .. of the first argument that has one.
pub fn first_outside_member(
    alloc: Global,
    core: &Core,
    number: u16,
    outer: &[OwnName],
    parameters: &[OwnName],
    arguments: &[u32],
) -> Result<Option<Atom>, Memory>
    requires core { IsInRange (program_of core.now) }
    requires numbers { length arguments.now ≡ length parameters.now }
    ensures { IfOk result (λ o. FirstLack (RespectsBounds (program_of core.now) number outer.now) (LacksInMember (program_of core.now) number outer.now) (handed_to parameters.now arguments.now) (missing_atom o)) }
{
    for (i, parameter) in parameters.iter().enumerate() {
        let missing = outside_member(alloc, core, number, outer, parameter, arguments[i])?;
        if missing.is_some() {
            return Ok(missing);
        }
    }
    Ok(None)
}
