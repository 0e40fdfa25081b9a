//! I-Import: whether the bound of an import is one for its arguments.

ghost use Rattle.std.specs.Prelude.{◌≡◌, ◌↔◌, IfOk, true, length};
ghost use Rattle.wy_types.specs.Program.{program_of, scope_of};
ghost use Rattle.wy_types.specs.Fitting.{FitsType};
ghost use Rattle.wy_rules.specs.Acceptance.{handed_to, IsPlainArgument, NumbersAgree, PlainHolds};
ghost use Rattle.wy_subtype.specs.declared.verdict.Mode.{Mode};
ghost use Rattle.wy_judge.specs.Tables.{IsScopeOf};
ghost use Rattle.wy_judge.specs.Targets.{about_in};
ghost use Rattle.wy_premises.specs.Tried.{handed_pair, OfEach, AreWritten, OrLacks, FirstLack, missing_atom};
ghost use Rattle.wy_link.specs.Tried.{Bounded, Exceeds, Safe, Unsafe, BoundComesTo};

use crate::misfit::Misfit;
use std::alloc::Global;
use wy_bounds::{Safety, effects, ho_safe};
use wy_effects::atom::Atom;
use wy_effects::set::EffSet;
use wy_premises::{argument_type, least_missing, parameters_of};
use wy_subtype::PairTable;
use wy_text::text::Memory;
use wy_types::bounds::widened;
use wy_types::reading::erase;
use wy_types::resolved::{Core, OwnName, Scope};

// ----------------------------------------------------------------------------
// Effects

/// The least effect of an argument's type that is not within the bound.
fn excess(
    alloc: Global,
    core: &Core,
    number: u16,
    scope: &Scope,
    bound: &EffSet,
    argument: u32,
) -> Result<Option<Atom>, Memory>
    requires context { IsScopeOf (program_of core.now) number (scope_of scope.now) }
    ensures { IfOk result (λ o. OrLacks (Bounded (program_of core.now) number scope.now.names bound.now argument) (Exceeds (program_of core.now) number scope.now.names bound.now argument) (missing_atom o)) }
{
    let typ = argument_type(alloc, scope.names.as_slice(), argument)?;
    let found = effects(alloc, core, number, &typ)?;
    let wide = widened(core, number, bound);
    least_missing(&found, &wide)
}

/// .. of the first argument that has one.
fn first_excess(
    alloc: Global,
    core: &Core,
    number: u16,
    scope: &Scope,
    bound: &EffSet,
    arguments: &[u32],
) -> Result<Option<Atom>, Memory>
    requires context { IsScopeOf (program_of core.now) number (scope_of scope.now) }
    ensures { IfOk result (λ o. FirstLack (Bounded (program_of core.now) number scope.now.names bound.now) (Exceeds (program_of core.now) number scope.now.names bound.now) arguments.now (missing_atom o)) }
{
    for argument in arguments {
        let missing = excess(alloc, core, number, scope, bound, *argument)?;
        if missing.is_some() {
            return Ok(missing);
        }
    }
    Ok(None)
}

/// The least atom of the bound that a method lacks which an argument's type reaches negatively.
fn unsafety(
    alloc: Global,
    core: &Core,
    number: u16,
    scope: &Scope,
    bound: &EffSet,
    argument: u32,
) -> Result<Option<Atom>, Memory>
    requires context { IsScopeOf (program_of core.now) number (scope_of scope.now) }
    ensures { IfOk result (λ o. OrLacks (Safe (program_of core.now) number scope.now.names bound.now argument) (Unsafe (program_of core.now) number scope.now.names bound.now argument) (missing_atom o)) }
{
    let typ = argument_type(alloc, scope.names.as_slice(), argument)?;
    match ho_safe(alloc, core, number, &typ, bound)? {
        Safety::Yes => Ok(None),
        Safety::No { path: _, atom } => Ok(Some(atom)),
    }
}

/// .. of the first argument that has one.
fn first_unsafety(
    alloc: Global,
    core: &Core,
    number: u16,
    scope: &Scope,
    bound: &EffSet,
    arguments: &[u32],
) -> Result<Option<Atom>, Memory>
    requires context { IsScopeOf (program_of core.now) number (scope_of scope.now) }
    ensures { IfOk result (λ o. FirstLack (Safe (program_of core.now) number scope.now.names bound.now) (Unsafe (program_of core.now) number scope.now.names bound.now) arguments.now (missing_atom o)) }
{
    for argument in arguments {
        let missing = unsafety(alloc, core, number, scope, bound, *argument)?;
        if missing.is_some() {
            return Ok(missing);
        }
    }
    Ok(None)
}

// ----------------------------------------------------------------------------
// Types

/// Whether the argument's type is a subtype of the parameter's without effects.
fn is_plain_argument(
    alloc: Global,
    scope: &Scope,
    pairs: &mut PairTable<'_>,
    parameter: &OwnName,
    argument: u32,
) -> Result<bool, Memory>
    requires context { IsScopeOf pairs.old.about.program pairs.old.about.scope (scope_of scope.now) }
    requires mode { pairs.old.about.mode ≡ Mode.Plain }
    requires written { FitsType pairs.old.about.program 512 0 parameter.now.typ }
    ensures outcome { IfOk result (λ b. (b ≡ true) ↔ IsPlainArgument pairs.old.about.program pairs.old.about.scope scope.now.names (handed_pair parameter.now argument)) }
    ensures same { pairs.new.about ≡ pairs.old.about }
{
    let typ = argument_type(alloc, scope.names.as_slice(), argument)?;
    let left = erase(alloc, &typ)?;
    let right = erase(alloc, &parameter.typ)?;
    pairs.holds(&left, &right)
}

/// Whether each argument's type is a subtype of its parameter's without effects.
fn all_are_plain(
    alloc: Global,
    scope: &Scope,
    pairs: &mut PairTable<'_>,
    parameters: &[OwnName],
    arguments: &[u32],
) -> Result<bool, Memory>
    requires context { IsScopeOf pairs.old.about.program pairs.old.about.scope (scope_of scope.now) }
    requires mode { pairs.old.about.mode ≡ Mode.Plain }
    requires written { AreWritten pairs.old.about.program parameters.now }
    requires numbers { length arguments.now ≡ length parameters.now }
    ensures outcome { IfOk result (λ b. (b ≡ true) ↔ OfEach (IsPlainArgument pairs.old.about.program pairs.old.about.scope scope.now.names) (handed_to parameters.now arguments.now)) }
    ensures same { pairs.new.about ≡ pairs.old.about }
{
    for (i, parameter) in parameters.iter().enumerate() {
        if !is_plain_argument(alloc, scope, pairs, parameter, arguments[i])? {
            return Ok(false);
        }
    }
    Ok(true)
}

/// The first premise of I-Import that is false, of a plain module that has a derivation; each is tried for all arguments
/// before the next one.
pub fn bound_misfit(
    alloc: Global,
    core: &Core,
    number: u16,
    scope: &Scope,
    pairs: &mut PairTable<'_>,
    target: u16,
    arguments: &[u32],
    bound: &EffSet,
) -> Result<Option<Misfit>, Memory>
    requires context { IsScopeOf (program_of core.now) number (scope_of scope.now) }
    requires pairs { pairs.old.about ≡ about_in (program_of core.now) number Mode.Plain }
    requires numbers { NumbersAgree (program_of core.now) number scope.now.names target arguments.now }
    requires holds { PlainHolds (program_of core.now) number scope.now.names target }
    ensures outcome { IfOk result (λ o. BoundComesTo (program_of core.now) number scope.now.names target arguments.now bound.now o) }
    ensures same { pairs.new.about ≡ pairs.old.about }
{
    let above = first_excess(alloc, core, number, scope, bound, arguments)?;
    if above.is_some() {
        return Ok(Some(Misfit {
            premise: 1,
            missing: above,
        }));
    }
    let below = first_unsafety(alloc, core, number, scope, bound, arguments)?;
    if below.is_some() {
        return Ok(Some(Misfit {
            premise: 2,
            missing: below,
        }));
    }
    let parameters = parameters_of(core, target);
    if !all_are_plain(alloc, scope, pairs, parameters, arguments)? {
        return Ok(Some(Misfit {
            premise: 3,
            missing: None,
        }));
    }
    Ok(None)
}
