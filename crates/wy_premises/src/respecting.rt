//! Sets that are to respect the upper bounds of the members for which they stand (docs/LANGUAGE.md, "Upper bounds").

ghost use Rattle.std.specs.Prelude.{IfOk, IfSome, IfNone, [], slice_index_or};
ghost use Rattle.wy_effects.specs.EffSet.{replace};
ghost use Rattle.wy_text.specs.Members.{Within};
ghost use Rattle.wy_effects.specs.Bounds.{IsOneOf, IsUnder, IsWithin, Respects, IsLeastMissing};
ghost use Rattle.wy_types.specs.Program.{program_of};
ghost use Rattle.wy_types.specs.Bounds.{bounds_of};
ghost use Rattle.wy_types.specs.InRange.{IsInRange};
ghost use Rattle.wy_rules.specs.Failing.{FirstOutside};
ghost use Rattle.wy_premises.specs.Outside.{RespectsOne, OutsideOne};

use wy_effects::atom::Atom;
use wy_effects::set::EffSet;
use wy_text::text::Memory;
use wy_types::bounds::widened;
use wy_types::resolved::Core;

/// The least atom of an effect that another lacks.
pub fn least_missing(effect: &EffSet, declared: &EffSet) -> Result<Option<Atom>, Memory>
    ensures none { IfOk result (λ o. IfNone o (Within effect.now declared.now)) }
    ensures some { IfOk result (λ o. IfSome o (λ a. IsLeastMissing IsOneOf a.0 effect.now declared.now)) }
{
    effect.is_set();
    if declared.includes(effect) {
        return Ok(None);
    }
    let atoms = effect.without(declared)?.atoms()?;
    Ok(atoms.first().copied())
}

/// The least atom of a set that is not within the sets of a bound.
fn outside(
    core: &Core,
    scope: u16,
    sets: &[EffSet],
    set: &EffSet,
    bound: &EffSet,
) -> Result<Option<Atom>, Memory>
    requires core { IsInRange (program_of core.now) }
    ensures none { IfOk result (λ o. IfNone o (IsWithin (bounds_of (program_of core.now) scope) set.now (replace sets.now bound.now))) }
    ensures some { IfOk result (λ o. IfSome o (λ a. IsLeastMissing (IsUnder (bounds_of (program_of core.now) scope)) a.0 set.now (replace sets.now bound.now))) }
{
    let there = bound.substitute(sets)?;
    least_missing(set, &widened(core, scope, &there))
}

/// .. of the set of a member's number, where the member has a bound.
fn outside_at(
    core: &Core,
    scope: u16,
    sets: &[EffSet],
    member: usize,
    bound: &Option<EffSet>,
) -> Result<Option<Atom>, Memory>
    requires core { IsInRange (program_of core.now) }
    ensures none { IfOk result (λ o. IfNone o (RespectsOne (bounds_of (program_of core.now) scope) sets.now member bound.now)) }
    ensures some { IfOk result (λ o. IfSome o (λ a. OutsideOne (bounds_of (program_of core.now) scope) sets.now member bound.now a.0)) }
{
    match (bound, sets.get(member)) {
        (Some(bound), Some(set)) => outside(core, scope, sets, set, bound),
        (Some(_), None) | (None, _) => Ok(None),
    }
}

/// The least atom outside, at the first member whose set is not within the sets of its bound, over the bounds of a scope's
/// atoms; none where the sets respect the bounds (docs/LANGUAGE.md, "Upper bounds"). The one error is want of memory.
pub fn first_outside(
    core: &Core,
    scope: u16,
    bounds: &[Option<EffSet>],
    sets: &[EffSet],
) -> Result<Option<Atom>, Memory>
    requires core { IsInRange (program_of core.now) }
    ensures none { IfOk result (λ o. IfNone o (Respects bounds.now (bounds_of (program_of core.now) scope) sets.now)) }
    ensures some { IfOk result (λ o. IfSome o (λ a. FirstOutside bounds.now (bounds_of (program_of core.now) scope) sets.now a.0)) }
{
    for (member, bound) in bounds.iter().enumerate() {
        let missing = outside_at(core, scope, sets, member, bound)?;
        if missing.is_some() {
            return Ok(missing);
        }
    }
    Ok(None)
}
