//! What is said of scopes, before it is written by numbers.

ghost use Rattle.std.specs.Prelude.{◌≡◌, ◌<◌, IfOk, Some, length, map, slice_get};
ghost use Rattle.wy_types.specs.Program.{Scope as ProgramScope, program_of, scope_of};
ghost use Rattle.wy_types.specs.Core.{IsCore};
ghost use Rattle.wy_rules.specs.Acceptance.{Accepted};
ghost use Rattle.wy_certify.specs.Asking.{asks_in};
ghost use Rattle.wy_certify.specs.Closed.{AllHold, IsClosedList};
ghost use Rattle.wy_certify.specs.Pair.{pair_of};
ghost use Rattle.wy_certify.specs.Parts.{IsFound, AreFoundParts};
ghost use Rattle.wy_certify.specs.Step.{steps_of};

use crate::asking::asked_pairs;
use crate::canonical::canonical_steps;
use crate::closing::closed_list;
use crate::pair::TypePair;
use crate::settling::found_types;
use crate::step::Step;
use std::alloc::Global;
use wy_subtype::Mode;
use wy_text::list::Items;
use wy_text::text::Memory;
use wy_types::resolved::{Core, Scope};
use wy_types::types::TypeList;

/// What is said of a scope.
#[derive(Drop)]
pub struct ScopePart {
    pub pairs: Items<TypePair>,
    /// Pairs for plain comparison.
    pub bares: Items<TypePair>,
    /// The types of its `val`s.
    pub vals: TypeList,
    /// The steps of its derivation.
    pub steps: Items<Step>,
}

/// The pairs that steps and the rules for this scope of a number ask by one kind of subtyping, with all that they ask.
fn closed_pairs(
    alloc: Global,
    core: &Core,
    number: u16,
    scope: &Scope,
    mode: Mode,
    steps: &[Step],
) -> Result<Items<TypePair>, Memory>
    requires core { IsCore (program_of core.now) }
    requires hold { AllHold (program_of core.now) number mode (asks_in mode (program_of core.now) number (scope_of scope.now) (steps_of steps.now)) }
    ensures { IfOk result (λ l. (s : ProgramScope) → slice_get (program_of core.now).scopes number ≡ Some s → IsClosedList (program_of core.now) number s mode (asks_in mode (program_of core.now) number (scope_of scope.now) (steps_of steps.now)) (map pair_of l)) }
{
    let asked = asked_pairs(alloc, core, scope, mode, steps)?;
    closed_list(alloc, core, number, mode, asked.as_slice())
}

/// Of the scope of a number: the steps of its canonical derivation, and the pairs that these and its rules ask.
fn found_part(alloc: Global, core: &Core, number: u16) -> Result<ScopePart, Memory>
    requires core { IsCore (program_of core.now) }
    requires accepted { Accepted (program_of core.now) }
    requires there { number < length core.now.scopes }
    ensures { IfOk result (λ part. (s : ProgramScope) → slice_get (program_of core.now).scopes number ≡ Some s → IsFound (program_of core.now) number s part) }
{
    let scope = &core.scopes.as_slice()[number as usize];
    let vals = found_types(alloc, core, number)?;
    let steps = canonical_steps(alloc, core, number, vals.as_slice())?;
    let pairs = closed_pairs(
        alloc,
        core,
        number,
        scope,
        Mode::Annotated,
        steps.as_slice(),
    )?;
    let bares = closed_pairs(alloc, core, number, scope, Mode::Plain, steps.as_slice())?;
    Ok(ScopePart {
        pairs,
        bares,
        vals,
        steps,
    })
}

/// .. of each scope, in the order of the scopes.
pub fn found_parts(alloc: Global, core: &Core) -> Result<Items<ScopePart>, Memory>
    requires core { IsCore (program_of core.now) }
    requires accepted { Accepted (program_of core.now) }
    ensures { IfOk result (AreFoundParts (program_of core.now)) }
{
    let mut parts = Items::new(alloc);
    for number in 0..core.scopes.len() {
        parts.push(found_part(alloc, core, number as u16)?)?;
    }
    Ok(parts)
}
