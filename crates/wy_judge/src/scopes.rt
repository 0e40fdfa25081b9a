//! Judging a scope: what a pure module may not have, its start, its bodies in their order, and its seal.

ghost use Rattle.std.specs.Prelude.{◌≡◌, ◌<◌, [], IfOk, None, Some, length};
ghost use Rattle.wy_text.specs.Members.{In};
ghost use Rattle.wy_types.specs.Program.{program_of, scope_of, body_of};
ghost use Rattle.wy_rules.specs.Resolved.{CoreKeeps};
ghost use Rattle.wy_judge.specs.Lacks.{IsBodyFaultOf};
ghost use Rattle.wy_judge.specs.Results.{IfPassed, fit_of};
ghost use Rattle.wy_judge.specs.Tables.{BlockReady};
ghost use Rattle.wy_judge.specs.Walk.{IsWalk, Asks, Here};
ghost use Rattle.wy_judge.specs.Walking.{Walked, StartsTo, BodyTo, BodiesTo, settled, settled_types, IsSealFault, IsMembersFault, judged_of, IsStopped, IsJudged, IsJudgedAt};

use crate::faults::{body_fault, lack_fault, pure_fault};
use crate::outcomes::{Fit, Stop, fails, stop_at};
use crate::targets::mode_of;
use crate::walk::{Known, Walk};
use std::alloc::Global;
use wy_effects::set::{EffSet, copy_sets};
use wy_premises::{field_types, first_outside};
use wy_subtype::{Mode, PairTable};
use wy_text::fault::{Fault, Place, RuleName};
use wy_text::list::Items;
use wy_text::text::Memory;
use wy_types::bounds::{declared_bounds, widened};
use wy_types::resolved::{Body, Core, Start};
use wy_types::types::{TypeList, TypeRef};

/// What judging a scope comes to.
#[derive(Drop)]
pub enum Judged {
    /// No node fails. The types of its `val`s, one for each, by their numbers.
    Passes(TypeList),
    /// The first failing node.
    Fails(Fault),
}

impl<'a> Walk<'a> {
    /// A body whose block came to this at the result's type, and the start of a scope in the same way.
    fn judge_fit(&self, place: Place, declared: &EffSet, block: Fit) -> Result<(), Stop>
        requires walk { IsWalk self.now }
        ensures { IfPassed result (λ o. Here self.now IsBodyFaultOf place declared.now (fit_of block) o) }
    {
        let wide = widened(self.core, self.number, declared);
        let mode = mode_of(self.scope);
        let fault = body_fault(mode, place, &self.scope.atoms, &wide, block)?;
        stop_at(fault)
    }

    /// The start of a scope.
    fn judge_start(&self, known: &mut Known<'_>) -> Result<(), Stop>
        requires walk { IsWalk self.now }
        requires asks { Asks self.now known.old.pairs.about }
        requires owner { self.now.owner ≡ None }
        requires empty { known.old.vals.items ≡ [] }
        ensures outcome { IfPassed result (λ o. Here self.now StartsTo [] known.new.vals.items o) }
        ensures asks { Asks self.now known.new.pairs.about }
    {
        let scope = self.scope;
        match &scope.start {
            Start::Init(values) => {
                let types = field_types(self.alloc, scope, 0)?;
                let initialisers = self.fit_all(known, values, types.as_slice())?;
                self.judge_fit(
                    scope.start_place,
                    &scope.start_effect,
                    initialisers.as_fit(),
                )
            }
            Start::Run(block) => {
                let at_unit = self.fit_block(known, block, &TypeRef::Unit)?;
                self.judge_fit(scope.start_place, &scope.start_effect, at_unit)
            }
        }
    }

    /// A body of a scope.
    fn judge_body(&self, known: &mut Known<'_>, body: &Body) -> Result<(), Stop>
        requires walk { IsWalk self.now }
        requires asks { Asks self.now known.old.pairs.about }
        requires in_scope { In (body_of body.now) (scope_of self.now.scope.now).bodies }
        requires ready { Here self.now BlockReady (Some body.now.owner) known.old.vals.items (body_of body.now).block }
        ensures outcome { IfPassed result (λ o. Here self.now BodyTo known.old.vals.items known.new.vals.items (body_of body.now) o) }
        ensures asks { Asks self.now known.new.pairs.about }
    {
        let walk = Walk {
            owner: Some(body.owner),
            ..*self
        };
        let block = walk.fit_block(known, &body.block, &body.signature.result)?;
        self.judge_fit(body.place, &body.signature.effect, block)
    }

    /// The bodies of a scope, in their order.
    fn judge_bodies(&self, known: &mut Known<'_>) -> Result<(), Stop>
        requires walk { IsWalk self.now }
        requires asks { Asks self.now known.old.pairs.about }
        requires walked { Here self.now Walked known.old.vals.items 0 }
        ensures outcome { IfPassed result (λ o. Here self.now BodiesTo known.old.vals.items known.new.vals.items o) }
        ensures asks { Asks self.now known.new.pairs.about }
    {
        let bodies = self.scope.bodies.as_slice();
        for i in 0..bodies.len() {
            self.judge_body(known, &bodies[i])?;
        }
        Ok(())
    }

    /// M-Ascribe, premise 2: whether what an annotated module defines for the members of the type that it is sealed at
    /// respects their bounds.
    fn judge_members(&self, decl: u16) -> Result<(), Stop>
        requires walk { IsWalk self.now }
        requires sealed { self.now.scope.now.ascribed ≡ Some decl }
        ensures { IfPassed result (λ o. Here self.now IsMembersFault o) }
    {
        match mode_of(self.scope) {
            Mode::Plain => Ok(()),
            Mode::Annotated => {
                let scope = self.scope;
                let bounds = declared_bounds(self.core, decl);
                let definitions = scope.definitions.as_slice();
                let missing = first_outside(self.core, self.number, bounds, definitions)?;
                let fault = lack_fault(scope.place, RuleName::MAscribe, &scope.atoms, missing)?;
                stop_at(fault)
            }
        }
    }

    /// M-Ascribe: whether the module's own type is a subtype of the type that it is sealed at, with what it defines, and
    /// whether that respects the bounds of the type's members.
    fn judge_seal(&self, pairs: &mut PairTable<'_>) -> Result<(), Stop>
        requires walk { IsWalk self.now }
        requires asks { Asks self.now pairs.old.about }
        ensures { IfPassed result (λ o. Here self.now IsSealFault o) }
    {
        let Some(decl) = self.scope.ascribed else {
            return Ok(());
        };
        let own = TypeRef::Own { literal: 0 };
        let sealed = TypeRef::Named {
            decl,
            members: copy_sets(self.alloc, self.scope.definitions.as_slice())?,
        };
        let below = pairs.holds(&own, &sealed)?;
        if !below {
            return Err(fails(self.scope.place, RuleName::MAscribe, 1));
        }
        self.judge_members(decl)
    }

    /// A scope as a whole, but for its lines.
    fn judge(&self, known: &mut Known<'_>) -> Result<(), Stop>
        requires walk { IsWalk self.now }
        requires asks { Asks self.now known.old.pairs.about }
        requires owner { self.now.owner ≡ None }
        requires empty { known.old.vals.items ≡ [] }
        ensures { IfPassed result (λ o. Here self.now IsJudged (judged_of known.new.vals.items o)) }
    {
        stop_at(pure_fault(self.scope))?;
        self.judge_start(known)?;
        self.judge_bodies(known)?;
        self.judge_seal(&mut known.pairs)
    }

    /// What the scope comes to, with the types that its walk finds.
    fn judged(&self, known: &mut Known<'_>) -> Result<Judged, Memory>
        requires walk { IsWalk self.now }
        requires asks { Asks self.now known.old.pairs.about }
        requires owner { self.now.owner ≡ None }
        requires empty { known.old.vals.items ≡ [] }
        ensures { IfOk result (λ j. Here self.now IsJudged j) }
    {
        match self.judge(known) {
            Ok(()) => {
                let types = settled_types(self.alloc, known.vals.as_slice())?;
                Ok(Judged::Passes(types))
            }
            Err(stop) => stopped(stop),
        }
    }
}

/// The type of a `val`; one that is not known has none that matters.
fn settled(alloc: Global, known: &Option<TypeRef>) -> Result<TypeRef, Memory>
    ensures { IfOk result (λ t. t ≡ settled known.now) }
{
    match known {
        Some(typ) => typ.copy(alloc),
        None => Ok(TypeRef::Unit),
    }
}

/// The types of all `val`s.
fn settled_types(alloc: Global, table: &[Option<TypeRef>]) -> Result<TypeList, Memory>
    ensures { IfOk result (λ ts. ts ≡ settled_types table.now) }
{
    let mut types = Items::new(alloc);
    for known in table {
        types.push(settled(alloc, known)?)?;
    }
    Ok(types)
}

/// What a scope comes to, judging which stopped.
fn stopped(stop: Stop) -> Result<Judged, Memory>
    ensures { IfOk result (λ j. IsStopped stop j) }
{
    match stop {
        Stop::Fails(fault) => Ok(Judged::Fails(fault)),
        Stop::Memory => Err(Memory),
    }
}

/// Judges the scope of a number: a module, or the program's own block, but for its instance and import lines. `Fails` comes
/// exactly where some node of it has no derivation, and carries the first such node, the first of its premises that is
/// false at its least types, and for an effect the least missing atom. The one error is want of memory
/// (docs/LANGUAGE.md, "First failing node").
pub fn judge_scope(alloc: Global, core: &Core, number: u16) -> Result<Judged, Memory>
    requires keeps { CoreKeeps (program_of core.now) }
    requires there { number < length core.now.scopes }
    ensures { IfOk result (λ j. IsJudgedAt (program_of core.now) number j) }
{
    let scope = &core.scopes.as_slice()[number as usize];
    let walk = Walk {
        alloc,
        core,
        number,
        scope,
        owner: None,
    };
    let mut known = Known {
        pairs: PairTable::new(alloc, core, number, mode_of(scope)),
        vals: Vec::new(alloc),
    };
    walk.judged(&mut known)
}
