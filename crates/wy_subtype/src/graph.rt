//! Pairs of types, what each of them asks for, and how a question is answered by them.

ghost use Rattle.std.specs.Prelude.{◌≡◌, ◌<◌, [], IfOk, OnOk, IfSome, IfNone, Some, length, map, slice_get};
ghost use Rattle.wy_text.specs.Members.{In as IsIn};
ghost use Rattle.wy_types.specs.Program.{program_of};
ghost use Rattle.wy_types.specs.InRange.{IsInRange};
ghost use Rattle.wy_types.specs.Fitting.{IsTypeOf};
ghost use Rattle.wy_subtype.specs.Verdict.{IsVerdict, IsSubtypeIn};
ghost use Rattle.wy_subtype.specs.Steps.{Pair, StepsTo};
ghost use Rattle.wy_subtype.specs.Nodes.{IsOpen, IsOutcome, HasStep, Continues, pair_at};
ghost use Rattle.wy_subtype.specs.Work.{GoesOn};
ghost use Rattle.wy_subtype.specs.Decided.{Grows};
ghost use Rattle.wy_subtype.specs.Graph.{about_of, pairs_in, decided_of, mets_in, IsGraph, IsWider, AreNumbers};
ghost use Rattle.wy_subtype.specs.Worklist.{Met, IsSeen, MetFails, Advances, BeginsWith};

use crate::asked::asking_step;
use crate::entry::entry_at;
use crate::node::{Node, Outcome};
use crate::nodes::Nodes;
use crate::paths::path_to;
use crate::steps::Steps;
use crate::unfolding::{Unfolding, test_pair};
use crate::verdict::{Cause, Mode, Verdict};
use crate::work::Work;
use std::alloc::Global;
use std::sync::ledger::Ledger;
use wy_text::text::Memory;
use wy_types::methods::methods;
use wy_types::path::Step;
use wy_types::resolved::Core;
use wy_types::types::TypeRef;

/// The pairs that were met in a core, a scope and a mode, and the numbers of those that were
/// unfolded, in the order in which they were.
#[derive(Drop)]
pub struct Graph<'a> {
    pub alloc: Global,
    pub core: &'a Core,
    pub scope: u16,
    pub mode: Mode,
    pub nodes: Nodes,
    pub unfolded: Vec<usize>,
}

/// Goes on from the pair at a place of a list by what is known of it: the cause by which it fails, or
/// `None` once the pairs that it asks for are in the list.
fn go_on(node: &Node, work: &mut Work, at: usize) -> Result<Option<Cause>, Memory>
    requires { IsOpen node.now.outcome → ⊥ }
    ensures { IfOk result (GoesOn node.now.outcome at work.old work.new) }
{
    match &node.outcome {
        Outcome::Open => unreachable!(),
        Outcome::Fails(cause) => Ok(Some(cause.copy()?)),
        Outcome::Asks(numbers) => {
            work.add_all(numbers.as_slice(), at)?;
            Ok(None)
        }
        Outcome::Holds => Ok(None),
    }
}

impl<'a> Graph<'a> {
    /// What the own test of the pair of a number says, with the pairs that it asks for among those that
    /// were met.
    fn test(&mut self, number: usize) -> Result<Outcome, Memory>
        requires core { IsInRange (program_of self.old.core.now) }
        requires within { number < length self.old.nodes }
        ensures wider { IsWider self.old self.new }
        ensures unfolded { self.new.unfolded ≡ self.old.unfolded }
        ensures outcome { IfOk result (IsOutcome (about_of self.old) (pairs_in self.new) (pair_at (pairs_in self.old) number)) }
        ensures closed { IfOk result (λ o. IsOpen o → ⊥) }
    {
        let node = self.nodes.at(number);
        let unfolding = test_pair(
            self.alloc,
            self.core,
            self.scope,
            &node.left,
            &node.right,
            self.mode,
        )?;
        match unfolding {
            Unfolding::Fails(cause) => Ok(Outcome::Fails(cause)),
            Unfolding::Closed(asked) => {
                let numbers = self.nodes.numbers_of(asked.as_slice())?;
                Ok(Outcome::Asks(numbers))
            }
        }
    }

    /// Unfolds the pair of a number where it wasn't: in one step, or in none where memory is wanting.
    fn unfold_once<L: Ledger>(&mut self, number: usize, steps: &mut Steps<L>) -> Result<(), Memory>
        requires graph { IsGraph self.old }
        requires within { number < length self.old.nodes }
        ensures graph { IsGraph self.new }
        ensures grows { Grows (pair_at (pairs_in self.old) number) (decided_of self.old) (decided_of self.new) steps.old steps.new }
        ensures more { Continues (pairs_in self.old) (pairs_in self.new) }
        ensures there { OnOk result (IsIn number self.new.unfolded.items) }
    {
        if !self.nodes.at(number).is_open() {
            return Ok(());
        }
        self.unfolded.reserve(1)?;
        let outcome = self.test(number)?;
        steps.tick();
        self.nodes.learn(number, outcome);
        self.unfolded.push_reserved(number);
        Ok(())
    }

    /// Tests the pair at a place of a list, and adds those that it asks for.
    fn advance<L: Ledger>(
        &mut self,
        work: &mut Work,
        at: usize,
        steps: &mut Steps<L>,
    ) -> Result<Option<Cause>, Memory>
        requires graph { IsGraph self.old }
        requires numbers { AreNumbers self.old work.old }
        requires seen { IsSeen (program_of self.old.core.now) self.old.scope self.old.mode (mets_in self.old work.old) }
        requires within { at < length work.old }
        ensures graph { IsGraph self.new }
        ensures numbers { IfOk result (λ _. AreNumbers self.new work.new) }
        ensures fails { IfOk result (λ o. IfSome o (λ c. MetFails (program_of self.old.core.now) self.old.scope self.old.mode (mets_in self.new work.new) at c)) }
        ensures same { IfOk result (λ o. IfSome o (λ _. mets_in self.new work.new ≡ mets_in self.old work.old)) }
        ensures advances { IfOk result (λ o. IfNone o (Advances (program_of self.old.core.now) self.old.scope self.old.mode (mets_in self.old work.old) (mets_in self.new work.new) at)) }
        ensures grows { (m : Met) → slice_get (mets_in self.old work.old) at ≡ Some m → Grows m.pair (decided_of self.old) (decided_of self.new) steps.old steps.new }
        ensures there { IfOk result (λ _. (m : Met) → slice_get (mets_in self.old work.old) at ≡ Some m → IsIn m.pair (decided_of self.new).pairs) }
    {
        let number = entry_at(work.as_slice(), at).node;
        self.unfold_once(number, steps)?;
        go_on(self.nodes.at(number), work, at)
    }

    /// The step from a pair to one that it asks for, by their numbers, which is found again in the
    /// methods of both sides. It unfolds nothing, and counts no step.
    pub fn step_between(&self, parent: usize, child: usize) -> Result<Step, Memory>
        requires core { IsInRange (program_of self.now.core.now) }
        requires parent { parent < length self.now.nodes }
        requires child { child < length self.now.nodes }
        requires asked { HasStep (about_of self.now) (pair_at (pairs_in self.now) parent) (pair_at (pairs_in self.now) child) }
        ensures { IfOk result (λ s. StepsTo (program_of self.now.core.now) self.now.scope self.now.mode (pair_at (pairs_in self.now) parent) s (pair_at (pairs_in self.now) child)) }
    {
        let from = self.nodes.at(parent);
        let to = self.nodes.at(child);
        let lefts = methods(self.alloc, self.core, self.scope, &from.left)?;
        let rights = methods(self.alloc, self.core, self.scope, &from.right)?;
        match asking_step(lefts.as_slice(), rights.as_slice(), &to.left, &to.right)? {
            Some(step) => Ok(step),
            None => unreachable!(),
        }
    }

    /// Marks the pair of a number as one of a type and a subtype, if it was unfolded.
    fn mark(&mut self, number: usize)
        requires graph { IsGraph self.old }
        requires within { number < length self.old.nodes }
        requires holds { IsSubtypeIn (program_of self.old.core.now) self.old.scope self.old.mode (pair_at (pairs_in self.old) number).0 (pair_at (pairs_in self.old) number).1 }
        ensures graph { IsGraph self.new }
        ensures pairs { pairs_in self.new ≡ pairs_in self.old }
        ensures decided { decided_of self.new ≡ decided_of self.old }
    {
        if !self.nodes.at(number).is_open() {
            self.nodes.learn(number, Outcome::Holds);
        }
    }

    /// Marks the pairs of a list, which are all of a type and a subtype.
    fn mark_all(&mut self, work: &Work)
        requires graph { IsGraph self.old }
        requires numbers { AreNumbers self.old work.now }
        requires holds { (m : Met) → IsIn m (mets_in self.old work.now) → IsSubtypeIn (program_of self.old.core.now) self.old.scope self.old.mode m.pair.0 m.pair.1 }
        ensures graph { IsGraph self.new }
        ensures decided { decided_of self.new ≡ decided_of self.old }
    {
        for entry in work.as_slice() {
            self.mark(entry.node);
        }
    }

    /// Tests all pairs of the list and those that they ask for, each once. Once all passed, they are
    /// marked.
    fn explore<L: Ledger>(
        &mut self,
        work: &mut Work,
        steps: &mut Steps<L>,
    ) -> Result<Verdict, Memory>
        requires graph { IsGraph self.old }
        requires numbers { AreNumbers self.old work.old }
        requires seen { IsSeen (program_of self.old.core.now) self.old.scope self.old.mode (mets_in self.old work.old) }
        requires within { 0 < length work.old }
        ensures graph { IsGraph self.new }
        ensures verdict { IfOk result (λ v. (q : Pair) → BeginsWith q (mets_in self.old work.old) → IsVerdict (program_of self.old.core.now) self.old.scope self.old.mode q v) }
        ensures grows { (q : Pair) → BeginsWith q (mets_in self.old work.old) → Grows q (decided_of self.old) (decided_of self.new) steps.old steps.new }
        ensures there { IfOk result (λ _. (q : Pair) → BeginsWith q (mets_in self.old work.old) → IsIn q (decided_of self.new).pairs) }
    {
        let mut next = 0;
        while next < work.len() {
            if let Some(cause) = self.advance(work, next, steps)? {
                let path = path_to(self, work.as_slice(), next)?;
                return Ok(Verdict::No { path, cause });
            }
            next += 1;
        }
        self.mark_all(work);
        Ok(Verdict::Yes)
    }

    /// Whether the pair of a number is one of a type and a subtype, with a path that refutes it where
    /// it is not. What is marked is known at once.
    fn decide<L: Ledger>(&mut self, number: usize, steps: &mut Steps<L>) -> Result<Verdict, Memory>
        requires graph { IsGraph self.old }
        requires within { number < length self.old.nodes }
        requires left { IsTypeOf (program_of self.old.core.now) self.old.scope (pair_at (pairs_in self.old) number).0 }
        requires right { IsTypeOf (program_of self.old.core.now) self.old.scope (pair_at (pairs_in self.old) number).1 }
        ensures graph { IsGraph self.new }
        ensures verdict { IfOk result (IsVerdict (program_of self.old.core.now) self.old.scope self.old.mode (pair_at (pairs_in self.old) number)) }
        ensures grows { Grows (pair_at (pairs_in self.old) number) (decided_of self.old) (decided_of self.new) steps.old steps.new }
        ensures there { IfOk result (λ _. IsIn (pair_at (pairs_in self.old) number) (decided_of self.new).pairs) }
    {
        if self.nodes.at(number).holds() {
            return Ok(Verdict::Yes);
        }
        let mut work = Work::of(self.alloc, number)?;
        self.explore(&mut work, steps)
    }

    /// Whether the first type is a subtype of the second, with a path that refutes it where it is not.
    pub fn ask<L: Ledger>(
        &mut self,
        s: &TypeRef,
        t: &TypeRef,
        steps: &mut Steps<L>,
    ) -> Result<Verdict, Memory>
        requires graph { IsGraph self.old }
        requires left { IsTypeOf (program_of self.old.core.now) self.old.scope s.now }
        requires right { IsTypeOf (program_of self.old.core.now) self.old.scope t.now }
        ensures graph { IsGraph self.new }
        ensures verdict { IfOk result (IsVerdict (program_of self.old.core.now) self.old.scope self.old.mode (s.now, t.now)) }
        ensures grows { Grows (s.now, t.now) (decided_of self.old) (decided_of self.new) steps.old steps.new }
        ensures there { IfOk result (λ _. IsIn {X = Pair} (s.now, t.now) (decided_of self.new).pairs) }
    {
        let number = self.nodes.number_of(s, t)?;
        self.decide(number, steps)
    }
}
