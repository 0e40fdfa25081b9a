//! Pairs of types that were decided in a scope and a mode, each unfolded once.

ghost use Rattle.std.specs.Prelude.{◌≡◌, ◌+◌, ◌<◌, ◌≤◌, ◌++◌, ◌↔◌, ◌⊎◌, [], List, IfOk, true, length};
ghost use Rattle.wy_text.specs.Members.{In as IsIn, Apart};
ghost use Rattle.wy_types.specs.Program.{program_of};
ghost use Rattle.wy_types.specs.Fitting.{IsTypeOf};
ghost use Rattle.wy_types.specs.InRange.{IsInRange};
ghost use Rattle.wy_subtype.specs.Verdict.{IsVerdict, IsYes, IsSubtypeIn};
ghost use Rattle.wy_subtype.specs.Steps.{Pair};
ghost use Rattle.wy_subtype.specs.Decided.{IsReached};

use crate::graph::Graph;
use crate::nodes::Nodes;
use crate::steps::Steps;
use crate::verdict::{Mode, Verdict};
use std::alloc::Global;
use std::marker::{Brand, Model};
use std::sync::ledger::{Blank, Ledger};
use wy_text::text::Memory;
use wy_types::resolved::Core;
use wy_types::types::TypeRef;

/// A table of pairs of a core, a scope and a mode. Each pair is unfolded at most once, and a pair
/// that was found to be one of a type and a subtype is found again by its key (docs/LANGUAGE.md,
/// "Subtyping"). Contracts see what the table is for, and the pairs that were unfolded.
#[derive(Drop)]
pub struct PairTable<'a> {
    graph: Graph<'a>,
}

impl<'a> Model for PairTable<'a> {
    ghost use Rattle.std.specs.Coded.{codes};
    ghost use Rattle.wy_subtype.specs.Codes.{values_code, block_code};
    ghost use Rattle.wy_subtype.specs.Decided.{Decided};
    ghost use Rattle.wy_subtype.specs.Graph.{decided_of, IsGraph};

    ghost Value = { Decided };

    ghost coded = { Prim.hlevel (codes, values_code (Prim.hlevel codes), block_code (Prim.hlevel codes)) };

    ghost view = { λ t. decided_of t.graph };

    ghost invariant = { λ t. IsGraph t.graph };
}

impl<'a> PairTable<'a> {
    /// The table without pairs. It takes no memory. The core's signatures are in range, as those of
    /// every resolved program are.
    pub fn new(alloc: Global, core: &'a Core, scope: u16, mode: Mode) -> PairTable<'a>
        requires core { IsInRange (program_of core.now) }
        ensures { result ≡ record { about = record { program = program_of core.now; scope = scope; mode = mode }; pairs = [] } }
    {
        let nodes = Nodes::new(alloc);
        let unfolded = Vec::new(alloc);
        PairTable {
            graph: Graph {
                alloc,
                core,
                scope,
                mode,
                nodes,
                unfolded,
            },
        }
    }

    /// How many pairs were unfolded, all of them distinct. It takes no memory.
    pub fn pairs(&self) -> usize
        ensures number { result ≡ length self.now.pairs }
        ensures apart { Apart self.now.pairs }
    {
        self.graph.unfolded.len()
    }

    /// Whether the first type is a subtype of the second in the table's scope and mode, as `subtype`
    /// says it. Pairs are unfolded that are reached from the two types and weren't before, also where
    /// memory is wanting, and each of them is one step. So what is asked again takes no step, and
    /// after a Yes it takes one look into the table. Every later answer is right, also where memory
    /// was wanting.
    pub fn decide<L: Ledger>(
        &mut self,
        s: &TypeRef,
        t: &TypeRef,
        steps: &mut Steps<L>,
    ) -> Result<Verdict, Memory>
        requires left { IsTypeOf self.old.about.program self.old.about.scope s.now }
        requires right { IsTypeOf self.old.about.program self.old.about.scope t.now }
        ensures exact { IfOk result (λ v. IsYes v ↔ IsSubtypeIn self.old.about.program self.old.about.scope self.old.about.mode s.now t.now) }
        ensures verdict { IfOk result (λ v. IsVerdict self.old.about.program self.old.about.scope self.old.about.mode (s.now, t.now) v) }
        ensures same { self.new.about ≡ self.old.about }
        ensures there { IfOk result (λ _. IsIn {X = Pair} (s.now, t.now) self.new.pairs) }
        ensures keeps { (tail : List Pair) × (self.new.pairs ≡ self.old.pairs ++ tail) }
        ensures reached { (r : Pair) → IsIn r self.new.pairs → IsIn r self.old.pairs ⊎ IsReached self.old.about (s.now, t.now) r }
        ensures cost { steps.new + length self.old.pairs ≤ steps.old + length self.new.pairs }
    {
        self.graph.ask(s, t, steps)
    }

    /// As `decide`, with a count from a new ledger.
    fn decide_from<L: Ledger>(
        &mut self,
        s: &TypeRef,
        t: &TypeRef,
        blank: Blank,
    ) -> Result<Verdict, Memory>
        requires name { blank.name ≡ L.name }
        requires parts { blank.parts ≡ L.parts }
        requires some { 0 < blank.parts }
        requires left { IsTypeOf self.old.about.program self.old.about.scope s.now }
        requires right { IsTypeOf self.old.about.program self.old.about.scope t.now }
        ensures exact { IfOk result (λ v. IsYes v ↔ IsSubtypeIn self.old.about.program self.old.about.scope self.old.about.mode s.now t.now) }
        ensures verdict { IfOk result (λ v. IsVerdict self.old.about.program self.old.about.scope self.old.about.mode (s.now, t.now) v) }
        ensures same { self.new.about ≡ self.old.about }
    {
        let mut steps = Steps::<L>::new(blank);
        self.decide(s, t, &mut steps)
    }

    /// As `decide`, for callers that count nothing.
    pub(crate) fn verdict(&mut self, s: &TypeRef, t: &TypeRef) -> Result<Verdict, Memory>
        requires left { IsTypeOf self.old.about.program self.old.about.scope s.now }
        requires right { IsTypeOf self.old.about.program self.old.about.scope t.now }
        ensures exact { IfOk result (λ v. IsYes v ↔ IsSubtypeIn self.old.about.program self.old.about.scope self.old.about.mode s.now t.now) }
        ensures verdict { IfOk result (λ v. IsVerdict self.old.about.program self.old.about.scope self.old.about.mode (s.now, t.now) v) }
        ensures same { self.new.about ≡ self.old.about }
    {
        self.decide_from::<Brand>(s, t, Blank::new(1))
    }

    /// Whether the first type is a subtype of the second in the table's scope and mode. It is as
    /// `decide`, for callers that want no path and count nothing.
    pub fn holds(&mut self, s: &TypeRef, t: &TypeRef) -> Result<bool, Memory>
        requires left { IsTypeOf self.old.about.program self.old.about.scope s.now }
        requires right { IsTypeOf self.old.about.program self.old.about.scope t.now }
        ensures exact { IfOk result (λ b. (b ≡ true) ↔ IsSubtypeIn self.old.about.program self.old.about.scope self.old.about.mode s.now t.now) }
        ensures same { self.new.about ≡ self.old.about }
    {
        let verdict = self.verdict(s, t)?;
        Ok(verdict.is_yes())
    }
}
