//! Closed lists of what is asked: each pair together with all that its own test asks for, and no others.

ghost use Rattle.std.specs.Prelude.{◌≡◌, ◌<◌, ◌∷◌, [], IfOk, OnOk, length, map, slice_get};
ghost use Rattle.wy_types.specs.Program.{Scope as ProgramScope, program_of};
ghost use Rattle.wy_types.specs.Types.{annotated};
ghost use Rattle.wy_types.specs.Core.{IsCore};
ghost use Rattle.wy_subtype.specs.Unfolding.{sides};
ghost use Rattle.wy_recheck.specs.Closing.{looked_up};
ghost use Rattle.wy_certify.specs.Pair.{pair_of};
ghost use Rattle.wy_certify.specs.Closed.{AllHold, IsClosedList, pairs_in, IsKept, all_looked_up, IsGrown, AreReady, Advances, IsExplored, given_back};

use crate::pair::{TypePair, copied_pair};
use indexmap::IndexSet;
use std::alloc::Global;
use std::marker::Brand;
use std::sync::ledger::{Blank, Ledger};
use wy_effects::set::EffSet;
use wy_subtype::{Mode, Steps, UnfoldedPair, Unfolding, unfold};
use wy_text::list::Items;
use wy_text::text::Memory;
use wy_types::key::{Key, key_of_pair};
use wy_types::reading::{annotate, erase};
use wy_types::resolved::Core;
use wy_types::types::TypeRef;

// ----------------------------------------------------------------------------
// Pairs, each once

/// Pairs as they are compared, each once, and their keys.
#[derive(Drop)]
struct Work {
    pairs: Items<TypePair>,
    keys: IndexSet<Key>,
}

impl Work {
    /// No pairs. It takes no memory.
    fn new(alloc: Global) -> Work
        ensures none { pairs_in result ≡ [] }
        ensures kept { IsKept result }
    {
        Work {
            pairs: Items::new(alloc),
            keys: IndexSet::new(alloc),
        }
    }

    /// Adds a pair that is not there. Types are copied only then.
    fn insert(&mut self, alloc: Global, left: &TypeRef, right: &TypeRef) -> Result<(), Memory>
        requires kept { IsKept self.old }
        ensures kept { OnOk result (IsKept self.new) }
        ensures grown { OnOk result (IsGrown ((left.now, right.now) ∷ []) (pairs_in self.old) (pairs_in self.new)) }
    {
        let key = key_of_pair(alloc, left, right)?;
        if self.keys.insert(key)? {
            self.pairs.push(copied_pair(alloc, left, right)?)?;
        }
        Ok(())
    }

    /// Adds a pair as it is compared: in plain mode its types are bare.
    fn add(
        &mut self,
        alloc: Global,
        mode: Mode,
        left: &TypeRef,
        right: &TypeRef,
    ) -> Result<(), Memory>
        requires kept { IsKept self.old }
        ensures kept { OnOk result (IsKept self.new) }
        ensures grown { OnOk result (IsGrown (looked_up mode (left.now, right.now) ∷ []) (pairs_in self.old) (pairs_in self.new)) }
    {
        match mode {
            Mode::Annotated => self.insert(alloc, left, right),
            Mode::Plain => {
                let left = erase(alloc, left)?;
                let right = erase(alloc, right)?;
                self.insert(alloc, &left, &right)
            }
        }
    }

    /// Adds the pairs that a test asks for.
    fn add_unfolded(
        &mut self,
        alloc: Global,
        mode: Mode,
        asked: &[UnfoldedPair],
    ) -> Result<(), Memory>
        requires kept { IsKept self.old }
        ensures kept { OnOk result (IsKept self.new) }
        ensures grown { OnOk result (IsGrown (all_looked_up mode (map sides asked.now)) (pairs_in self.old) (pairs_in self.new)) }
    {
        for pair in asked {
            self.add(alloc, mode, &pair.left, &pair.right)?;
        }
        Ok(())
    }

    /// Adds the pairs that are asked.
    fn add_asked(&mut self, alloc: Global, mode: Mode, asked: &[TypePair]) -> Result<(), Memory>
        requires kept { IsKept self.old }
        ensures kept { OnOk result (IsKept self.new) }
        ensures grown { OnOk result (IsGrown (all_looked_up mode (map pair_of asked.now)) (pairs_in self.old) (pairs_in self.new)) }
    {
        for pair in asked {
            self.add(alloc, mode, &pair.left, &pair.right)?;
        }
        Ok(())
    }
}

// ----------------------------------------------------------------------------
// Each pair is tested once

/// How pairs are tested: in the scope of a number, with effects or without.
#[derive(Drop)]
struct Closing<'a> {
    alloc: Global,
    core: &'a Core,
    number: u16,
    mode: Mode,
}

impl Closing<'_> {
    /// Tests the pair at a place, and adds those that it asks for. It passes, since it is a subtyping.
    fn advance<L: Ledger>(
        &self,
        work: &mut Work,
        at: usize,
        steps: &mut Steps<L>,
    ) -> Result<(), Memory>
        requires core { IsCore (program_of self.now.core.now) }
        requires within { at < length work.old.pairs }
        requires kept { IsKept work.old }
        requires ready { AreReady (program_of self.now.core.now) self.now.number self.now.mode (pairs_in work.old) }
        ensures kept { OnOk result (IsKept work.new) }
        ensures advances { OnOk result (Advances (program_of self.now.core.now) self.now.number self.now.mode (pairs_in work.old) (pairs_in work.new) at) }
    {
        let pair = &work.pairs.as_slice()[at];
        let unfolding = unfold(
            self.alloc,
            self.core,
            self.number,
            &pair.left,
            &pair.right,
            self.mode,
            steps,
        )?;
        match unfolding {
            Unfolding::Fails(_) => unreachable!(),
            Unfolding::Closed(asked) => {
                work.add_unfolded(self.alloc, self.mode, asked.as_slice())
            }
        }
    }

    /// Tests all pairs and those that they ask for, each once.
    fn explore<L: Ledger>(&self, work: &mut Work, steps: &mut Steps<L>) -> Result<(), Memory>
        requires core { IsCore (program_of self.now.core.now) }
        requires kept { IsKept work.old }
        requires ready { AreReady (program_of self.now.core.now) self.now.number self.now.mode (pairs_in work.old) }
        ensures { OnOk result (IsExplored (program_of self.now.core.now) self.now.number self.now.mode (pairs_in work.old) (pairs_in work.new) (length (pairs_in work.new))) }
    {
        let mut next = 0;
        while next < work.pairs.len() {
            self.advance(work, next, steps)?;
            next += 1;
        }
        Ok(())
    }
}

// ----------------------------------------------------------------------------
// The list that is given

/// The types of a pair at a set.
fn annotated_pair(alloc: Global, pair: &TypePair, set: &EffSet) -> Result<TypePair, Memory>
    ensures { IfOk result (λ q. pair_of q ≡ (annotated set.now pair.now.left, annotated set.now pair.now.right)) }
{
    Ok(TypePair {
        left: annotate(alloc, &pair.left, set)?,
        right: annotate(alloc, &pair.right, set)?,
    })
}

/// The types of a list of pairs at the empty set.
fn at_empty(alloc: Global, pairs: &[TypePair]) -> Result<Items<TypePair>, Memory>
    ensures { IfOk result (λ l. map pair_of l ≡ given_back Mode.Plain (map pair_of pairs.now)) }
{
    let none = EffSet::empty(alloc);
    let mut out = Items::new(alloc);
    for pair in pairs {
        out.push(annotated_pair(alloc, pair, &none)?)?;
    }
    Ok(out)
}

/// The pairs as they are listed: in plain mode with types at the empty set.
fn listed(alloc: Global, mode: Mode, pairs: Items<TypePair>) -> Result<Items<TypePair>, Memory>
    ensures { IfOk result (λ l. map pair_of l ≡ given_back mode (map pair_of pairs)) }
{
    match mode {
        Mode::Annotated => Ok(pairs),
        Mode::Plain => at_empty(alloc, pairs.as_slice()),
    }
}

/// As `closed_list`, with a count from a new ledger.
fn closed_from<L: Ledger>(
    alloc: Global,
    core: &Core,
    number: u16,
    mode: Mode,
    asked: &[TypePair],
    blank: Blank,
) -> Result<Items<TypePair>, Memory>
    requires name { blank.name ≡ L.name }
    requires parts { blank.parts ≡ L.parts }
    requires some { 0 < blank.parts }
    requires core { IsCore (program_of core.now) }
    requires hold { AllHold (program_of core.now) number mode (map pair_of asked.now) }
    ensures { IfOk result (λ l. (s : ProgramScope) → slice_get (program_of core.now).scopes number ≡ Some s → IsClosedList (program_of core.now) number s mode (map pair_of asked.now) (map pair_of l)) }
{
    let mut steps = Steps::<L>::new(blank);
    let mut work = Work::new(alloc);
    work.add_asked(alloc, mode, asked)?;
    let closing = Closing {
        alloc,
        core,
        number,
        mode,
    };
    closing.explore(&mut work, &mut steps)?;
    listed(alloc, mode, work.pairs)
}

/// A list in which each pair that is asked in the scope of a number is, and with each pair all that its own test asks for, and no
/// others: by methods and their effects, or in plain mode by erased methods, where pairs are compared by erasure and listed at the
/// empty set. No two pairs are alike, and their types can stand in the scope. What is asked is to be a subtyping of types that can
/// stand. The one error is want of memory (docs/LANGUAGE.md, "Subtyping" and "Certificates").
pub fn closed_list(
    alloc: Global,
    core: &Core,
    number: u16,
    mode: Mode,
    asked: &[TypePair],
) -> Result<Items<TypePair>, Memory>
    requires core { IsCore (program_of core.now) }
    requires hold { AllHold (program_of core.now) number mode (map pair_of asked.now) }
    ensures { IfOk result (λ l. (s : ProgramScope) → slice_get (program_of core.now).scopes number ≡ Some s → IsClosedList (program_of core.now) number s mode (map pair_of asked.now) (map pair_of l)) }
{
    closed_from::<Brand>(alloc, core, number, mode, asked, Blank::new(1))
}
