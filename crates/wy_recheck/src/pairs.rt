//! The pairs that are listed for a scope.

ghost use Rattle.std.specs.Prelude.{◌≡◌, ◌≤◌, ◌+◌, ◌++◌, List, length, map, slice_get, IfOk, IfErr, OnOk};
ghost use Rattle.wy_text.specs.Members.{In as IsIn};
ghost use Rattle.wy_types.specs.Program.{Scope as ProgramScope, program_of};
ghost use Rattle.wy_types.specs.InRange.{IsInRange};
ghost use Rattle.wy_subtype.specs.declared.unfolding.UnfoldedPair.{UnfoldedPair as Asked};
ghost use Rattle.wy_subtype.specs.Unfolding.{sides, IsUnfolded};
ghost use Rattle.wy_proving.specs.Certified.{Pair, pair_of, bare, typed_pairs, types_of, annotated_pairs, plain_pairs};
ghost use Rattle.wy_proving.specs.Proving.{AllStand, PairsHold, PlainPairsHold};
ghost use Rattle.wy_proving.specs.Unproved.{IsFirstWithout, FailsAt};
ghost use Rattle.wy_proving.specs.declared.proof.CertTest.TheVariants.{Pairs, Plain as PlainPairs};
ghost use Rattle.wy_recheck.specs.Standing.{FailsFirst};
ghost use Rattle.wy_recheck.specs.PairSet.{StandsFor, Tells};
ghost use Rattle.wy_recheck.specs.Closing.{looked_up, ClosedIn, PairStandsIn};

use crate::failure::Failure;
use crate::pair_set::PairSet;
use crate::types::type_at;
use std::alloc::Global;
use std::sync::ledger::Ledger;
use wy_cert::{CertPair, CertScope};
use wy_subtype::{Mode, Steps, UnfoldedPair, Unfolding, unfold};
use wy_text::text::Memory;
use wy_types::reading::erase_types;
use wy_types::resolved::Core;
use wy_types::types::TypeRef;

/// Adds a pair, where its numbers name types.
fn add_pair(
    alloc: Global,
    set: &mut PairSet,
    types: &[TypeRef],
    pair: &CertPair,
) -> Result<(), Memory>
    ensures { OnOk result ((pairs : List Pair) → StandsFor set.old pairs → StandsFor set.new (pairs ++ pair_of (slice_get types.now pair.now.left) (slice_get types.now pair.now.right))) }
{
    match type_at(types, pair.left) {
        None => Ok(()),
        Some(left) => match type_at(types, pair.right) {
            None => Ok(()),
            Some(right) => set.insert(alloc, left, right),
        },
    }
}

/// The pairs whose numbers name types.
fn listed_pairs(alloc: Global, types: &[TypeRef], pairs: &[CertPair]) -> Result<PairSet, Memory>
    ensures { IfOk result (λ set. StandsFor set (typed_pairs types.now pairs.now)) }
{
    let mut set = PairSet::new(alloc);
    for pair in pairs {
        add_pair(alloc, &mut set, types, pair)?;
    }
    Ok(set)
}

/// .. as erased.
fn erased_pairs(alloc: Global, types: &[TypeRef], pairs: &[CertPair]) -> Result<PairSet, Memory>
    ensures { IfOk result (λ set. StandsFor set (map bare (typed_pairs types.now pairs.now))) }
{
    let erased = erase_types(alloc, types)?;
    listed_pairs(alloc, erased.as_slice(), pairs)
}

/// What pairs are tested by: how, in which scope, the types that their numbers name, and the pairs that are listed.
#[derive(Drop)]
struct Closing<'a> {
    alloc: Global,
    core: &'a Core,
    scope: u16,
    mode: Mode,
    types: &'a [TypeRef],
    listed: &'a PairSet,
}

impl Closing<'_> {
    /// Whether a pair is listed.
    fn has(&self, left: &TypeRef, right: &TypeRef) -> Result<bool, Memory>
        ensures { IfOk result (Tells self.now.listed.now (λ pairs. IsIn {X = Pair} (looked_up self.now.mode (left.now, right.now)) pairs)) }
    {
        match self.mode {
            Mode::Annotated => self.listed.contains(self.alloc, left, right),
            Mode::Plain => self.listed.contains_erased(self.alloc, left, right),
        }
    }

    /// Whether all asked pairs are listed.
    fn has_all(&self, asked: &[UnfoldedPair]) -> Result<bool, Memory>
        ensures { IfOk result (Tells self.now.listed.now (λ pairs. (c : Asked) → IsIn c asked.now → IsIn {X = Pair} (looked_up self.now.mode (sides c)) pairs)) }
    {
        for pair in asked {
            if !self.has(&pair.left, &pair.right)? {
                return Ok(false);
            }
        }
        Ok(true)
    }

    /// Whether a pair is closed in the listed ones, by what its own test says.
    fn has_unfolded(&self, said: &Unfolding) -> Result<bool, Memory>
        ensures { IfOk result (λ b. (q : Pair) → IsUnfolded (program_of self.now.core.now) self.now.scope self.now.mode q said.now → Tells self.now.listed.now (λ pairs. ClosedIn (program_of self.now.core.now) self.now.scope self.now.mode pairs q) b) }
    {
        match said {
            Unfolding::Fails(_) => Ok(false),
            Unfolding::Closed(asked) => self.has_all(asked.as_slice()),
        }
    }

    /// Whether a pair is closed in the listed ones.
    fn is_closed<L: Ledger>(
        &self,
        left: &TypeRef,
        right: &TypeRef,
        steps: &mut Steps<L>,
    ) -> Result<bool, Memory>
        requires core { IsInRange (program_of self.now.core.now) }
        ensures closed { IfOk result (Tells self.now.listed.now (λ pairs. ClosedIn (program_of self.now.core.now) self.now.scope self.now.mode pairs (left.now, right.now))) }
        ensures steps { steps.new ≤ steps.old + 1 }
    {
        let unfolding = unfold(
            self.alloc, self.core, self.scope, left, right, self.mode, steps,
        )?;
        self.has_unfolded(&unfolding)
    }

    /// Whether a pair's numbers name types and it is closed in the listed ones.
    fn stands<L: Ledger>(&self, pair: &CertPair, steps: &mut Steps<L>) -> Result<bool, Memory>
        requires core { IsInRange (program_of self.now.core.now) }
        ensures stands { IfOk result (Tells self.now.listed.now (PairStandsIn (program_of self.now.core.now) self.now.scope self.now.mode self.now.types.now pair.now)) }
        ensures steps { steps.new ≤ steps.old + 1 }
    {
        match type_at(self.types, pair.left) {
            None => Ok(false),
            Some(left) => match type_at(self.types, pair.right) {
                None => Ok(false),
                Some(right) => self.is_closed(left, right, steps),
            },
        }
    }

    /// Tests pairs one after another, up to the first that does not stand.
    fn test<L: Ledger>(&self, pairs: &[CertPair], steps: &mut Steps<L>) -> Result<(), Failure>
        requires core { IsInRange (program_of self.now.core.now) }
        ensures stand { OnOk result ((listed : List Pair) → StandsFor self.now.listed.now listed → AllStand (λ q. PairStandsIn (program_of self.now.core.now) self.now.scope self.now.mode self.now.types.now q listed) pairs.now) }
        ensures first { IfErr result (λ f. (listed : List Pair) → StandsFor self.now.listed.now listed → FailsFirst (IsFirstWithout (λ q. PairStandsIn (program_of self.now.core.now) self.now.scope self.now.mode self.now.types.now q listed) pairs.now) f) }
        ensures steps { steps.new ≤ steps.old + length pairs.now }
    {
        for (i, pair) in pairs.iter().enumerate() {
            if !self.stands(pair, steps)? {
                return Err(Failure::At(i as u64));
            }
        }
        Ok(())
    }
}

/// The pairs that a certificate lists for the scope of a number, where the numbers of each name types and each is closed in the
/// list: both sides are the same base type, or each method of the right side has one of the left that stands for it, the pairs
/// of their types being listed. `At` comes exactly where one is not, with the number of the first. Each pair is unfolded once
/// at most (docs/LANGUAGE.md, "Certificates").
pub fn closed_pairs<L: Ledger>(
    alloc: Global,
    core: &Core,
    number: u16,
    types: &[TypeRef],
    part: &CertScope,
    steps: &mut Steps<L>,
) -> Result<PairSet, Failure>
    requires core { IsInRange (program_of core.now) }
    requires types { types.now ≡ types_of part.now }
    ensures set { IfOk result (λ set. StandsFor set (annotated_pairs part.now)) }
    ensures hold { OnOk result ((s : ProgramScope) → PairsHold (program_of core.now) number s part.now) }
    ensures first { IfErr result (λ f. (s : ProgramScope) → FailsFirst (FailsAt (program_of core.now) number s part.now Pairs) f) }
    ensures steps { steps.new ≤ steps.old + length part.now.pairs }
{
    let pairs = part.pairs.as_slice();
    let listed = listed_pairs(alloc, types, pairs)?;
    let closing = Closing {
        alloc,
        core,
        scope: number,
        mode: Mode::Annotated,
        types,
        listed: &listed,
    };
    closing.test(pairs, steps)?;
    Ok(listed)
}

/// The plain pairs that a certificate lists for the scope of a number, as erased, where the numbers of each name types and each
/// is closed in the list with no regard to effects, all pairs being compared by erasure. `At` comes exactly where one is not,
/// with the number of the first. Each pair is unfolded once at most (docs/LANGUAGE.md, "Certificates").
pub fn closed_plain_pairs<L: Ledger>(
    alloc: Global,
    core: &Core,
    number: u16,
    types: &[TypeRef],
    part: &CertScope,
    steps: &mut Steps<L>,
) -> Result<PairSet, Failure>
    requires core { IsInRange (program_of core.now) }
    requires types { types.now ≡ types_of part.now }
    ensures set { IfOk result (λ set. StandsFor set (plain_pairs part.now)) }
    ensures hold { OnOk result ((s : ProgramScope) → PlainPairsHold (program_of core.now) number s part.now) }
    ensures first { IfErr result (λ f. (s : ProgramScope) → FailsFirst (FailsAt (program_of core.now) number s part.now PlainPairs) f) }
    ensures steps { steps.new ≤ steps.old + length part.now.plain }
{
    let pairs = part.plain.as_slice();
    let listed = erased_pairs(alloc, types, pairs)?;
    let closing = Closing {
        alloc,
        core,
        scope: number,
        mode: Mode::Plain,
        types,
        listed: &listed,
    };
    closing.test(pairs, steps)?;
    Ok(listed)
}
