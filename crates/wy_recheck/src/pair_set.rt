//! The pairs that are listed, by their keys.

ghost use Rattle.std.specs.Prelude.{◌≡◌, ◌++◌, [], ◌∷◌, List, IfOk, OnOk};
ghost use Rattle.wy_text.specs.Members.{In as IsIn};
ghost use Rattle.wy_types.specs.Types.{erased};
ghost use Rattle.wy_proving.specs.Certified.{Pair};
ghost use Rattle.wy_recheck.specs.PairSet.{StandsFor, Tells};

use indexmap::IndexSet;
use std::alloc::Global;
use std::marker::Model;
use wy_text::text::Memory;
use wy_types::key::{Key, key_of_pair};
use wy_types::reading::erase;
use wy_types::types::TypeRef;

/// Pairs of types, each found by its key in a time that does not grow with their number. Contracts see the keys; `StandsFor` says of
/// which pairs they are.
#[derive(Drop)]
pub struct PairSet {
    keys: IndexSet<Key>,
}

impl Model for PairSet {
    ghost use Rattle.std.specs.Prelude.{ℕ, List};

    ghost Value = { List (List ℕ) };

    ghost view = { λ s. s.keys.keys };
}

impl PairSet {
    /// No pairs. It takes no memory.
    pub(crate) fn new(alloc: Global) -> PairSet
        ensures { StandsFor result [] }
    {
        PairSet {
            keys: IndexSet::new(alloc),
        }
    }

    /// Adds a pair.
    pub(crate) fn insert(
        &mut self,
        alloc: Global,
        left: &TypeRef,
        right: &TypeRef,
    ) -> Result<(), Memory>
        ensures { OnOk result ((pairs : List Pair) → StandsFor self.old pairs → StandsFor self.new (pairs ++ (left.now, right.now) ∷ [])) }
    {
        let key = key_of_pair(alloc, left, right)?;
        self.keys.insert(key)?;
        Ok(())
    }

    /// Whether a pair is one of those that the set stands for.
    pub fn contains(&self, alloc: Global, left: &TypeRef, right: &TypeRef) -> Result<bool, Memory>
        ensures { IfOk result (Tells self.now (λ pairs. IsIn {X = Pair} (left.now, right.now) pairs)) }
    {
        let key = key_of_pair(alloc, left, right)?;
        Ok(self.keys.contains(&key))
    }

    /// Whether the erasure of a pair is one of those that the set stands for.
    pub(crate) fn contains_erased(
        &self,
        alloc: Global,
        left: &TypeRef,
        right: &TypeRef,
    ) -> Result<bool, Memory>
        ensures { IfOk result (Tells self.now (λ pairs. IsIn {X = Pair} (erased left.now, erased right.now) pairs)) }
    {
        let left = erase(alloc, left)?;
        let right = erase(alloc, right)?;
        self.contains(alloc, &left, &right)
    }
}
