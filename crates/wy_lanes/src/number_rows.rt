//! Rows of sets of numbers below 512.

ghost use Rattle.std.specs.Prelude.{◌≡◌, ◌++◌, ◌∷◌, ◌↔◌, [], IsTrue, OnErr, OnOk};
ghost use Rattle.wy_lanes.specs.Rows.{AllRowsIn};

use crate::number_set::NumberSet;
use crate::words::any_outside;
use std::alloc::{AllocError, Global};
use std::marker::Model;

/// Sets of numbers below 512, as rows of eight words that stand one after another. Contracts see the
/// list of the sets.
#[derive(Drop)]
pub struct NumberRows {
    rows: Vec<[u64; 8]>,
}

impl Model for NumberRows {
    ghost use Rattle.std.specs.Prelude.{ℕ, List, map};
    ghost use Rattle.wy_lanes.specs.Numbers.{numbers_of};
    ghost use Rattle.wy_lanes.specs.Rows.{AreRows};

    ghost Value = { List (List ℕ) };

    ghost view = { λ r. map numbers_of r.rows.items };

    ghost invariant = { λ r. AreRows r.rows.items };
}

impl NumberRows {
    /// No rows. Takes no memory.
    pub fn new(alloc: Global) -> NumberRows
        ensures { result ≡ [] }
    {
        NumberRows {
            rows: Vec::new(alloc),
        }
    }

    /// Adds a row with the numbers of the set.
    pub fn push(&mut self, set: &NumberSet) -> Result<(), AllocError>
        ensures added { OnOk result (self.new ≡ self.old ++ set.now ∷ []) }
        ensures refused { OnErr result (self.new ≡ self.old) }
    {
        self.rows.reserve(1)?;
        self.rows.push_reserved(set.row());
        Ok(())
    }

    /// Whether every number of each row is in the bound. Takes no memory.
    pub fn are_in(&self, bound: &NumberSet) -> bool
        ensures { IsTrue result ↔ AllRowsIn self.now bound.now }
    {
        any_outside(self.rows.as_slice().as_flattened(), &bound.row()).is_none()
    }
}
