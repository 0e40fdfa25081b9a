//! Rows of effect sets, for one test of a set against all of them.

ghost use Rattle.std.specs.Prelude.{◌≡◌, ◌++◌, ◌∷◌, ◌↔◌, [], IsTrue, OnErr, OnOk};
ghost use Rattle.wy_effects.specs.Rows.{IsInAll};

use crate::set::EffSet;
use std::alloc::Global;
use std::marker::Model;
use wy_lanes::number_rows::NumberRows;
use wy_text::text::Memory;

/// Effect sets in rows, each as the words of what it lacks. Contracts see the list of the sets.
#[derive(Drop)]
pub struct SetRows {
    lacking: NumberRows,
}

impl Model for SetRows {
    ghost use Rattle.std.specs.Prelude.{ℕ, List, map};
    ghost use Rattle.wy_lanes.specs.Rows.{others};
    ghost use Rattle.wy_effects.specs.Rows.{AreLacking};

    ghost Value = { List (List ℕ) };

    ghost view = { λ r. map others r.lacking };

    ghost invariant = { λ r. AreLacking r.lacking };
}

impl SetRows {
    /// No rows. It takes no memory.
    pub fn new(alloc: Global) -> SetRows
        ensures { result ≡ [] }
    {
        SetRows {
            lacking: NumberRows::new(alloc),
        }
    }

    /// Adds the set as the last row.
    pub fn push(&mut self, set: &EffSet) -> Result<(), Memory>
        ensures added { OnOk result (self.new ≡ self.old ++ set.now ∷ []) }
        ensures refused { OnErr result (self.new ≡ self.old) }
    {
        set.is_set();
        self.lacking.push(&set.lacking())?;
        Ok(())
    }

    /// Whether every atom of the set is in each row. It takes no memory.
    pub fn all_include(&self, set: &EffSet) -> bool
        ensures { IsTrue result ↔ IsInAll set.now self.now }
    {
        set.is_set();
        self.lacking.are_in(&set.lacking())
    }
}
