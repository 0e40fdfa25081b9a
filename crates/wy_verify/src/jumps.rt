//! Where the jumps of a walk have led.

ghost use Rattle.std.specs.Prelude.{◌≡◌, ◌↔◌, ◌<◌, IsTrue, None, Some, length, replicate, slice_index_or, slice_set, IfOk};
ghost use Rattle.wy_verify.specs.Sites.{IsNoted};

use std::alloc::Global;
use std::marker::Model;
use wy_text::text::Memory;

/// For each address of a body the number of set fields of the latest jump that led there.
#[derive(Drop)]
pub struct Jumps {
    sets: Vec<Option<u32>>,
}

impl Model for Jumps {
    ghost use Rattle.std.specs.Prelude.{ℕ, List, Option};

    ghost Value = { List (Option ℕ) };

    ghost view = { λ j. j.sets.items };
}

impl Jumps {
    /// No jump, in a body of `count` instructions.
    pub fn new(alloc: Global, count: usize) -> Result<Jumps, Memory>
        ensures { IfOk result (λ j. j ≡ replicate count None) }
    {
        Ok(Jumps {
            sets: vec![in alloc; None; count]?,
        })
    }

    /// The number of set fields of the latest jump to an address; `None` if no jump led there.
    pub fn set_at(&self, to: usize) -> Option<u32>
        ensures { result ≡ slice_index_or self.now to None }
    {
        match self.sets.get(to) {
            Some(set) => *set,
            None => None,
        }
    }

    /// Whether a jump led to an address.
    pub fn has(&self, to: usize) -> bool
        ensures { IsTrue result ↔ IsNoted self.now to }
    {
        match self.set_at(to) {
            Some(_) => true,
            None => false,
        }
    }

    /// Notes a jump to an address.
    pub fn note(&mut self, to: usize, set: u32)
        requires { to < length self.old }
        ensures { self.new ≡ slice_set self.old to (Some set) }
    {
        self.sets[to] = Some(set);
    }
}
