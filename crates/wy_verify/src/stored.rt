//! The slots of `val` statements that are stored.

ghost use Rattle.std.specs.Prelude.{◌≡◌, ◌↔◌, ◌≤◌, ◌<◌, [], ◌∷◌, ℕ, true, false, Some, length, slice_get, slice_index_or, slice_set, IsTrue, OnOk};
ghost use Rattle.wy_text.specs.Members.{Within};
ghost use Rattle.wy_verified.specs.Walking.{is_in, with_slot};

use std::alloc::Global;
use std::marker::Model;
use wy_text::list::Items;
use wy_text::text::Memory;

/// Whether each number has a mark.
#[derive(Drop)]
pub struct Marks {
    marks: Vec<bool>,
}

impl Model for Marks {
    ghost use Rattle.std.specs.Prelude.{Bool, List};

    ghost Value = { List Bool };

    ghost view = { λ m. m.marks.items };
}

impl Marks {
    /// No mark.
    fn new(alloc: Global) -> Marks
        ensures { result ≡ [] }
    {
        Marks {
            marks: Vec::new(alloc),
        }
    }

    /// Whether a number has a mark.
    fn has(&self, number: usize) -> bool
        ensures { result ≡ slice_index_or self.now number false }
    {
        match self.marks.get(number) {
            Some(mark) => *mark,
            None => false,
        }
    }

    /// Makes room for the marks of the numbers below `len`.
    fn reach(&mut self, len: usize) -> Result<(), Memory>
        ensures same { (k : ℕ) → slice_index_or self.new k false ≡ slice_index_or self.old k false }
        ensures long { OnOk result (len ≤ length self.new) }
    {
        if len > self.marks.len() {
            self.marks.resize(len, false)?;
        }
        Ok(())
    }

    /// Marks a number.
    fn put(&mut self, number: usize)
        requires { number < length self.old }
        ensures { self.new ≡ slice_set self.old number true }
    {
        self.marks[number] = true;
    }

    /// Takes all marks away.
    fn clear(&mut self)
        ensures { self.new ≡ [] }
    {
        self.marks.clear();
    }
}

/// Stored slots, with a mark for each. Contracts see their list, the latest first.
#[derive(Drop)]
pub struct Stored {
    slots: Vec<u32>,
    marks: Marks,
}

impl Model for Stored {
    ghost use Rattle.std.specs.Prelude.{ℕ, List, reverse};
    ghost use Rattle.wy_verify.specs.Sites.{AreMarked};

    ghost Value = { List ℕ };

    ghost view = { λ s. reverse s.slots.items };

    ghost invariant = { λ s. AreMarked (reverse s.slots.items) s.marks };
}

impl Stored {
    /// No slots.
    pub fn new(alloc: Global) -> Stored
        ensures { result ≡ [] }
    {
        Stored {
            slots: Vec::new(alloc),
            marks: Marks::new(alloc),
        }
    }

    /// Whether a slot is stored.
    pub fn has(&self, slot: u32) -> bool
        ensures { result ≡ is_in slot self.now }
    {
        self.marks.has(slot as usize)
    }

    /// Adds a slot.
    fn put(&mut self, slot: u32) -> Result<(), Memory>
        ensures { OnOk result (self.new ≡ slot ∷ self.old) }
    {
        let at = slot as usize;
        self.marks.reach(at + 1)?;
        self.slots.push(slot)?;
        self.marks.put(at);
        Ok(())
    }

    /// Adds a slot that is not stored.
    pub fn add(&mut self, slot: u32) -> Result<(), Memory>
        ensures { OnOk result (self.new ≡ with_slot slot self.old) }
    {
        if self.has(slot) {
            return Ok(());
        }
        self.put(slot)
    }

    /// Takes all slots away.
    fn clear(&mut self)
        ensures { self.new ≡ [] }
    {
        self.slots.clear();
        self.marks.clear();
    }

    /// Has these slots from now on.
    pub fn assign(&mut self, slots: &Items<u32>) -> Result<(), Memory>
        ensures { OnOk result (self.new ≡ slots.now) }
    {
        self.clear();
        let count = slots.len();
        for index in 0..count {
            self.put(number_at(slots, count - 1 - index))?;
        }
        Ok(())
    }

    /// Whether each of these slots is stored.
    pub fn has_all(&self, slots: &Items<u32>) -> bool
        ensures { IsTrue result ↔ Within slots.now self.now }
    {
        for index in 0..slots.len() {
            if !self.has(number_at(slots, index)) {
                return false;
            }
        }
        true
    }
}

/// The number at a place of a list.
fn number_at(numbers: &Items<u32>, at: usize) -> u32
    requires { at < length numbers.now }
    ensures { slice_get numbers.now at ≡ Some result }
{
    let Some(number) = numbers.get(at) else {
        unreachable!()
    };
    *number
}
