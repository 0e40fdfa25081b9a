//! Numbers below a bound with a mark for each, so that whether one is there costs one look.

ghost use Rattle.std.specs.Prelude.{◌≡◌, ◌<◌, ◌↔◌, ◌∷◌, [], ℕ, true, false, length, replicate, slice_index_or, slice_set, IsTrue, IfOk, OnOk};
ghost use Rattle.wy_text.specs.Members.{In};
ghost use Rattle.wy_heads.specs.Leading.{Adds, Numbers};

use std::alloc::Global;
use std::marker::Model;
use wy_text::list::Items;
use wy_text::text::Memory;

/// Whether each number below a bound has a mark.
#[derive(Drop)]
pub struct Marks {
    marks: Vec<bool>,
}

impl Model for Marks {
    ghost use Rattle.std.specs.Prelude.{Bool, List};

    ghost Value = { List Bool };

    ghost view = { λ m. m.marks.items };
}

impl Marks {
    /// Numbers without marks.
    fn none(alloc: Global, below: usize) -> Result<Marks, Memory>
        ensures { IfOk result (λ m. m ≡ replicate below false) }
    {
        Ok(Marks {
            marks: vec![in alloc; false; below]?,
        })
    }

    /// Whether a number has a mark. One that is not below the bound has none. It takes no memory.
    pub fn has(&self, number: usize) -> bool
        ensures { result ≡ slice_index_or self.now number false }
    {
        match self.marks.get(number) {
            Some(mark) => *mark,
            None => false,
        }
    }

    /// Marks a number.
    fn put(&mut self, number: usize)
        requires { number < length self.old }
        ensures { self.new ≡ slice_set self.old number true }
    {
        self.marks[number] = true;
    }
}

/// Numbers below a bound, each once, in the order in which they came.
#[derive(Drop)]
pub struct Marked {
    list: Items<usize>,
    marks: Marks,
}

impl Model for Marked {
    ghost use Rattle.std.specs.Prelude.{◌≡◌, ℕ, length, false, slice_index_or};
    ghost use Rattle.wy_effects.specs.EffSet.{has};
    ghost use Rattle.wy_heads.specs.Leading.{Numbers};

    ghost Value = { Numbers };

    ghost view = { λ m. record { below = length m.marks; list = m.list } };

    ghost invariant = { λ m. (k : ℕ) → has k m.list ≡ slice_index_or m.marks k false };
}

impl Marked {
    /// No numbers.
    pub fn new(alloc: Global, below: usize) -> Result<Marked, Memory>
        ensures { IfOk result (λ m. m ≡ record { below = below; list = [] }) }
    {
        Ok(Marked {
            list: Items::new(alloc),
            marks: Marks::none(alloc, below)?,
        })
    }

    /// Adds a number at the end, where it is not there.
    pub fn add(&mut self, number: usize) -> Result<(), Memory>
        requires { number < self.old.below }
        ensures bound { OnOk result (self.new.below ≡ self.old.below) }
        ensures added { OnOk result (Adds self.old.list (number ∷ []) self.new.list) }
    {
        if self.marks.has(number) {
            return Ok(());
        }
        self.list.push(number)?;
        self.marks.put(number);
        Ok(())
    }

    /// Adds each number that is not there.
    pub fn add_all(&mut self, numbers: &[usize]) -> Result<(), Memory>
        requires { (k : ℕ) → In k numbers.now → k < self.old.below }
        ensures bound { OnOk result (self.new.below ≡ self.old.below) }
        ensures added { OnOk result (Adds self.old.list numbers.now self.new.list) }
    {
        for number in numbers {
            self.add(*number)?;
        }
        Ok(())
    }

    /// The numbers. It takes no memory.
    pub fn as_slice(&self) -> &[usize]
        ensures { result.now ≡ self.now.list }
    {
        self.list.as_slice()
    }

    /// Only the numbers. It takes no memory.
    pub fn into_list(self) -> Items<usize>
        ensures { result ≡ self.list }
    {
        self.list
    }

    /// Only the marks. It takes no memory.
    pub fn into_marks(self) -> Marks
        ensures { (k : ℕ) → IsTrue (slice_index_or result k false) ↔ In k self.list }
    {
        self.marks
    }
}
