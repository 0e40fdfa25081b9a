ghost use Rattle.std.specs.Prelude.{◌≡◌, ◌++◌, [], ◌∷◌, List, ℕ, OnOk, OnErr, length, slice_get, IsTrue, ◌↔◌, Contains};
ghost use Rattle.std.specs.Option.{option_copied};

use crate::text::Memory;
use std::alloc::Global;
use std::marker::Model;

/// A list, which grows at its end. The lists of the public types are all of this type.
#[derive(Drop)]
pub struct Items<X> {
    items: Vec<X>,
}

/// The numbers of the calls that an object in memory is to fail, counted from 1.
pub type CallList = Items<u64>;

impl<X> Model for Items<X> {
    ghost Value = { List X };

    ghost view = { λ l. l.items.items };
}

impl<X> Items<X> {
    /// The empty list. It takes no memory.
    pub fn new(alloc: Global) -> Items<X>
        ensures { result ≡ [] }
    {
        Items {
            items: Vec::new(alloc),
        }
    }

    /// Adds an item at the end. Where memory is wanting the list is as it was, and the item is dropped.
    pub fn push(&mut self, item: X) -> Result<(), Memory>
    where
        X: Drop,
        ensures ok { OnOk result (self.new ≡ self.old ++ item ∷ []) }
        ensures refused { OnErr result (self.new ≡ self.old) }
    {
        self.items.push(item)?;
        Ok(())
    }

    /// How many items there are. It takes no memory.
    pub fn len(&self) -> usize
        ensures { result ≡ length self.now }
    {
        self.items.len()
    }

    /// Whether there is no item. It takes no memory.
    pub fn is_empty(&self) -> bool
        ensures { IsTrue result ↔ (self.now ≡ []) }
    {
        self.items.is_empty()
    }

    /// The items, in order. It takes no memory.
    pub fn as_slice(&self) -> &[X]
        ensures { result.now ≡ self.now }
    {
        self.items.as_slice()
    }

    /// The item at a place, counted from 0; `None` exactly where the place is not below `len`.
    /// It takes no memory.
    pub fn get(&self, at: usize) -> Option<&X>
        ensures { option_copied result ≡ slice_get self.now at }
    {
        self.items.get(at)
    }
}

impl Items<u64> {
    /// Whether a number is in the list. It takes no memory.
    pub fn contains(&self, number: u64) -> bool
        ensures { IsTrue result ↔ Contains self.now number }
    {
        self.items.contains(&number)
    }
}
