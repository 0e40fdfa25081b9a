//! The objects and the texts of a run.

ghost use Rattle.std.specs.Prelude.{◌≡◌, ◌^◌, ◌<◌, ◌≤◌, ◌+◌, ◌-◌, ◌++◌, ◌∷◌, [], length, take, slice_get, OnOk, IfOk, IsSome, Some};
ghost use Rattle.std.specs.Option.{option_copied};
ghost use Rattle.wy_code.specs.Stores.{value_in};
ghost use Rattle.wy_machine.specs.StoreStates.{store_with, with_object, object_set, AreKept};

use crate::object::Object;
use crate::word::Word;
use std::alloc::Global;
use std::marker::Model;
use wy_text::text::{Memory, Text, from_bytes};

/// The objects and the texts of a run.
#[derive(Drop)]
pub struct Store {
    objects: Vec<Object>,
    first: Vec<Object>,
    made: u64,
    texts: Vec<Text>,
    next: usize,
}

impl Model for Store {
    ghost use Rattle.wy_machine.specs.StoreStates.{AreKept};
    ghost use Rattle.wy_machine.specs.StoreState.{StoreState};

    ghost Value = { StoreState };

    ghost view = { λ s. record { objects = s.objects.items; made = s.made; texts = s.texts.items; next = s.next; first = s.first.items } };

    ghost invariant = { λ s. AreKept s.first.items s.objects.items };
}

/// Gives each of some objects the values that it had at first. It takes no memory.
fn refill(objects: &mut Vec<Object>, first: &[Object])
    requires kept { AreKept first.now objects.old.items }
    requires all { length objects.old.items ≤ length first.now }
    ensures { objects.new.items ≡ first.now }
{
    for at in 0..first.len() {
        objects[at].refill(&first[at]);
    }
}

impl Store {
    /// The store of runs that have these objects at first, which stand there twice. It takes no memory.
    pub fn new(alloc: Global, objects: Vec<Object>, first: Vec<Object>) -> Store
        requires { objects.items ≡ first.items }
        ensures { result ≡ store_with first.items }
    {
        Store {
            objects,
            first,
            made: 0,
            texts: Vec::new(alloc),
            next: 0,
        }
    }

    /// Makes ready for a run, with nothing left of an earlier one. It takes no memory.
    pub fn restart(&mut self)
        ensures { self.new ≡ store_with self.old.first }
    {
        self.objects.truncate(self.first.len());
        refill(&mut self.objects, self.first.as_slice());
        self.made = 0;
        self.texts.clear();
        self.next = 0;
    }

    /// The allocator of its texts.
    pub fn alloc(&self) -> Global {
        *self.texts.allocator()
    }

    /// The object of a number; `None` exactly where there is none.
    pub fn object(&self, at: usize) -> Option<&Object>
        ensures { option_copied result ≡ slice_get self.now.objects at }
    {
        self.objects.get(at)
    }

    /// How many objects there are.
    pub fn objects(&self) -> usize
        ensures { result ≡ length self.now.objects }
    {
        self.objects.len()
    }

    /// How many objects `New` made.
    pub fn made(&self) -> u64
        ensures { result ≡ self.now.made }
    {
        self.made
    }

    /// One more object that `New` made.
    pub fn make_object(&mut self, object: Object) -> Result<(), Memory>
        requires { self.old.made < 2 ^ 63 }
        ensures made { OnOk result (self.new ≡ record (with_object object self.old) { made = self.old.made + 1 }) }
        ensures first { self.new.first ≡ self.old.first }
    {
        self.objects.push(object)?;
        self.made += 1;
        Ok(())
    }

    /// Writes a value of an object.
    pub fn set_value(&mut self, object: usize, at: usize, word: Word)
        requires { IsSome (value_in (slice_get self.old.objects object) at) }
        ensures { Some self.new ≡ object_set object at word self.old (slice_get self.old.objects object) }
    {
        self.objects[object].set(at, word);
    }

    /// The text of a number among those that were built; `None` exactly where there is none.
    pub fn text(&self, at: usize) -> Option<&Text>
        ensures { option_copied result ≡ slice_get self.now.texts at }
    {
        self.texts.get(at)
    }

    /// How many texts were built.
    pub fn built(&self) -> usize
        ensures { result ≡ length self.now.texts }
    {
        self.texts.len()
    }

    /// One more text.
    pub fn add_text(&mut self, text: Text) -> Result<(), Memory>
        ensures added { OnOk result (self.new ≡ record self.old { texts = self.old.texts ++ text ∷ [] }) }
        ensures first { self.new.first ≡ self.old.first }
    {
        self.texts.push(text)?;
        Ok(())
    }

    /// The place of one more text, which is still to come.
    pub fn make_room(&mut self) -> Result<(), Memory>
        ensures made { IfOk result (λ _. self.new ≡ record self.old { texts = self.old.texts ++ [] ∷ [] }) }
        ensures first { self.new.first ≡ self.old.first }
    {
        let text = from_bytes(*self.texts.allocator(), b"")?;
        self.texts.push(text)?;
        Ok(())
    }

    /// Puts a text where the last one is.
    pub fn fill_room(&mut self, text: Text)
        requires { 0 < length self.old.texts }
        ensures { self.new ≡ record self.old { texts = take (length self.old.texts - 1) self.old.texts ++ text ∷ [] } }
    {
        let at = self.texts.len() - 1;
        self.texts[at] = text;
    }

    /// The number of the instance that starts next.
    pub fn next(&self) -> usize
        ensures { result ≡ self.now.next }
    {
        self.next
    }

    /// The instance after that starts next.
    pub fn count_next(&mut self)
        requires { self.old.next < 2 ^ 32 }
        ensures { self.new ≡ record self.old { next = self.old.next + 1 } }
    {
        self.next += 1;
    }
}
