//! The state of a run: its stack and its store.

ghost use Rattle.std.specs.Prelude.{◌≡◌, ◌<◌, drop, length, Some, IsSome, unwrap_or};
ghost use Rattle.wy_code.specs.Machine.{first_of};
ghost use Rattle.wy_code.specs.Stores.{Nothing};
ghost use Rattle.wy_machine.specs.Stacks.{words_in, pushed, with_operands};
ghost use Rattle.wy_machine.specs.StoreStates.{value_of, value_written};
ghost use Rattle.wy_machine.specs.Words.{object_of};

use crate::stack::Stack;
use crate::store::Store;
use crate::word::Word;

/// The state of a run.
#[derive(Drop)]
pub struct Machine {
    pub stack: Stack,
    pub store: Store,
}

/// A value of the object that a word names; `None` exactly where there is none.
pub fn value(store: &Store, this: Word, at: usize) -> Option<Word>
    ensures { result ≡ value_of store.now this at }
{
    match this.object() {
        Some(object) => match store.object(object as usize) {
            Some(object) => object.value(at),
            None => None,
        },
        None => None,
    }
}

impl Machine {
    /// Pushes a value of the current object.
    pub fn get(&mut self, at: usize)
        requires value { IsSome (value_of self.old.store (first_of self.old.stack.running.slots) at) }
        requires room { words_in self.old.stack < self.old.stack.limits.words }
        ensures pushed { self.new.stack
            ≡ pushed (unwrap_or (value_of self.old.store (first_of self.old.stack.running.slots) at) Nothing) self.old.stack }
        ensures same { self.new.store ≡ self.old.store }
    {
        match value(&self.store, self.stack.this(), at) {
            Some(word) => self.stack.push(word),
            None => unreachable!(),
        }
    }

    /// Takes the topmost operand into a value of the current object.
    pub fn set(&mut self, at: usize)
        requires operand { 0 < length self.old.stack.running.operands }
        requires value { IsSome (value_of self.old.store (first_of self.old.stack.running.slots) at) }
        ensures popped { self.new.stack ≡ with_operands (drop 1 self.old.stack.running.operands) self.old.stack }
        ensures written { Some self.new.store
            ≡ value_written (object_of (first_of self.old.stack.running.slots)) at (first_of self.old.stack.running.operands) self.old.store }
    {
        let word = self.stack.pop();
        match self.stack.this().object() {
            Some(object) => self.store.set_value(object as usize, at, word),
            None => unreachable!(),
        }
    }
}
