//! Objects: an instance's own, or one of its object literals.

ghost use Rattle.std.specs.Prelude.{◌≡◌, ◌<◌, length, slice_get, slice_set};

use crate::word::Word;
use std::marker::Model;

/// An object of an instance's module or of one of its object literals, with its values.
#[derive(Drop)]
pub struct Object {
    instance: u32,
    literal: u32,
    values: Vec<Word>,
}

impl Model for Object {
    ghost use Rattle.wy_code.specs.Stores.{Thing};

    ghost Value = { Thing };

    ghost view = { λ o. record { instance = o.instance; literal = o.literal; values = o.values.items } };
}

impl Object {
    /// The object with these values.
    pub fn new(instance: u32, literal: u32, values: Vec<Word>) -> Object
        ensures { result ≡ record { instance = instance; literal = literal; values = values.items } }
    {
        Object {
            instance,
            literal,
            values,
        }
    }

    /// The number of its instance.
    pub fn instance(&self) -> u32
        ensures { result ≡ self.now.instance }
    {
        self.instance
    }

    /// The number of its literal in the instance's scope.
    pub fn literal(&self) -> u32
        ensures { result ≡ self.now.literal }
    {
        self.literal
    }

    /// A value, counted from 0; `None` exactly where it has no such value.
    pub fn value(&self, at: usize) -> Option<Word>
        ensures { result ≡ slice_get self.now.values at }
    {
        self.values.get(at).copied()
    }

    /// Writes a value.
    pub fn set(&mut self, at: usize, word: Word)
        requires { at < length self.old.values }
        ensures { self.new ≡ record self.old { values = slice_set self.old.values at word } }
    {
        self.values[at] = word;
    }

    /// Writes each of its values, as another object with as many has it. It takes no memory.
    pub fn refill(&mut self, from: &Object)
        requires { length self.old.values ≡ length from.now.values }
        ensures { self.new ≡ record self.old { values = from.now.values } }
    {
        self.values.copy_from_slice(from.values.as_slice());
    }
}
