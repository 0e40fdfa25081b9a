//! Values as the machine has them.

ghost use Rattle.std.specs.Prelude.{◌≡◌};
ghost use Rattle.wy_machine.specs.Words.{word_of, int_of, truth_of, text_of, object_of};

use std::marker::Model;

/// What a word is: a number, a truth value, the unit, or the number of a text, an object or a grant.
#[derive(Clone, Copy)]
pub enum WordKind {
    Int(i64),
    Truth(bool),
    Unit,
    Text(u32),
    Object(u32),
    Grant(u16),
}

/// A value as the machine has it. Contracts see it as the definition of a step does.
#[derive(Clone, Copy)]
pub struct Word {
    kind: WordKind,
}

impl Model for Word {
    ghost use Rattle.wy_code.specs.Stores as stores;

    ghost Value = { stores.Word };

    ghost use Rattle.std.proofs.Common.{ap};
    ghost use Rattle.wy_machine.specs.Words.{word_of, kind_of, kind_of-word_of};

    ghost view = { λ w. word_of w.kind };

    ghost inverse = { λ w. record { kind = kind_of w } };

    ghost inverse_ok = { λ w _. ap (λ kind. record { kind = kind }) (kind_of-word_of w.kind) };
}

impl Word {
    /// The word of a kind.
    pub fn new(kind: WordKind) -> Word
        ensures { result ≡ word_of kind }
    {
        Word { kind }
    }

    /// What it is.
    pub fn kind(self) -> WordKind
        ensures { self ≡ word_of result }
    {
        self.kind
    }

    /// The number that it is, if it is one.
    pub fn int(self) -> Option<i64>
        ensures { result ≡ int_of self }
    {
        match self.kind() {
            WordKind::Int(number) => Some(number),
            WordKind::Truth(_) => None,
            WordKind::Unit => None,
            WordKind::Text(_) => None,
            WordKind::Object(_) => None,
            WordKind::Grant(_) => None,
        }
    }

    /// The truth value that it is, if it is one.
    pub fn truth(self) -> Option<bool>
        ensures { result ≡ truth_of self }
    {
        match self.kind() {
            WordKind::Int(_) => None,
            WordKind::Truth(truth) => Some(truth),
            WordKind::Unit => None,
            WordKind::Text(_) => None,
            WordKind::Object(_) => None,
            WordKind::Grant(_) => None,
        }
    }

    /// The number of the text that it is, if it is one.
    pub fn text(self) -> Option<u32>
        ensures { result ≡ text_of self }
    {
        match self.kind() {
            WordKind::Int(_) => None,
            WordKind::Truth(_) => None,
            WordKind::Unit => None,
            WordKind::Text(text) => Some(text),
            WordKind::Object(_) => None,
            WordKind::Grant(_) => None,
        }
    }

    /// The number of the object that it is, if it is one.
    pub fn object(self) -> Option<u32>
        ensures { result ≡ object_of self }
    {
        match self.kind() {
            WordKind::Int(_) => None,
            WordKind::Truth(_) => None,
            WordKind::Unit => None,
            WordKind::Text(_) => None,
            WordKind::Object(object) => Some(object),
            WordKind::Grant(_) => None,
        }
    }
}
