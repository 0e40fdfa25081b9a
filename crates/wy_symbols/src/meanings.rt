//! Names that stand for sets of atoms.

ghost use Rattle.std.specs.Prelude.{◌≡◌, [], ◌∷◌, ◌++◌, OnOk};
ghost use Rattle.std.specs.Option.{option_copied};
ghost use Rattle.wy_symbols.specs.Meanings.{meaning_of};

use crate::items::item;
use crate::scoping::Meaning;
use indexmap::IndexMap;
use std::alloc::Global;
use std::marker::Model;
use wy_text::text::{Memory, Text};

/// Names that stand for sets of atoms, in their order. The first of a name is found by a table.
#[derive(Drop)]
pub struct Meanings {
    list: Vec<Meaning>,
    numbers: IndexMap<Text, usize>,
}

impl Model for Meanings {
    ghost use Rattle.std.specs.Prelude.{◌≡◌, ℕ, List, map};
    ghost use Rattle.indexmap.specs.IndexMap.{get};
    ghost use Rattle.wy_symbols.specs.declared.scoping.Meaning.{Meaning};
    ghost use Rattle.wy_symbols.specs.Declarations.{same_name, first_from};
    ghost use Rattle.wy_symbols.specs.Meanings.{meaning_names};

    ghost Value = { List Meaning };

    ghost view = { λ m. m.list.items };

    ghost invariant = { λ m. (x : List ℕ) → get same_name m.numbers x ≡ first_from 0 (meaning_names m.list.items) x };
}

impl Meanings {
    /// No names. It takes no memory.
    pub fn new(alloc: Global) -> Meanings
        ensures { result ≡ [] }
    {
        Meanings {
            list: Vec::new(alloc),
            numbers: IndexMap::new(alloc),
        }
    }

    /// Adds a name at the end.
    pub fn push(&mut self, meaning: Meaning) -> Result<(), Memory>
        ensures { OnOk result (self.new ≡ self.old ++ meaning ∷ []) }
    {
        self.list.reserve(1)?;
        let number = self.list.len();
        if !self.numbers.contains_key(&meaning.name) {
            self.numbers.insert(meaning.name.copy()?, number)?;
        }
        self.list.push_reserved(meaning);
        Ok(())
    }

    /// The first of a name. It takes no memory.
    pub fn find(&self, name: &Text) -> Option<&Meaning>
        ensures { option_copied result ≡ meaning_of self.now name.now }
    {
        match self.numbers.get(name) {
            None => None,
            Some(number) => item(&self.list, *number),
        }
    }

    /// All of them, in order. It takes no memory.
    pub fn as_slice(&self) -> &[Meaning]
        ensures { result.now ≡ self.now }
    {
        &self.list
    }
}
