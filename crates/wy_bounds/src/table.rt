ghost use Rattle.std.specs.Prelude.{◌≡◌, [], OnOk, length};
ghost use Rattle.wy_bounds.specs.Table.{IsAdded, AreAdded};

use crate::entry::Entry;
use indexmap::IndexSet;
use std::alloc::Global;
use std::marker::Model;
use wy_text::text::Memory;
use wy_types::key::{Key, key_of_mark};

/// Entries, no two of which have the same type and polarity. Contracts see the list of them.
#[derive(Drop)]
pub struct Table {
    entries: Vec<Entry>,
    keys: IndexSet<Key>,
}

impl Model for Table {
    ghost use Rattle.std.specs.Prelude.{◌≡◌, List, map};
    ghost use Rattle.wy_bounds.specs.declared.entry.Entry.{Entry};
    ghost use Rattle.wy_bounds.specs.Table.{entry_key};

    ghost Value = { List Entry };

    ghost view = { λ t. t.entries.items };

    ghost invariant = { λ t. t.keys.keys ≡ map entry_key t.entries.items };
}

impl Table {
    /// The empty table.
    pub fn new(alloc: Global) -> Table
        ensures { result ≡ [] }
    {
        Table {
            entries: Vec::new(alloc),
            keys: IndexSet::new(alloc),
        }
    }

    /// How many entries there are.
    pub fn len(&self) -> usize
        ensures { result ≡ length self.now }
    {
        self.entries.len()
    }

    /// The entries, in the order in which they were added.
    pub fn as_slice(&self) -> &[Entry]
        ensures { result.now ≡ self.now }
    {
        self.entries.as_slice()
    }

    /// Adds an entry at the end, where none of its type and polarity is there.
    pub fn add(&mut self, entry: Entry) -> Result<(), Memory>
        ensures { OnOk result (IsAdded self.old entry self.new) }
    {
        let alloc = *self.entries.allocator();
        self.entries.reserve(1)?;
        let key = key_of_mark(alloc, &entry.typ, entry.positive)?;
        if self.keys.insert(key)? {
            self.entries.push_reserved(entry);
        }
        Ok(())
    }

    /// Adds one entry after another.
    pub fn add_all(&mut self, entries: Vec<Entry>) -> Result<(), Memory>
        ensures { OnOk result (AreAdded self.old entries.items self.new) }
    {
        for entry in entries {
            self.add(entry)?;
        }
        Ok(())
    }
}
