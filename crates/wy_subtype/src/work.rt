ghost use Rattle.std.specs.Prelude.{◌≡◌, [], OnOk, IfOk, length};
ghost use Rattle.wy_subtype.specs.Work.{IsAdded, AreAdded, IsAlone};

use crate::entry::Entry;
use indexmap::IndexSet;
use std::alloc::Global;
use std::marker::Model;
use wy_text::text::Memory;

/// The numbers of the pairs that one question met, each once. Contracts see the list of them.
#[derive(Drop)]
pub struct Work {
    entries: Vec<Entry>,
    numbers: IndexSet<usize>,
}

impl Model for Work {
    ghost use Rattle.std.specs.Prelude.{◌≡◌, List, map};
    ghost use Rattle.wy_subtype.specs.declared.entry.Entry.{Entry};
    ghost use Rattle.wy_subtype.specs.Work.{entry_node};

    ghost Value = { List Entry };

    ghost view = { λ w. w.entries.items };

    ghost invariant = { λ w. w.numbers.keys ≡ map entry_node w.entries.items };
}

impl Work {
    /// The list of one pair.
    pub fn of(alloc: Global, node: usize) -> Result<Work, Memory>
        ensures { IfOk result (IsAlone node) }
    {
        let mut work = Work {
            entries: Vec::new(alloc),
            numbers: IndexSet::new(alloc),
        };
        work.add(node, 0)?;
        Ok(work)
    }

    /// How many pairs there are.
    pub fn len(&self) -> usize
        ensures { result ≡ length self.now }
    {
        self.entries.len()
    }

    /// The pairs, in the order in which they were met.
    pub fn as_slice(&self) -> &[Entry]
        ensures { result.now ≡ self.now }
    {
        self.entries.as_slice()
    }

    /// Adds a pair that wasn't met.
    fn add(&mut self, node: usize, parent: usize) -> Result<(), Memory>
        ensures { OnOk result (IsAdded self.old node parent self.new) }
    {
        if self.numbers.contains(&node) {
            return Ok(());
        }
        self.entries.reserve(1)?;
        self.numbers.insert(node)?;
        self.entries.push_reserved(Entry { node, parent });
        Ok(())
    }

    /// Adds each pair that wasn't met.
    pub fn add_all(&mut self, nodes: &[usize], parent: usize) -> Result<(), Memory>
        ensures { OnOk result (AreAdded self.old nodes.now parent self.new) }
    {
        for node in nodes {
            self.add(*node, parent)?;
        }
        Ok(())
    }
}
