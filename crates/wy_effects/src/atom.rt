ghost use Rattle.std.specs.Prelude.{◌≡◌, List, [], length, slice_get};
ghost use Rattle.std.specs.Option.{option_copied};
ghost use Rattle.wy_effects.specs.AtomTable.{Inserts, atom_name};

use indexmap::IndexSet;
use std::alloc::Global;
use std::marker::Model;
use wy_text::fault::AtomName;
use wy_text::limit::{LimitName, MOST_ATOMS};
use wy_text::text::Text;

/// An effect of one scope, as its number in the scope's table (docs/LANGUAGE.md, "Effects and types").
#[derive(Clone, Copy, Debug, PartialEq, Eq)]
pub struct Atom(pub u16);

/// Why a name isn't put into a table.
#[derive(Debug, Drop, PartialEq, Eq)]
pub enum TableRefusal {
    /// The name is new, and the table has as many as it may.
    Limit(LimitName),
    Memory,
}

/// The names of a scope's atoms, each once, in the order of insertion; at most 512.
#[derive(Drop)]
pub struct AtomTable {
    names: IndexSet<AtomName>,
}

impl Model for AtomTable {
    ghost use Rattle.std.specs.Prelude.{List, ◌≤◌, length};
    ghost use Rattle.wy_text.specs.declared.fault.AtomName.{AtomName};

    ghost Value = { List AtomName };

    ghost view = { λ t. t.names.keys };

    ghost invariant = { λ t. length t.names.keys ≤ 512 };
}

impl AtomTable {
    /// The empty table. It takes no memory.
    pub fn new(alloc: Global) -> AtomTable
        ensures { result ≡ [] }
    {
        AtomTable {
            names: IndexSet::new(alloc),
        }
    }

    /// How many names there are. It takes no memory.
    pub fn len(&self) -> usize
        ensures { result ≡ length self.now }
    {
        self.names.len()
    }

    /// The name of an atom; `None` exactly where its number is not below `len`. It takes no memory.
    pub fn name(&self, atom: Atom) -> Option<&AtomName>
        ensures { option_copied result ≡ slice_get self.now atom.0 }
    {
        self.names.get_index(atom.0 as usize)
    }

    /// The number of the name that has this owner and member; a new name is added last. Where the
    /// name isn't added, the two texts are dropped. `Limit` comes exactly where the name is new and
    /// 512 are there (docs/LANGUAGE.md, "Limits"). A refused call leaves the table as it was.
    pub fn insert(&mut self, owner: Text, member: Text) -> Result<Atom, TableRefusal>
        ensures { Inserts self.old (atom_name owner member) self.new result }
    {
        let name = AtomName { owner, member };
        if let Some(at) = self.names.get_index_of(&name) {
            return Ok(Atom(at as u16));
        }
        if self.names.len() >= MOST_ATOMS {
            return Err(TableRefusal::Limit(LimitName::Atoms));
        }
        match self.names.insert_full(name) {
            Ok((at, _)) => Ok(Atom(at as u16)),
            Err(_) => Err(TableRefusal::Memory),
        }
    }
}
