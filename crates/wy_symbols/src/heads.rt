//! The types of a program by their names and numbers.

ghost use Rattle.std.specs.Prelude.{◌≡◌, ◌≤◌, [], length, slice_get, IfOk};
ghost use Rattle.std.specs.Option.{option_copied};
ghost use Rattle.wy_symbols.specs.Atoms.{head_names, type_number};
ghost use Rattle.wy_types.specs.Primitive.{most_types};

use crate::items::item;
use crate::scoping::Head;
use crate::tables::Table;
use std::alloc::Global;
use std::marker::Model;
use wy_text::text::{Memory, Text};

/// The types of a program with their members, by their numbers: the primitive ones, and then the declared
/// ones in file order. A name is found by a table.
#[derive(Drop)]
pub struct Heads {
    list: Vec<Head>,
    names: Table,
}

impl Model for Heads {
    ghost use Rattle.std.specs.Prelude.{◌≡◌, ◌≤◌, List, length};
    ghost use Rattle.wy_symbols.specs.declared.scoping.Head.{Head};
    ghost use Rattle.wy_symbols.specs.Atoms.{head_names};
    ghost use Rattle.wy_types.specs.Primitive.{most_types};

    ghost Value = { List Head };

    ghost view = { λ h. h.list.items };

    ghost invariant = { λ h. (h.names ≡ head_names h.list.items) × (length h.list.items ≤ most_types) };
}

impl Heads {
    /// These types, with the table of their names.
    pub fn new(list: Vec<Head>, names: Table) -> Heads
        requires named { names ≡ head_names list.items }
        requires few { length list.items ≤ most_types }
        ensures { result ≡ list.items }
    {
        Heads { list, names }
    }

    /// No types.
    pub fn none(alloc: Global) -> Result<Heads, Memory>
        ensures { IfOk result (λ h. h ≡ []) }
    {
        Ok(Heads {
            list: Vec::new(alloc),
            names: Table::new(alloc, Vec::new(alloc))?,
        })
    }

    /// The names, in the order of the numbers. It takes no memory.
    pub fn names(&self) -> &Table
        ensures named { result.now ≡ head_names self.now }
        ensures few { length result.now ≤ most_types }
    {
        &self.names
    }

    /// The number of the type of a name. It takes no memory.
    pub fn number(&self, name: &Text) -> Option<u16>
        ensures { result ≡ type_number (head_names self.now) name.now }
    {
        match self.names.number(name) {
            None => None,
            Some(number) => Some(number as u16),
        }
    }

    /// The type of a number. It takes no memory.
    pub fn head(&self, number: u16) -> Option<&Head>
        ensures { option_copied result ≡ slice_get self.now number }
    {
        item(&self.list, number as usize)
    }
}
