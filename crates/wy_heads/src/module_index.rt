//! The modules of a program with the numbers of their names.

ghost use Rattle.std.specs.Prelude.{◌≡◌, ◌≤◌, ◌<◌, map, length, IfOk, IfSome};
ghost use Rattle.wy_symbols.specs.Declarations.{module_number};
ghost use Rattle.wy_symbols.specs.Lent.{module_tree};
ghost use Rattle.wy_heads.specs.Lines.{number_or_zero};

use std::alloc::Global;
use std::marker::Model;
use wy_symbols::{ModuleView, Table, module_table};
use wy_text::text::{Memory, Text};

/// The modules of a program, at most 256, in the order of their numbers. The number of a name is found by a table.
/// Contracts see the modules as they stand in their trees.
#[derive(Drop)]
pub struct ModuleIndex<'a> {
    numbers: Table,
    views: &'a [ModuleView<'a>],
}

impl<'a> Model for ModuleIndex<'a> {
    ghost use Rattle.std.specs.Prelude.{◌≡◌, ◌≤◌, List, map, length};
    ghost use Rattle.std.specs.Coded.{codes};
    ghost use Rattle.wy_syntax.specs.contracts.statements.Part as part;
    ghost use Rattle.wy_symbols.specs.declared.gathering.ModuleView.{ModuleView};
    ghost use Rattle.wy_symbols.specs.Declarations.{module_names, texts};
    ghost use Rattle.wy_symbols.specs.Lent.{module_tree};

    ghost Value = { List ModuleView };

    ghost coded = { Prim.hlevel (codes, part.the_row.coded) };

    ghost view = { λ i. i.views.now };

    ghost invariant = { λ i. (i.numbers ≡ texts (module_names (map module_tree i.views.now))) × (length i.views.now ≤ 256) };
}

impl<'a> ModuleIndex<'a> {
    /// These modules with a table of their names.
    pub fn new(alloc: Global, views: &'a [ModuleView<'a>]) -> Result<ModuleIndex<'a>, Memory>
        requires { length views.now ≤ 256 }
        ensures { IfOk result (λ i. i ≡ views.now) }
    {
        let numbers = module_table(alloc, views)?;
        Ok(ModuleIndex { numbers, views })
    }

    /// The modules, in the order of their numbers. It takes no memory.
    pub fn views(&self) -> &'a [ModuleView<'a>]
        ensures { result.now ≡ self.now }
    {
        self.views
    }

    /// The number of the first of a name. It takes no memory.
    pub fn number(&self, name: &Text) -> Option<usize>
        ensures value { result ≡ module_number (map module_tree self.now) name.now }
        ensures within { IfSome result (λ k. k < length self.now) }
    {
        self.numbers.number(name)
    }

    /// The number of the first of a name; 0 where there is none. It takes no memory.
    pub fn number_or_zero(&self, name: &Text) -> u16
        ensures { result ≡ number_or_zero (module_number (map module_tree self.now) name.now) }
    {
        match self.numbers.number(name) {
            None => 0,
            Some(number) => number as u16,
        }
    }
}
