//! The names of types and modules as tables.

ghost use Rattle.std.specs.Prelude.{◌≡◌, ◌++◌, ◌∷◌, [], List, map, IfOk, OnOk};
ghost use Rattle.wy_symbols.specs.Declarations.{module_names, texts};
ghost use Rattle.wy_symbols.specs.Atoms.{all_names, primitive_names};
ghost use Rattle.wy_symbols.specs.Lent.{lent_type, module_tree};

use crate::gathering::ModuleView;
use crate::tables::{Table, add_texts, name_table};
use std::alloc::Global;
use wy_syntax::items::TypeDecl;
use wy_text::text::{Memory, Text, from_bytes};

fn add_name(alloc: Global, names: &mut Vec<Text>, name: &str) -> Result<(), Memory>
    ensures { OnOk result (names.new.items ≡ names.old.items ++ name.now ∷ []) }
{
    names.push(from_bytes(alloc, name.as_bytes())?)?;
    Ok(())
}

/// The names of the primitive types, in the order of their numbers.
pub fn primitive_names(alloc: Global) -> Result<Vec<Text>, Memory>
    ensures { IfOk result (λ ns. ns.items ≡ primitive_names) }
{
    let mut names = Vec::new(alloc);
    add_name(alloc, &mut names, "Console")?;
    add_name(alloc, &mut names, "Folder")?;
    add_name(alloc, &mut names, "Clock")?;
    add_name(alloc, &mut names, "Random")?;
    add_name(alloc, &mut names, "FullFolder")?;
    Ok(names)
}

/// The names of all types, by their numbers.
#[tactic(auto, using(crate::proofs::NamesOfThings::types_named))]
pub fn type_table(alloc: Global, types: &[&TypeDecl]) -> Result<Table, Memory>
    ensures { IfOk result (λ t. t ≡ all_names (map lent_type types.now)) }
{
    let mut names = primitive_names(alloc)?;
    add_texts(&mut names, types)?;
    Table::new(alloc, names)
}

/// The names of all modules, by their numbers.
#[tactic(auto, using(crate::proofs::NamesOfThings::modules_named))]
pub fn module_table(alloc: Global, modules: &[ModuleView]) -> Result<Table, Memory>
    ensures { IfOk result (λ t. t ≡ texts (module_names (map module_tree modules.now))) }
{
    name_table(alloc, modules)
}
