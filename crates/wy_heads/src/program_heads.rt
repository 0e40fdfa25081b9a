//! What stands in front of the program's block: its owners and own names, and their refusals
//! (docs/LANGUAGE.md, "Names").

ghost use Rattle.std.specs.Prelude.{◌≡◌, ◌≤◌, ◌++◌, [], IfOk, OnOk, map};
ghost use Rattle.wy_symbols.specs.Least.{noted};
ghost use Rattle.wy_symbols.specs.Atoms.{atom_scope};
ghost use Rattle.wy_heads.specs.ScopeHeads.{program_owners, program_atoms, program_own};
ghost use Rattle.wy_heads.specs.Fronts.{program_front};
ghost use Rattle.wy_symbols.specs.Lent.{module_tree, program_tree};

use crate::behind::{add_behind, note_behind};
use crate::definitions::note_grants;
use crate::module_heads::note_words;
use crate::module_index::ModuleIndex;
use crate::own_names::add_grants;
use crate::owners::program_owners;
use std::alloc::Global;
use wy_symbols::{Heads, Owners, Refusal};
use wy_syntax::items::Program;
use wy_text::list::Items;
use wy_text::text::Memory;
use wy_types::resolved::OwnName;

/// The owners of the program with their atoms.
pub fn program_owners_of<'a>(
    alloc: Global,
    heads: &'a Heads,
    modules: &ModuleIndex,
    program: &Program,
) -> Result<Owners<'a>, Memory>
    ensures { IfOk result (λ o. o ≡ atom_scope heads.now (program_atoms heads.now (map module_tree modules.now) (program_tree program.now)) (program_owners heads.now (map module_tree modules.now) (program_tree program.now)) []) }
{
    let list = program_owners(alloc, heads.names(), modules, program)?;
    Owners::new(alloc, heads, list.as_slice())
}

/// The program's own names.
pub fn program_own(
    alloc: Global,
    owners: &Owners,
    modules: &ModuleIndex,
    program: &Program,
) -> Result<Items<OwnName>, Memory>
    requires { owners.now ≡ atom_scope owners.now.heads (program_atoms owners.now.heads (map module_tree modules.now) (program_tree program.now)) (program_owners owners.now.heads (map module_tree modules.now) (program_tree program.now)) [] }
    ensures { IfOk result (λ ns. ns ≡ program_own owners.now.heads (map module_tree modules.now) (program_tree program.now)) }
{
    let mut list = Items::new(alloc);
    let (grants, uses) = (program.grants.as_slice(), program.uses.as_slice());
    let lines = program.lines.as_slice();
    add_grants(alloc, &mut list, owners, grants)?;
    add_behind(alloc, &mut list, owners, modules, grants.len(), uses, lines)?;
    Ok(list)
}

/// Notes the refusals of the program's head, up to its lines.
pub fn note_program(
    alloc: Global,
    owners: &Owners,
    modules: &ModuleIndex,
    program: &Program,
    least: &mut Option<Refusal>,
) -> Result<(), Memory>
    requires { owners.now ≡ atom_scope owners.now.heads (program_atoms owners.now.heads (map module_tree modules.now) (program_tree program.now)) (program_owners owners.now.heads (map module_tree modules.now) (program_tree program.now)) [] }
    ensures { OnOk result (least.new ≡ noted least.old (program_front owners.now.heads (map module_tree modules.now) (program_tree program.now))) }
{
    let (grants, uses) = (program.grants.as_slice(), program.uses.as_slice());
    let lines = program.lines.as_slice();
    note_words(alloc, grants, uses, lines, least)?;
    note_grants(owners.heads().names(), grants, least);
    note_behind(alloc, owners, modules, grants.len(), uses, lines, least);
    Ok(())
}
