//! What stands behind the parameters or grants of a scope, its used modules and then its lines: their own names and their
//! refusals (docs/LANGUAGE.md, "Names").

ghost use Rattle.std.specs.Prelude.{◌≡◌, ◌<◌, ◌+◌, ◌^◌, ◌++◌, map, take, drop, length, OnOk};
ghost use Rattle.wy_symbols.specs.Least.{noted};
ghost use Rattle.wy_heads.specs.Lines.{use_name, line_names, uses_refusals, lines_refusals};
ghost use Rattle.wy_heads.specs.ScopeHeads.{use_owners, line_owners};
ghost use Rattle.wy_symbols.specs.Lent.{module_tree};

use crate::lines::{add_lines, note_lines, note_uses};
use crate::module_index::ModuleIndex;
use crate::own_names::add_uses;
use std::alloc::Global;
use wy_symbols::{Owners, Refusal};
use wy_syntax::items::Line;
use wy_syntax::types::Name;
use wy_text::list::Items;
use wy_text::text::Memory;
use wy_types::resolved::OwnName;

/// Adds the used modules and the lines of a scope, whose owners stand behind so many others.
pub fn add_behind(
    alloc: Global,
    list: &mut Items<OwnName>,
    owners: &Owners,
    modules: &ModuleIndex,
    before: usize,
    uses: &[Name],
    lines: &[Line],
) -> Result<(), Memory>
    requires fits { before + (length uses.now + length lines.now) < 2 ^ 64 }
    requires behind { drop before owners.now.owners ≡ use_owners owners.now.heads (map module_tree modules.now) uses.now ++ line_owners owners.now.heads (map module_tree modules.now) lines.now }
    ensures { OnOk result (list.new ≡ list.old ++ (map (use_name owners.now.heads (map module_tree modules.now) owners.now.atoms) uses.now ++ line_names owners.now.heads (map module_tree modules.now) owners.now.atoms (take before owners.now.owners ++ use_owners owners.now.heads (map module_tree modules.now) uses.now) lines.now)) }
{
    let first = before + uses.len();
    add_uses(alloc, list, owners, modules, before, uses)?;
    add_lines(alloc, list, owners, modules, first, lines)?;
    Ok(())
}

/// Notes the refusals of the used modules and the lines of a scope, whose owners stand behind so many others.
pub fn note_behind(
    alloc: Global,
    owners: &Owners,
    modules: &ModuleIndex,
    before: usize,
    uses: &[Name],
    lines: &[Line],
    least: &mut Option<Refusal>,
)
    requires fits { before + (length uses.now + length lines.now) < 2 ^ 64 }
    requires behind { drop before owners.now.owners ≡ use_owners owners.now.heads (map module_tree modules.now) uses.now ++ line_owners owners.now.heads (map module_tree modules.now) lines.now }
    ensures { least.new ≡ noted least.old (uses_refusals owners.now.heads (map module_tree modules.now) owners.now.atoms uses.now ++ lines_refusals owners.now.heads (map module_tree modules.now) owners.now.atoms (take before owners.now.owners ++ use_owners owners.now.heads (map module_tree modules.now) uses.now) lines.now) }
{
    let first = before + uses.len();
    note_uses(modules, uses, least);
    note_lines(alloc, owners, modules, first, lines, least);
}
