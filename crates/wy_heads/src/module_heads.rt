//! What stands in front of a module's bodies: its owners, own names and definitions, and their refusals
//! (docs/LANGUAGE.md, "Names").

ghost use Rattle.std.specs.Prelude.{◌≡◌, ◌≤◌, ◌++◌, [], map, take, length, IfOk, OnOk};
ghost use Rattle.wy_types.specs.Types.{is_plain};
ghost use Rattle.wy_symbols.specs.Least.{noted};
ghost use Rattle.wy_symbols.specs.Declarations.{texts, repeated};
ghost use Rattle.wy_symbols.specs.Atoms.{head_names, type_number, atom_scope};
ghost use Rattle.wy_symbols.specs.TypeUses.{lacking, not_abstract};
ghost use Rattle.wy_heads.specs.Fronts.{front_refusals};
ghost use Rattle.wy_heads.specs.Lines.{param_refusals, uses_refusals};
ghost use Rattle.wy_heads.specs.ScopeHeads.{line_words, define_names, param_scope, module_owners, module_atoms, module_meanings, module_scope, module_own, definitions_after, definitions_at, definitions_refusals, sealed_refusals};
ghost use Rattle.wy_symbols.specs.Lent.{module_tree};

use crate::behind::{add_behind, note_behind};
use crate::definitions::{definitions_for, note_params, read_definitions};
use crate::module_index::ModuleIndex;
use crate::own_names::add_params;
use crate::owners::module_owners;
use std::alloc::Global;
use wy_effects::set::SetList;
use wy_symbols::{
    AtomScope, Cause, Heads, Meanings, ModuleView, Named, Owners, Refusal, WrittenNames, add_names,
    name_table, note_at, note_repeated, note_written,
};
use wy_syntax::items::Line;
use wy_syntax::types::Name;
use wy_text::list::Items;
use wy_text::text::Memory;
use wy_types::resolved::{OwnName, ScopeKind};

/// The owners of a module with their atoms.
pub fn owners_of<'a>(
    alloc: Global,
    heads: &'a Heads,
    modules: &ModuleIndex,
    view: &ModuleView,
) -> Result<Owners<'a>, Memory>
    ensures { IfOk result (λ o. o ≡ atom_scope heads.now (module_atoms heads.now (map module_tree modules.now) (module_tree view.now)) (module_owners heads.now (map module_tree modules.now) (module_tree view.now)) []) }
{
    let list = module_owners(alloc, heads.names(), modules, view)?;
    Owners::new(alloc, heads, list.as_slice())
}

/// A module's own names.
pub fn own_of(
    alloc: Global,
    owners: &Owners,
    modules: &ModuleIndex,
    view: &ModuleView,
) -> Result<Items<OwnName>, Memory>
    requires { owners.now ≡ atom_scope owners.now.heads (module_atoms owners.now.heads (map module_tree modules.now) (module_tree view.now)) (module_owners owners.now.heads (map module_tree modules.now) (module_tree view.now)) [] }
    ensures { IfOk result (λ ns. ns ≡ module_own owners.now.heads (map module_tree modules.now) (module_tree view.now)) }
{
    let mut list = Items::new(alloc);
    let plain = view.kind == ScopeKind::Plain;
    let (params, uses, lines) = (view.params, view.uses, view.lines);
    add_params(alloc, &mut list, owners, plain, params)?;
    add_behind(alloc, &mut list, owners, modules, params.len(), uses, lines)?;
    Ok(list)
}

/// What a module defines for each abstract member of the type of this number; nothing in a plain module.
pub fn definitions_at(
    alloc: Global,
    heads: &Heads,
    plain: bool,
    meanings: &Meanings,
    number: Option<u16>,
) -> Result<SetList, Memory>
    ensures { IfOk result (λ l. l ≡ definitions_at heads.now [] plain meanings.now number) }
{
    let Some(decl) = number else {
        return Ok(Items::new(alloc));
    };
    if plain {
        return Ok(Items::new(alloc));
    }
    match heads.head(decl) {
        None => Ok(Items::new(alloc)),
        Some(head) => definitions_for(alloc, heads, meanings, head.members.as_slice()),
    }
}

/// Notes what is refused of the members that a module defines.
fn note_members(
    alloc: Global,
    members: &Meanings,
    view: &ModuleView,
    least: &mut Option<Refusal>,
) -> Result<(), Memory>
    ensures { OnOk result (least.new ≡ noted least.old (lacking view.now.name.now members.now (texts (define_names view.now.defines.now)) ++ not_abstract members.now (define_names view.now.defines.now))) }
{
    let written = name_table(alloc, view.defines)?;
    note_written(view.name, members, &written, view.defines, least);
    Ok(())
}

/// Notes the refusals of the type that a module is sealed at: it is declared, and an annotated module
/// defines each abstract member of it, and nothing else.
fn note_sealed(
    alloc: Global,
    heads: &Heads,
    view: &ModuleView,
    least: &mut Option<Refusal>,
) -> Result<(), Memory>
    ensures { OnOk result (least.new ≡ noted least.old (sealed_refusals heads.now [] (module_tree view.now) (type_number (head_names heads.now) view.now.sealed.now.text))) }
{
    let Some(decl) = heads.number(&view.sealed.text) else {
        note_at(least, view.sealed.place, Cause::Unknown);
        return Ok(());
    };
    if view.kind == ScopeKind::Plain {
        return Ok(());
    }
    match heads.head(decl) {
        None => {
            let members = Meanings::new(alloc);
            note_members(alloc, &members, view, least)
        }
        Some(head) => note_members(alloc, &head.members, view, least),
    }
}

/// Notes Twice at each own name that repeats another, in this order: parameters or grants, uses, lines.
pub fn note_words<T: Named>(
    alloc: Global,
    handed: &[T],
    uses: &[Name],
    lines: &[Line],
    least: &mut Option<Refusal>,
) -> Result<(), Memory>
    ensures { OnOk result (least.new ≡ noted least.old (repeated [] (map T.name_of handed.now ++ (uses.now ++ line_words lines.now)))) }
{
    let mut words = WrittenNames::new(alloc);
    add_names(&mut words, handed);
    add_names(&mut words, uses);
    add_names(&mut words, lines);
    let words = words.all()?;
    note_repeated(alloc, &[], &words, least)
}

/// Notes the refusals of a module's parameters.
fn note_param_types(
    alloc: Global,
    owners: &Owners,
    view: &ModuleView,
    least: &mut Option<Refusal>,
) -> Result<(), Memory>
    ensures { OnOk result (least.new ≡ noted least.old (param_refusals (atom_scope owners.now.heads owners.now.atoms (take (length view.now.params.now) owners.now.owners) []) (is_plain view.now.kind) view.now.params.now)) }
{
    let nothing = Meanings::new(alloc);
    let scope = AtomScope::new(owners, view.params.len(), &nothing);
    note_params(
        alloc,
        &scope,
        view.kind == ScopeKind::Plain,
        view.params,
        least,
    )
}

/// Notes the refusals of a module's head, up to its lines.
pub fn note_front(
    alloc: Global,
    owners: &Owners,
    modules: &ModuleIndex,
    view: &ModuleView,
    least: &mut Option<Refusal>,
) -> Result<(), Memory>
    requires { owners.now ≡ atom_scope owners.now.heads (module_atoms owners.now.heads (map module_tree modules.now) (module_tree view.now)) (module_owners owners.now.heads (map module_tree modules.now) (module_tree view.now)) [] }
    ensures { OnOk result (least.new ≡ noted least.old (front_refusals owners.now.heads (map module_tree modules.now) (module_tree view.now))) }
{
    note_sealed(alloc, owners.heads(), view, least)?;
    note_words(alloc, view.params, view.uses, view.lines, least)?;
    note_param_types(alloc, owners, view, least)?;
    note_behind(
        alloc,
        owners,
        modules,
        view.params.len(),
        view.uses,
        view.lines,
        least,
    );
    Ok(())
}

/// What a module defines, in its order. The refusals of its definitions are noted.
#[tactic(auto, using(wy_symbols::proofs::Leasts::noted_append))]
pub fn read_defined(
    alloc: Global,
    owners: &Owners,
    visible: usize,
    view: &ModuleView,
    least: &mut Option<Refusal>,
) -> Result<Meanings, Memory>
    ensures value { IfOk result (λ ms. ms ≡ definitions_after owners.now.heads owners.now.atoms (take visible owners.now.owners) [] view.now.defines.now) }
    ensures noted { OnOk result (least.new ≡ noted least.old (repeated [] (define_names view.now.defines.now) ++ definitions_refusals owners.now.heads owners.now.atoms (take visible owners.now.owners) [] view.now.defines.now)) }
{
    note_repeated(alloc, &[], view.defines, least)?;
    read_definitions(alloc, owners, visible, view.defines, least)
}
