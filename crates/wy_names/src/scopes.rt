//! Modules and the program with their names resolved (docs/LANGUAGE.md, "Names").

ghost use Rattle.std.specs.Prelude.{◌≡◌, ◌≤◌, ◌++◌, [], IfOk, OnOk, map};
ghost use Rattle.std.specs.Option.{option_copied};
ghost use Rattle.wy_types.specs.Program.{scope_of};
ghost use Rattle.wy_symbols.specs.Least.{noted};
ghost use Rattle.wy_symbols.specs.Atoms.{atom_scope};
ghost use Rattle.wy_heads.specs.ScopeHeads.{start_place, init_refusals, module_atoms, module_owners, module_meanings, module_scope, program_atoms, program_owners};
ghost use Rattle.wy_names.specs.Scopes.{module_within, scope_of_module, module_refusals, scope_of_program, program_refusals};
ghost use Rattle.wy_names.specs.ScopeParts.{ArePartsOfModule, ArePartsOfProgram, scope_with};
ghost use Rattle.wy_bodies.specs.Sight.{outermost, inside};
ghost use Rattle.wy_bodies.specs.Bodies.{at_start};
ghost use Rattle.wy_bodies.specs.BodyRefusals.{repeated_parts, parts_refusals};
ghost use Rattle.wy_syntax.specs.Views.{part_trees};
ghost use Rattle.wy_symbols.specs.Lent.{module_tree, program_tree};

use std::alloc::Global;
use wy_bodies::{Resolved, Within, module_parts, program_block};
use wy_effects::atom::AtomTable;
use wy_effects::set::{EffSet, SetList};
use wy_heads::{
    ModuleIndex, definitions_at, note_front, note_init, note_program, own_of, owners_of,
    program_own, program_owners_of, read_defined, start_effect,
};
use wy_symbols::{AtomScope, Heads, Meanings, ModuleView, Owners, Refusal, note_set, set_of};
use wy_syntax::items::Program;
use wy_text::fault::Place;
use wy_text::list::Items;
use wy_text::text::{Memory, Text, from_bytes};
use wy_types::resolved::{BoundList, OwnName, Scope, ScopeKind};

/// What a module has besides its atoms.
#[derive(Drop)]
pub struct Parts {
    pub bounds: BoundList,
    pub names: Items<OwnName>,
    pub definitions: SetList,
    pub start_effect: EffSet,
    pub resolved: Resolved,
}

/// What a module has besides its atoms, by its owners. Its refusals are noted.
fn parts_of(
    alloc: Global,
    owners: &Owners,
    modules: &ModuleIndex,
    view: &ModuleView,
    least: &mut Option<Refusal>,
) -> Result<Parts, Memory>
    requires { owners.now ≡ atom_scope owners.now.heads (module_atoms owners.now.heads (map module_tree modules.now) (module_tree view.now)) (module_owners owners.now.heads (map module_tree modules.now) (module_tree view.now)) [] }
    ensures parts { IfOk result (ArePartsOfModule owners.now.heads (map module_tree modules.now) (module_tree view.now)) }
    ensures noted { OnOk result (least.new ≡ noted least.old (module_refusals owners.now.heads (map module_tree modules.now) (module_tree view.now))) }
{
    let visible = owners.names().len();
    note_front(alloc, owners, modules, view, least)?;
    let meanings = read_defined(alloc, owners, visible, view, least)?;
    parts_with(alloc, owners, modules, view, &meanings, least)
}

/// The same, by what the module defines. The refusals of its `init` and of what stands behind it are noted.
fn parts_with(
    alloc: Global,
    owners: &Owners,
    modules: &ModuleIndex,
    view: &ModuleView,
    meanings: &Meanings,
    least: &mut Option<Refusal>,
) -> Result<Parts, Memory>
    requires owned { owners.now ≡ atom_scope owners.now.heads (module_atoms owners.now.heads (map module_tree modules.now) (module_tree view.now)) (module_owners owners.now.heads (map module_tree modules.now) (module_tree view.now)) [] }
    requires defined { meanings.now ≡ module_meanings owners.now.heads (map module_tree modules.now) (module_tree view.now) }
    ensures parts { IfOk result (ArePartsOfModule owners.now.heads (map module_tree modules.now) (module_tree view.now)) }
    ensures noted { OnOk result (least.new ≡ noted least.old (init_refusals owners.now.heads (map module_tree modules.now) (module_scope owners.now.heads (map module_tree modules.now) (module_tree view.now)) (option_copied view.now.init) ++ (repeated_parts (part_trees view.now.parts.now) ++ parts_refusals (module_within owners.now.heads (map module_tree modules.now) (module_tree view.now)) outermost (inside outermost (part_trees view.now.parts.now)) at_start (part_trees view.now.parts.now)))) }
{
    let plain = view.kind == ScopeKind::Plain;
    let visible = owners.names().len();
    let scope = AtomScope::new(owners, visible, meanings);
    let within = Within {
        atoms: &scope,
        plain,
        own: owners.names(),
    };
    let number = owners.heads().number(&view.sealed.text);
    let bounds = owners.bounds(alloc)?;
    let own = own_of(alloc, owners, modules, view)?;
    let definitions = definitions_at(alloc, owners.heads(), plain, meanings, number)?;
    let start_effect = start_effect(alloc, &scope, view.init)?;
    note_init(&scope, view.init, least);
    let resolved = module_parts(alloc, &within, view.parts, least)?;
    Ok(Parts {
        bounds,
        names: own,
        definitions,
        start_effect,
        resolved,
    })
}

/// The mark of a module's start: its `init`, or the first word of the module.
fn start_place(view: &ModuleView) -> Place
    ensures { result ≡ start_place [] [] (module_tree view.now) (option_copied view.now.init) }
{
    match view.init {
        None => view.place,
        Some(init) => init.place,
    }
}

/// A scope of these parts.
fn scope_with(
    kind: ScopeKind,
    name: Text,
    place: Place,
    atoms: AtomTable,
    ascribed: Option<u16>,
    start_place: Place,
    parts: Parts,
) -> Scope
    ensures { scope_of result ≡ scope_with kind name place atoms ascribed start_place parts }
{
    let Parts {
        bounds,
        names,
        definitions,
        start_effect,
        resolved,
    } = parts;
    let Resolved {
        literals,
        start,
        bodies,
    } = resolved;
    Scope {
        kind,
        name,
        place,
        atoms,
        bounds,
        names,
        ascribed,
        definitions,
        literals,
        start_place,
        start_effect,
        start,
        bodies,
    }
}

/// A module with its names resolved. Its refusals are noted.
pub fn module_scope(
    alloc: Global,
    heads: &Heads,
    modules: &ModuleIndex,
    view: &ModuleView,
    least: &mut Option<Refusal>,
) -> Result<Scope, Memory>
    ensures scope { IfOk result (λ s. scope_of s ≡ scope_of_module heads.now (map module_tree modules.now) (module_tree view.now)) }
    ensures noted { OnOk result (least.new ≡ noted least.old (module_refusals heads.now (map module_tree modules.now) (module_tree view.now))) }
{
    let name = view.name.text.copy()?;
    let owners = owners_of(alloc, heads, modules, view)?;
    let parts = parts_of(alloc, &owners, modules, view, least)?;
    let ascribed = heads.number(&view.sealed.text);
    let atoms = owners.into_atoms();
    let at = start_place(view);
    Ok(scope_with(view.kind, name, view.name.place, atoms, ascribed, at, parts))
}

/// What the program has besides its atoms, by its owners. Its refusals are noted.
fn program_parts(
    alloc: Global,
    owners: &Owners,
    modules: &ModuleIndex,
    program: &Program,
    least: &mut Option<Refusal>,
) -> Result<Parts, Memory>
    requires { owners.now ≡ atom_scope owners.now.heads (program_atoms owners.now.heads (map module_tree modules.now) (program_tree program.now)) (program_owners owners.now.heads (map module_tree modules.now) (program_tree program.now)) [] }
    ensures parts { IfOk result (ArePartsOfProgram owners.now.heads (map module_tree modules.now) (program_tree program.now)) }
    ensures noted { OnOk result (least.new ≡ noted least.old (program_refusals owners.now.heads (map module_tree modules.now) (program_tree program.now))) }
{
    let nothing = Meanings::new(alloc);
    program_parts_with(alloc, owners, modules, program, &nothing, least)
}

/// The same, where no names stand for sets of atoms.
fn program_parts_with(
    alloc: Global,
    owners: &Owners,
    modules: &ModuleIndex,
    program: &Program,
    nothing: &Meanings,
    least: &mut Option<Refusal>,
) -> Result<Parts, Memory>
    requires owned { owners.now ≡ atom_scope owners.now.heads (program_atoms owners.now.heads (map module_tree modules.now) (program_tree program.now)) (program_owners owners.now.heads (map module_tree modules.now) (program_tree program.now)) [] }
    requires nothing { nothing.now ≡ [] }
    ensures parts { IfOk result (ArePartsOfProgram owners.now.heads (map module_tree modules.now) (program_tree program.now)) }
    ensures noted { OnOk result (least.new ≡ noted least.old (program_refusals owners.now.heads (map module_tree modules.now) (program_tree program.now))) }
{
    let scope = AtomScope::new(owners, owners.names().len(), nothing);
    let within = Within {
        atoms: &scope,
        plain: false,
        own: owners.names(),
    };
    let effect = program.effect.as_slice();
    let bounds = owners.bounds(alloc)?;
    let own = program_own(alloc, owners, modules, program)?;
    let start_effect = set_of(alloc, &scope, effect)?;
    note_program(alloc, owners, modules, program, least)?;
    note_set(&scope, effect, least);
    let resolved = program_block(alloc, &within, program.run, &program.body, least)?;
    let definitions = Items::new(alloc);
    Ok(Parts {
        bounds,
        names: own,
        definitions,
        start_effect,
        resolved,
    })
}

/// The program with its names resolved. Its refusals are noted.
pub fn program_scope(
    alloc: Global,
    heads: &Heads,
    modules: &ModuleIndex,
    program: &Program,
    least: &mut Option<Refusal>,
) -> Result<Scope, Memory>
    ensures scope { IfOk result (λ s. scope_of s ≡ scope_of_program heads.now (map module_tree modules.now) (program_tree program.now)) }
    ensures noted { OnOk result (least.new ≡ noted least.old (program_refusals heads.now (map module_tree modules.now) (program_tree program.now))) }
{
    let name = from_bytes(alloc, b"main")?;
    let owners = program_owners_of(alloc, heads, modules, program)?;
    let parts = program_parts(alloc, &owners, modules, program, least)?;
    let atoms = owners.into_atoms();
    Ok(scope_with(
        ScopeKind::Program,
        name,
        program.place,
        atoms,
        None,
        program.run,
        parts,
    ))
}
