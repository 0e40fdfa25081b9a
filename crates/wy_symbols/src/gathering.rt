//! The declarations of all files, each kind in a list of its own, in the order of the files.

ghost use Rattle.std.specs.Prelude.{◌≡◌, ◌++◌, ◌∷◌, [], List, map, IfOk, OnOk};
ghost use Rattle.wy_syntax.specs.Views.{item_tree, file_tree};
ghost use Rattle.wy_symbols.specs.Declarations.{item_types, item_modules, item_programs, all_items, types_of, modules_of, programs_of};
ghost use Rattle.wy_symbols.specs.Lent.{lent_type, lent_program, module_tree};

use crate::items::add;
use std::alloc::Global;
use wy_syntax::items::{
    Define, Init, Item, Line, PlainModule, Program, PureModule, ResourceModule, Tree, TypeDecl,
};
use wy_syntax::statements::Part;
use wy_syntax::types::{Name, Param};
use wy_text::fault::Place;
use wy_text::text::Memory;
use wy_types::resolved::ScopeKind;

/// A module of any kind, as it stands in its tree. A pure module has no parameters, and a plain one has
/// neither uses nor lines nor definitions.
#[derive(Drop)]
pub struct ModuleView<'a> {
    pub kind: ScopeKind,
    pub place: Place,
    pub name: &'a Name,
    pub params: &'a [Param],
    pub sealed: &'a Name,
    pub uses: &'a [Name],
    pub lines: &'a [Line],
    pub defines: &'a [Define],
    pub init: Option<&'a Init>,
    pub parts: &'a [Part],
}

fn pure_view<'a>(item: &'a PureModule) -> ModuleView<'a>
    ensures { module_tree result ∷ [] ≡ item_modules (item_tree (Item.Pure item.now)) }
{
    ModuleView {
        kind: ScopeKind::Pure,
        place: item.place,
        name: &item.name,
        params: &[],
        sealed: &item.sealed,
        uses: item.inside.uses.as_slice(),
        lines: item.inside.lines.as_slice(),
        defines: item.inside.defines.as_slice(),
        init: item.inside.init.as_ref(),
        parts: &item.inside.parts,
    }
}

fn resource_view<'a>(item: &'a ResourceModule) -> ModuleView<'a>
    ensures { module_tree result ∷ [] ≡ item_modules (item_tree (Item.Resource item.now)) }
{
    ModuleView {
        kind: ScopeKind::Resource,
        place: item.place,
        name: &item.name,
        params: item.params.as_slice(),
        sealed: &item.sealed,
        uses: item.inside.uses.as_slice(),
        lines: item.inside.lines.as_slice(),
        defines: item.inside.defines.as_slice(),
        init: item.inside.init.as_ref(),
        parts: &item.inside.parts,
    }
}

fn plain_view<'a>(item: &'a PlainModule) -> ModuleView<'a>
    ensures { module_tree result ∷ [] ≡ item_modules (item_tree (Item.Plain item.now)) }
{
    ModuleView {
        kind: ScopeKind::Plain,
        place: item.place,
        name: &item.name,
        params: item.params.as_slice(),
        sealed: &item.sealed,
        uses: &[],
        lines: &[],
        defines: &[],
        init: None,
        parts: &item.parts,
    }
}

/// The declarations of files, each kind in their order.
#[derive(Drop)]
pub struct Gathered<'a> {
    pub types: Vec<&'a TypeDecl>,
    pub modules: Vec<ModuleView<'a>>,
    pub programs: Vec<&'a Program>,
}

/// Adds what an item declares.
fn add_item<'a>(found: &mut Gathered<'a>, item: &'a Item) -> Result<(), Memory>
    ensures types { OnOk result (map lent_type found.new.types.items ≡ map lent_type found.old.types.items ++ item_types (item_tree item.now)) }
    ensures modules { OnOk result (map module_tree found.new.modules.items ≡ map module_tree found.old.modules.items ++ item_modules (item_tree item.now)) }
    ensures programs { OnOk result (map lent_program found.new.programs.items ≡ map lent_program found.old.programs.items ++ item_programs (item_tree item.now)) }
{
    match item {
        Item::Type(decl) => add(&mut found.types, decl),
        Item::Pure(item) => add(&mut found.modules, pure_view(item)),
        Item::Resource(item) => add(&mut found.modules, resource_view(item)),
        Item::Plain(item) => add(&mut found.modules, plain_view(item)),
        Item::Program(program) => add(&mut found.programs, program),
    }
}

/// Adds what the items of a file declare.
fn add_items<'a>(found: &mut Gathered<'a>, items: &'a [Item]) -> Result<(), Memory>
    ensures types { OnOk result (map lent_type found.new.types.items ≡ map lent_type found.old.types.items ++ types_of (map item_tree items.now)) }
    ensures modules { OnOk result (map module_tree found.new.modules.items ≡ map module_tree found.old.modules.items ++ modules_of (map item_tree items.now)) }
    ensures programs { OnOk result (map lent_program found.new.programs.items ≡ map lent_program found.old.programs.items ++ programs_of (map item_tree items.now)) }
{
    for item in items {
        add_item(found, item)?;
    }
    Ok(())
}

/// The declarations of all files, in order.
pub fn gather<'a>(alloc: Global, trees: &'a [Tree]) -> Result<Gathered<'a>, Memory>
    ensures types { IfOk result (λ g. map lent_type g.types.items ≡ types_of (all_items (map file_tree trees.now))) }
    ensures modules { IfOk result (λ g. map module_tree g.modules.items ≡ modules_of (all_items (map file_tree trees.now))) }
    ensures programs { IfOk result (λ g. map lent_program g.programs.items ≡ programs_of (all_items (map file_tree trees.now))) }
{
    let mut found = Gathered {
        types: Vec::new(alloc),
        modules: Vec::new(alloc),
        programs: Vec::new(alloc),
    };
    for tree in trees {
        add_items(&mut found, &tree.items)?;
    }
    Ok(found)
}
