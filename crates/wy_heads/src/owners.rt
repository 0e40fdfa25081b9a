//! The names of a scope that open atoms (docs/LANGUAGE.md, "Names").

ghost use Rattle.std.specs.Prelude.{◌≡◌, ◌≤◌, ◌++◌, ◌∷◌, [], ℕ, List, map, length, false, IfOk};
ghost use Rattle.wy_symbols.specs.Atoms.{type_number, opened, primitive_opening, param_opening, params_owners, grant_owner, sealed_opening, module_at, module_opening, use_owner, line_owner};
ghost use Rattle.wy_syntax.specs.Collected.{Adds};
ghost use Rattle.wy_types.specs.Types.{is_plain};
ghost use Rattle.wy_types.specs.Primitive.{most_types};
ghost use Rattle.wy_symbols.specs.Lent.{module_tree};

use crate::module_index::ModuleIndex;
use std::alloc::Global;
use wy_symbols::{ModuleView, Opening, Owner, OwnerList, Table};
use wy_syntax::items::{Grant, Line, Program};
use wy_syntax::types::{Name, Param, TypeUse};
use wy_text::list::Items;
use wy_text::text::{Memory, Text};
use wy_types::primitive::FIRST_DECLARED;
use wy_types::resolved::ScopeKind;

/// What a type's name opens: the members of that type.
fn opened(types: &Table, name: &Text) -> Opening
    requires { length types.now ≤ most_types }
    ensures { result ≡ opened (type_number types.now name.now) }
{
    match types.number(name) {
        None => Opening::Missing,
        Some(number) => Opening::Members {
            decl: number as u16,
        },
    }
}

/// What a parameter opens, in a module that is not plain.
fn param_opening(types: &Table, use_of: &TypeUse) -> Opening
    requires { length types.now ≤ most_types }
    ensures { result ≡ param_opening types.now use_of.now }
{
    match use_of {
        TypeUse::Int(_)
        | TypeUse::Bool(_)
        | TypeUse::Text(_)
        | TypeUse::Unit(_)
        | TypeUse::With(_, _)
        | TypeUse::At(_, _) => Opening::Nothing,
        TypeUse::Bare(name) => opened(types, &name.text),
    }
}

/// What a grant opens: the members of its primitive type.
pub fn grant_opening(types: &Table, name: &Text) -> Opening
    requires { length types.now ≤ most_types }
    ensures { result ≡ primitive_opening (type_number types.now name.now) }
{
    match types.number(name) {
        None => Opening::Missing,
        Some(number) => {
            if number < FIRST_DECLARED {
                Opening::Members {
                    decl: number as u16,
                }
            } else {
                Opening::Missing
            }
        }
    }
}

/// What a used module or an instance of a module opens: the members of the type that it is sealed at.
pub fn module_opening(types: &Table, modules: &ModuleIndex, name: &Text) -> Opening
    requires { length types.now ≤ most_types }
    ensures { result ≡ module_opening types.now (map module_tree modules.now) name.now }
{
    match modules.number(name) {
        None => Opening::Missing,
        Some(number) => match modules.views().get(number) {
            None => Opening::Missing,
            Some(view) => opened(types, &view.sealed.text),
        },
    }
}

/// Adds a parameter of a module.
fn add_param(owners: &mut OwnerList, types: &Table, plain: bool, param: &Param)
    requires { length types.now ≤ most_types }
    ensures { Adds (params_owners types.now plain (param.now ∷ [])) owners.old owners.new }
{
    let opening = if plain {
        Opening::Nothing
    } else {
        param_opening(types, &param.type_use)
    };
    owners.add(&param.name.text, opening);
}

/// Adds the parameters of a module.
fn add_params(owners: &mut OwnerList, types: &Table, plain: bool, params: &[Param])
    requires { length types.now ≤ most_types }
    ensures { Adds (params_owners types.now plain params.now) owners.old owners.new }
{
    for param in params {
        add_param(owners, types, plain, param);
    }
}

/// Adds the grants of a program block.
fn add_grants(owners: &mut OwnerList, types: &Table, grants: &[Grant])
    requires { length types.now ≤ most_types }
    ensures { Adds (map (grant_owner types.now) grants.now) owners.old owners.new }
{
    for grant in grants {
        owners.add(&grant.name.text, grant_opening(types, &grant.kind.text));
    }
}

/// Adds the used modules of a scope.
fn add_uses(owners: &mut OwnerList, types: &Table, modules: &ModuleIndex, uses: &[Name])
    requires { length types.now ≤ most_types }
    ensures { Adds (map (use_owner types.now (map module_tree modules.now)) uses.now) owners.old owners.new }
{
    for name in uses {
        owners.add(&name.text, module_opening(types, modules, &name.text));
    }
}

/// Adds a line: what its name is, and what it opens.
fn add_line(owners: &mut OwnerList, types: &Table, modules: &ModuleIndex, line: &Line)
    requires { length types.now ≤ most_types }
    ensures { Adds (line_owner types.now (map module_tree modules.now) line.now ∷ []) owners.old owners.new }
{
    match line {
        Line::Instance(name, named, _arguments) => owners.add(
            &name.text,
            module_opening(types, modules, &named.text),
        ),
        Line::Import(name, _named, _arguments, _bound) => owners.add(&name.text, Opening::Nothing),
    }
}

/// Adds the lines of a scope.
fn add_lines(owners: &mut OwnerList, types: &Table, modules: &ModuleIndex, lines: &[Line])
    requires { length types.now ≤ most_types }
    ensures { Adds (map (line_owner types.now (map module_tree modules.now)) lines.now) owners.old owners.new }
{
    for line in lines {
        add_line(owners, types, modules, line);
    }
}

/// Adds what stands behind the parameters or grants of a scope: its used modules and its lines.
fn add_behind(
    owners: &mut OwnerList,
    types: &Table,
    modules: &ModuleIndex,
    uses: &[Name],
    lines: &[Line],
)
    requires { length types.now ≤ most_types }
    ensures enough { owners.new.wanting ≡ false → owners.old.wanting ≡ false }
    ensures added { owners.new.wanting ≡ false → owners.new.list ≡ (owners.old.list ++ map (use_owner types.now (map module_tree modules.now)) uses.now) ++ map (line_owner types.now (map module_tree modules.now)) lines.now }
{
    add_uses(owners, types, modules, uses);
    add_lines(owners, types, modules, lines);
}

/// The owners of a module: its parameters, its used modules and its lines.
pub fn module_owners(
    alloc: Global,
    types: &Table,
    modules: &ModuleIndex,
    view: &ModuleView,
) -> Result<Items<Owner>, Memory>
    requires { length types.now ≤ most_types }
    ensures { IfOk result (λ os. os ≡ (params_owners types.now (is_plain view.now.kind) view.now.params.now ++ map (use_owner types.now (map module_tree modules.now)) view.now.uses.now) ++ map (line_owner types.now (map module_tree modules.now)) view.now.lines.now) }
{
    let mut owners = OwnerList::new(alloc);
    let plain = view.kind == ScopeKind::Plain;
    add_params(&mut owners, types, plain, view.params);
    add_behind(&mut owners, types, modules, view.uses, view.lines);
    owners.all()
}

/// The owners of a program block: its grants, its used modules and its lines.
pub fn program_owners(
    alloc: Global,
    types: &Table,
    modules: &ModuleIndex,
    program: &Program,
) -> Result<Items<Owner>, Memory>
    requires { length types.now ≤ most_types }
    ensures { IfOk result (λ os. os ≡ (map (grant_owner types.now) program.now.grants ++ map (use_owner types.now (map module_tree modules.now)) program.now.uses) ++ map (line_owner types.now (map module_tree modules.now)) program.now.lines) }
{
    let mut owners = OwnerList::new(alloc);
    add_grants(&mut owners, types, program.grants.as_slice());
    let (uses, lines) = (program.uses.as_slice(), program.lines.as_slice());
    add_behind(&mut owners, types, modules, uses, lines);
    owners.all()
}
