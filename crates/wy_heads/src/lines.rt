//! The lines of a scope with their names resolved, and the refusals of uses and lines
//! (docs/LANGUAGE.md, "Names").

ghost use Rattle.std.specs.Prelude.{◌≡◌, ◌≤◌, ◌<◌, ◌+◌, ◌^◌, ◌++◌, ◌∷◌, [], List, Some, map, take, drop, length, slice_get, IfOk, OnOk};
ghost use Rattle.wy_syntax.specs.declared.items.Line.TheVariants as line;
ghost use Rattle.wy_symbols.specs.Least.{noted};
ghost use Rattle.wy_symbols.specs.Declarations.{first_from, module_number};
ghost use Rattle.wy_symbols.specs.Atoms.{head_names, module_opening, use_owner, line_owner, set_of, set_refusals, owner_names, atom_scope};
ghost use Rattle.wy_heads.specs.Lines.{number_or_zero, at_bound, argument_numbers, line_name, line_names, unless_number, uses_refusals, argument_refusals, line_refusals, lines_refusals};
ghost use Rattle.wy_symbols.specs.Lent.{module_tree};

use crate::module_index::ModuleIndex;
use crate::own_names::own_type;
use crate::owners::module_opening;
use std::alloc::Global;
use wy_effects::set::EffSet;
use wy_symbols::{AtomScope, Cause, Meanings, Opening, Owners, Refusal, note_at, note_set, set_of};
use wy_syntax::items::Line;
use wy_syntax::types::{Name, NameList, SetUse};
use wy_text::list::Items;
use wy_text::text::Memory;
use wy_types::resolved::{Origin, OwnName};
use wy_types::types::TypeRef;

/// The number of an argument among so many own names; 0 where there is no such name. The tokens of a file are
/// too few for a number that passes 32 bits.
fn argument_number(owners: &Owners, visible: usize, name: &Name) -> Result<u32, Memory>
    ensures { IfOk result (λ k. k ≡ number_or_zero (first_from 0 (owner_names (take visible owners.now.owners)) name.now.text)) }
{
    match owners.number(visible, &name.text) {
        None => Ok(0),
        Some(number) => {
            if number < 4_294_967_296 {
                Ok(number as u32)
            } else {
                Err(Memory)
            }
        }
    }
}

/// The numbers of arguments among so many own names; 0 where there is no such name.
fn argument_numbers(
    alloc: Global,
    owners: &Owners,
    modules: &ModuleIndex,
    visible: usize,
    names: &[Name],
) -> Result<Items<u32>, Memory>
    ensures { IfOk result (λ ks. ks ≡ argument_numbers owners.now.heads (map module_tree modules.now) owners.now.atoms (take visible owners.now.owners) names.now) }
{
    let mut numbers = Items::new(alloc);
    for name in names {
        numbers.push(argument_number(owners, visible, name)?)?;
    }
    Ok(numbers)
}

/// The bound of an import line that is the owner of a number.
fn bound_set(alloc: Global, owners: &Owners, number: usize, set: &SetUse) -> Result<EffSet, Memory>
    ensures { IfOk result (λ e. e ≡ set_of (atom_scope owners.now.heads owners.now.atoms (take number owners.now.owners) []) set.now) }
{
    let nothing = Meanings::new(alloc);
    let scope = AtomScope::new(owners, number, &nothing);
    set_of(alloc, &scope, set.as_slice())
}

/// The type of an import: the type that its module is sealed at, at the bound.
fn bound_type(
    owners: &Owners,
    modules: &ModuleIndex,
    opening: Opening,
    bound: &EffSet,
) -> Result<TypeRef, Memory>
    ensures { IfOk result (λ t. t ≡ at_bound owners.now.heads (map module_tree modules.now) owners.now.atoms opening bound.now) }
{
    match opening {
        Opening::Members { decl } => Ok(TypeRef::At {
            decl,
            bound: bound.copy()?,
        }),
        Opening::Nothing | Opening::Missing => Ok(TypeRef::Unit),
    }
}

/// An instance line that is the owner of a number.
fn instance(
    alloc: Global,
    owners: &Owners,
    modules: &ModuleIndex,
    number: usize,
    name: &Name,
    named: &Name,
    arguments: &NameList,
) -> Result<OwnName, Memory>
    requires { slice_get owners.now.owners number ≡ Some (line_owner (head_names owners.now.heads) (map module_tree modules.now) (line.Instance name.now named.now arguments.now)) }
    ensures { IfOk result (λ n. n ≡ line_name owners.now.heads (map module_tree modules.now) owners.now.atoms (take number owners.now.owners) (line.Instance name.now named.now arguments.now)) }
{
    let written = name.text.copy()?;
    let arguments = argument_numbers(alloc, owners, modules, number, arguments.as_slice())?;
    let typ = own_type(alloc, owners, number)?;
    Ok(OwnName {
        name: written,
        place: name.place,
        typ,
        origin: Origin::Instance {
            module: modules.number_or_zero(&named.text),
            arguments,
        },
    })
}

/// An import line that is the owner of a number.
fn import(
    alloc: Global,
    owners: &Owners,
    modules: &ModuleIndex,
    number: usize,
    name: &Name,
    named: &Name,
    arguments: &NameList,
    set: &SetUse,
) -> Result<OwnName, Memory>
    ensures { IfOk result (λ n. n ≡ line_name owners.now.heads (map module_tree modules.now) owners.now.atoms (take number owners.now.owners) (line.Import name.now named.now arguments.now set.now)) }
{
    let written = name.text.copy()?;
    let arguments = argument_numbers(alloc, owners, modules, number, arguments.as_slice())?;
    let bound = bound_set(alloc, owners, number, set)?;
    let opening = module_opening(owners.heads().names(), modules, &named.text);
    let typ = bound_type(owners, modules, opening, &bound)?;
    Ok(OwnName {
        name: written,
        place: name.place,
        typ,
        origin: Origin::Import {
            module: modules.number_or_zero(&named.text),
            arguments,
            bound,
        },
    })
}

/// A line that is the owner of a number.
fn line_own(
    alloc: Global,
    owners: &Owners,
    modules: &ModuleIndex,
    number: usize,
    written: &Line,
) -> Result<OwnName, Memory>
    requires { slice_get owners.now.owners number ≡ Some (line_owner (head_names owners.now.heads) (map module_tree modules.now) written.now) }
    ensures { IfOk result (λ n. n ≡ line_name owners.now.heads (map module_tree modules.now) owners.now.atoms (take number owners.now.owners) written.now) }
{
    match written {
        Line::Instance(name, named, arguments) => instance(
            alloc, owners, modules, number, name, named, arguments,
        ),
        Line::Import(name, named, arguments, set) => import(
            alloc, owners, modules, number, name, named, arguments, set,
        ),
    }
}

/// Adds the lines of a scope, which are its owners from a number on.
pub fn add_lines(
    alloc: Global,
    list: &mut Items<OwnName>,
    owners: &Owners,
    modules: &ModuleIndex,
    first: usize,
    lines: &[Line],
) -> Result<(), Memory>
    requires fits { first + length lines.now < 2 ^ 64 }
    requires there { take (length lines.now) (drop first owners.now.owners) ≡ map (line_owner (head_names owners.now.heads) (map module_tree modules.now)) lines.now }
    ensures { OnOk result (list.new ≡ list.old ++ line_names owners.now.heads (map module_tree modules.now) owners.now.atoms (take first owners.now.owners) lines.now) }
{
    for i in 0..lines.len() {
        let written = &lines[i];
        list.push(line_own(alloc, owners, modules, first + i, written)?)?;
    }
    Ok(())
}

/// Notes Unknown at a module's name that is not declared.
fn note_module(modules: &ModuleIndex, name: &Name, least: &mut Option<Refusal>)
    ensures { least.new ≡ noted least.old (unless_number [] (map module_tree modules.now) [] name.now (module_number (map module_tree modules.now) name.now.text)) }
{
    if modules.number(&name.text).is_none() {
        note_at(least, name.place, Cause::Unknown);
    }
}

/// Notes the refusals of uses.
pub fn note_uses(modules: &ModuleIndex, uses: &[Name], least: &mut Option<Refusal>)
    ensures { least.new ≡ noted least.old (uses_refusals [] (map module_tree modules.now) [] uses.now) }
{
    for name in uses {
        note_module(modules, name, least);
    }
}

/// Notes Unknown at each argument that is none of so many own names.
fn note_arguments(
    owners: &Owners,
    modules: &ModuleIndex,
    visible: usize,
    names: &[Name],
    least: &mut Option<Refusal>,
)
    ensures { least.new ≡ noted least.old (argument_refusals owners.now.heads (map module_tree modules.now) owners.now.atoms (take visible owners.now.owners) names.now) }
{
    for name in names {
        if owners.number(visible, &name.text).is_none() {
            note_at(least, name.place, Cause::Unknown);
        }
    }
}

/// Notes the refusals of the bound of an import line that is the owner of a number.
fn note_bound(
    alloc: Global,
    owners: &Owners,
    number: usize,
    set: &SetUse,
    least: &mut Option<Refusal>,
)
    ensures { least.new ≡ noted least.old (set_refusals (atom_scope owners.now.heads owners.now.atoms (take number owners.now.owners) []) set.now) }
{
    let nothing = Meanings::new(alloc);
    let scope = AtomScope::new(owners, number, &nothing);
    note_set(&scope, set.as_slice(), least);
}

/// Notes the refusals of a line that is the owner of a number.
#[tactic(auto, using(wy_symbols::proofs::Leasts::noted_append))]
fn note_line(
    alloc: Global,
    owners: &Owners,
    modules: &ModuleIndex,
    number: usize,
    written: &Line,
    least: &mut Option<Refusal>,
)
    ensures { least.new ≡ noted least.old (line_refusals owners.now.heads (map module_tree modules.now) owners.now.atoms (take number owners.now.owners) written.now) }
{
    match written {
        Line::Instance(_, named, arguments) => {
            note_module(modules, named, least);
            note_arguments(owners, modules, number, arguments.as_slice(), least);
        }
        Line::Import(_, named, arguments, set) => {
            note_module(modules, named, least);
            note_arguments(owners, modules, number, arguments.as_slice(), least);
            note_bound(alloc, owners, number, set, least);
        }
    }
}

/// Notes the refusals of lines, which are a scope's owners from a number on.
pub fn note_lines(
    alloc: Global,
    owners: &Owners,
    modules: &ModuleIndex,
    first: usize,
    lines: &[Line],
    least: &mut Option<Refusal>,
)
    requires fits { first + length lines.now < 2 ^ 64 }
    requires there { take (length lines.now) (drop first owners.now.owners) ≡ map (line_owner (head_names owners.now.heads) (map module_tree modules.now)) lines.now }
    ensures { least.new ≡ noted least.old (lines_refusals owners.now.heads (map module_tree modules.now) owners.now.atoms (take first owners.now.owners) lines.now) }
{
    for i in 0..lines.len() {
        let written = &lines[i];
        note_line(alloc, owners, modules, first + i, written, least);
    }
}
