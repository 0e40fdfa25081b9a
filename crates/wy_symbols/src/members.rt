//! The members of types (docs/LANGUAGE.md, "Types").

ghost use Rattle.std.specs.Prelude.{◌≡◌, ◌≤◌, ◌+◌, ◌++◌, ◌∷◌, [], List, map, length, IfOk, OnOk};
ghost use Rattle.wy_symbols.specs.Atoms.{member_scope, abstract_member, bounded_member, defined_member, members_after, abstract_members, primitive_head, head, head_names, heads_of, set_of, set_refusals};
ghost use Rattle.wy_symbols.specs.Least.{noted};
ghost use Rattle.wy_types.specs.Primitive.{primitive_types};
ghost use Rattle.wy_symbols.specs.Lent.{lent_type};

use crate::atom_scope::{AtomScope, Owners};
use crate::atoms::single;
use crate::heads::Heads;
use crate::items::add;
use crate::meanings::Meanings;
use crate::refusal::Refusal;
use crate::scoping::{Head, Meaning};
use crate::sets::{note_set, set_of};
use crate::tables::Table;
use std::alloc::Global;
use wy_syntax::items::{Member, TypeDecl};
use wy_syntax::types::AtomUse;
use wy_text::text::{Memory, Text};
use wy_types::resolved;

/// Adds an abstract member with its number.
pub fn add_abstract(
    alloc: Global,
    members: &mut Meanings,
    name: &Text,
    number: usize,
) -> Result<(), Memory>
    ensures { OnOk result (members.new ≡ members.old ++ abstract_member name.now number ∷ []) }
{
    members.push(Meaning {
        name: name.copy()?,
        is_abstract: true,
        atoms: single(alloc, number)?,
        bound: None,
    })
}

/// Adds an abstract member with its number and an upper bound, whose set sees the members before it.
fn add_bounded(
    alloc: Global,
    nothing: &Owners,
    members: &mut Meanings,
    name: &Text,
    number: usize,
    set: &[AtomUse],
) -> Result<(), Memory>
    requires { nothing.now ≡ member_scope [] }
    ensures { OnOk result (members.new ≡ members.old ++ bounded_member name.now number (set_of (member_scope members.old) set.now) ∷ []) }
{
    let bound = set_of(alloc, &AtomScope::new(nothing, 0, members), set)?;
    members.push(Meaning {
        name: name.copy()?,
        is_abstract: true,
        atoms: single(alloc, number)?,
        bound: Some(bound),
    })
}

/// Adds a defined member, whose set sees the members before it.
fn add_defined(
    alloc: Global,
    nothing: &Owners,
    members: &mut Meanings,
    name: &Text,
    set: &[AtomUse],
) -> Result<(), Memory>
    requires { nothing.now ≡ member_scope [] }
    ensures { OnOk result (members.new ≡ members.old ++ defined_member name.now (set_of (member_scope members.old) set.now) ∷ []) }
{
    let atoms = set_of(alloc, &AtomScope::new(nothing, 0, members), set)?;
    members.push(Meaning {
        name: name.copy()?,
        is_abstract: false,
        atoms,
        bound: None,
    })
}

/// Notes the refusals of the set of a defined member or of an upper bound, which sees the members before it.
fn note_member_set(
    nothing: &Owners,
    members: &Meanings,
    set: &[AtomUse],
    least: &mut Option<Refusal>,
)
    requires { nothing.now ≡ member_scope [] }
    ensures { least.new ≡ noted least.old (set_refusals (member_scope members.now) set.now) }
{
    note_set(&AtomScope::new(nothing, 0, members), set, least);
}

/// Adds an abstract member with its number and an upper bound, whose set sees the members before it. The refusals of
/// the set are noted.
pub fn read_bounded(
    alloc: Global,
    nothing: &Owners,
    members: &mut Meanings,
    name: &Text,
    number: usize,
    set: &[AtomUse],
    least: &mut Option<Refusal>,
) -> Result<(), Memory>
    requires { nothing.now ≡ member_scope [] }
    ensures members { OnOk result (members.new ≡ members.old ++ bounded_member name.now number (set_of (member_scope members.old) set.now) ∷ []) }
    ensures noted { OnOk result (least.new ≡ noted least.old (set_refusals (member_scope members.old) set.now)) }
{
    note_member_set(nothing, members, set, least);
    add_bounded(alloc, nothing, members, name, number, set)
}

/// Adds a defined member, whose set sees the members before it. The refusals of the set are noted.
pub fn read_defined(
    alloc: Global,
    nothing: &Owners,
    members: &mut Meanings,
    name: &Text,
    set: &[AtomUse],
    least: &mut Option<Refusal>,
) -> Result<(), Memory>
    requires { nothing.now ≡ member_scope [] }
    ensures members { OnOk result (members.new ≡ members.old ++ defined_member name.now (set_of (member_scope members.old) set.now) ∷ []) }
    ensures noted { OnOk result (least.new ≡ noted least.old (set_refusals (member_scope members.old) set.now)) }
{
    note_member_set(nothing, members, set, least);
    add_defined(alloc, nothing, members, name, set)
}

/// Adds the effect members of a type declaration, in their order.
fn add_members(
    alloc: Global,
    nothing: &Owners,
    members: &[Member],
    before: &mut Meanings,
) -> Result<(), Memory>
    requires { nothing.now ≡ member_scope [] }
    ensures { OnOk result (before.new ≡ members_after before.old 0 members.now) }
{
    let mut number = 0;
    for member in members {
        match member {
            Member::Abstract(name) => {
                add_abstract(alloc, before, &name.text, number)?;
                number += 1;
            }
            Member::Bounded(name, set) => {
                let set = set.as_slice();
                add_bounded(alloc, nothing, before, &name.text, number, set)?;
                number += 1;
            }
            Member::Defined(name, set) => {
                add_defined(alloc, nothing, before, &name.text, set.as_slice())?;
            }
            Member::Method(_) => {}
        }
    }
    Ok(())
}

/// The effect members of a type declaration, in their order.
pub fn members_after(
    alloc: Global,
    nothing: &Owners,
    members: &[Member],
) -> Result<Meanings, Memory>
    requires { nothing.now ≡ member_scope [] }
    ensures { IfOk result (λ ms. ms ≡ members_after [] 0 members.now) }
{
    let mut before = Meanings::new(alloc);
    add_members(alloc, nothing, members, &mut before)?;
    Ok(before)
}

/// Adds abstract members of these names with their numbers, from 0 on.
fn add_abstracts(alloc: Global, members: &mut Meanings, names: &[Text]) -> Result<(), Memory>
    ensures { OnOk result (members.new ≡ members.old ++ abstract_members 0 names.now) }
{
    let mut number = 0;
    for name in names {
        add_abstract(alloc, members, name, number)?;
        number += 1;
    }
    Ok(())
}

/// A primitive type with its members.
fn primitive_head(alloc: Global, decl: &resolved::TypeDecl) -> Result<Head, Memory>
    ensures { IfOk result (λ h. h ≡ primitive_head decl.now) }
{
    let name = decl.name.copy()?;
    let mut members = Meanings::new(alloc);
    add_abstracts(alloc, &mut members, decl.members.as_slice())?;
    Ok(Head { name, members })
}

/// A declared type with its members.
fn declared_head(alloc: Global, nothing: &Owners, decl: &TypeDecl) -> Result<Head, Memory>
    requires { nothing.now ≡ member_scope [] }
    ensures { IfOk result (λ h. h ≡ head decl.now) }
{
    let name = decl.name.text.copy()?;
    let members = members_after(alloc, nothing, decl.members.as_slice())?;
    Ok(Head { name, members })
}

/// Adds the names of types.
fn add_head_names(names: &mut Vec<Text>, heads: &[Head]) -> Result<(), Memory>
    ensures { OnOk result (names.new.items ≡ names.old.items ++ head_names heads.now) }
{
    for head in heads {
        add(names, head.name.copy()?)?;
    }
    Ok(())
}

/// The names of types as a table.
pub fn head_table(alloc: Global, heads: &[Head]) -> Result<Table, Memory>
    ensures { IfOk result (λ t. t ≡ head_names heads.now) }
{
    let mut names = Vec::new(alloc);
    add_head_names(&mut names, heads)?;
    Table::new(alloc, names)
}

/// Adds the primitive types.
fn add_primitives(
    alloc: Global,
    heads: &mut Vec<Head>,
    primitives: &[resolved::TypeDecl],
) -> Result<(), Memory>
    ensures { OnOk result (heads.new.items ≡ heads.old.items ++ map primitive_head primitives.now) }
{
    for decl in primitives {
        add(heads, primitive_head(alloc, decl)?)?;
    }
    Ok(())
}

/// Adds the declared types.
fn add_declared(
    alloc: Global,
    nothing: &Owners,
    heads: &mut Vec<Head>,
    types: &[&TypeDecl],
) -> Result<(), Memory>
    requires { nothing.now ≡ member_scope [] }
    ensures { OnOk result (heads.new.items ≡ heads.old.items ++ map head (map lent_type types.now)) }
{
    for decl in types {
        add(heads, declared_head(alloc, nothing, decl)?)?;
    }
    Ok(())
}

/// The types of a program with their members, after the primitive types.
pub fn heads_of(
    alloc: Global,
    nothing: &Owners,
    primitives: &[resolved::TypeDecl],
    types: &[&TypeDecl],
) -> Result<Heads, Memory>
    requires empty { nothing.now ≡ member_scope [] }
    requires primitive { primitives.now ≡ primitive_types }
    requires few { length types.now ≤ 1024 }
    ensures { IfOk result (λ hs. hs ≡ heads_of (map lent_type types.now)) }
{
    let mut heads = Vec::new(alloc);
    add_primitives(alloc, &mut heads, primitives)?;
    add_declared(alloc, nothing, &mut heads, types)?;
    let names = head_table(alloc, &heads)?;
    Ok(Heads::new(heads, names))
}
