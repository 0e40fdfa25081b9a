//! Members of types, the parameters of modules, and the sets that a line's arguments put in for the atoms of its module.

ghost use Rattle.std.specs.Prelude.{◌≡◌, ◌++◌, IfOk, OnOk, slice_get};
ghost use Rattle.std.specs.Option.{option_copied};
ghost use Rattle.wy_types.specs.Program.{program_of};
ghost use Rattle.wy_types.specs.Ground.{abstract_set, defined_set, declared_set, member_set, members_of, type_of, names_of, set_or_empty, argument_sets, arguments_sets, abstract_names};
ghost use Rattle.wy_rules.specs.Acceptance.{is_parameter, parameters_among, parameters_of, opened, opened_members};
ghost use Rattle.wy_premises.specs.Sets.{sets_of_members};

use std::alloc::Global;
use wy_effects::set::{EffSet, SetList};
use wy_text::list::Items;
use wy_text::text::{Memory, Text};
use wy_types::bounds::type_bounds;
use wy_types::resolved::{Core, DefinedMember, Origin, OwnName};
use wy_types::types::TypeRef;

// ----------------------------------------------------------------------------
// Members

/// The set of the abstract member of a name.
fn abstract_set<'a>(name: &Text, members: &[Text], sets: &'a [EffSet]) -> Option<&'a EffSet>
    ensures { option_copied result ≡ abstract_set name.now members.now sets.now }
{
    for (i, member) in members.iter().enumerate() {
        if *member == *name {
            return sets.get(i);
        }
    }
    None
}

/// The set of the defined member of a name, with the sets put in for the abstract ones.
fn defined_set(
    name: &Text,
    defined: &[DefinedMember],
    sets: &[EffSet],
) -> Result<Option<EffSet>, Memory>
    ensures { IfOk result (λ o. o ≡ defined_set name.now defined.now sets.now) }
{
    for member in defined {
        if member.name == *name {
            return Ok(Some(member.effects.substitute(sets)?));
        }
    }
    Ok(None)
}

/// The set of the member of a name of a declared type with these sets.
fn declared_set(
    core: &Core,
    decl: u16,
    sets: &[EffSet],
    name: &Text,
) -> Result<Option<EffSet>, Memory>
    ensures { IfOk result (λ o. o ≡ declared_set name.now (slice_get core.now.declarations decl) sets.now) }
{
    match core.declarations.get(decl as usize) {
        None => Ok(None),
        Some(d) => match abstract_set(name, d.members.as_slice(), sets) {
            Some(set) => Ok(Some(set.copy()?)),
            None => defined_set(name, d.defined.as_slice(), sets),
        },
    }
}

/// The set that a type gives to the member of a name, abstract or defined; a type at a bound gives the bound to every
/// name (docs/LANGUAGE.md, "Modules and lines").
pub fn member_set(core: &Core, typ: &TypeRef, name: &Text) -> Result<Option<EffSet>, Memory>
    ensures { IfOk result (λ o. o ≡ member_set (program_of core.now) typ.now name.now) }
{
    match typ {
        TypeRef::Int | TypeRef::Bool | TypeRef::Text | TypeRef::Unit | TypeRef::Own { .. } => Ok(
            None,
        ),
        TypeRef::Named { decl, members } => declared_set(core, *decl, members.as_slice(), name),
        TypeRef::At { bound, .. } => Ok(Some(bound.copy()?)),
    }
}

/// The names of the abstract members of a declaration.
fn abstract_names(core: &Core, decl: u16) -> &[Text]
    ensures { result.now ≡ abstract_names (slice_get core.now.declarations decl) }
{
    match core.declarations.get(decl as usize) {
        Some(d) => d.members.as_slice(),
        None => &[],
    }
}

/// The names of the abstract members of a declared type; other types have none.
pub fn members_of<'a>(core: &'a Core, typ: &TypeRef) -> &'a [Text]
    ensures { result.now ≡ members_of (program_of core.now) typ.now }
{
    match typ {
        TypeRef::Int | TypeRef::Bool | TypeRef::Text | TypeRef::Unit | TypeRef::Own { .. } => &[],
        TypeRef::Named { decl, .. } | TypeRef::At { decl, .. } => abstract_names(core, *decl),
    }
}

// ----------------------------------------------------------------------------
// Parameters

/// Whether an own name is a parameter.
fn is_parameter(origin: &Origin) -> bool
    ensures { result ≡ is_parameter origin.now }
{
    match origin {
        Origin::Parameter { .. } => true,
        Origin::Grant | Origin::Use { .. } | Origin::Instance { .. } | Origin::Import { .. } =>
            false,
    }
}

/// The parameters, which stand first among own names.
fn parameters_among(names: &[OwnName]) -> &[OwnName]
    ensures { result.now ≡ parameters_among names.now }
{
    for (i, name) in names.iter().enumerate() {
        if !is_parameter(&name.origin) {
            return &names[..i];
        }
    }
    names
}

/// The own names of the scope of a number.
pub fn names_of(core: &Core, number: u16) -> &[OwnName]
    ensures { result.now ≡ names_of (slice_get (program_of core.now).scopes number) }
{
    match core.scopes.get(number as usize) {
        Some(scope) => scope.names.as_slice(),
        None => &[],
    }
}

/// The parameters of the module of a number.
pub fn parameters_of(core: &Core, number: u16) -> &[OwnName]
    ensures { result.now ≡ parameters_of (program_of core.now) number }
{
    parameters_among(names_of(core, number))
}

/// The members that a parameter opens: a bare one those of its type.
pub fn opened<'a>(core: &'a Core, name: &OwnName) -> &'a [Text]
    ensures { result.now ≡ opened (program_of core.now) name.now name.now.origin }
{
    match name.origin {
        Origin::Parameter { bare: true } => members_of(core, &name.typ),
        Origin::Parameter { bare: false }
        | Origin::Grant
        | Origin::Use { .. }
        | Origin::Instance { .. }
        | Origin::Import { .. } => &[],
    }
}

/// The upper bounds of the members that a parameter opens.
pub fn opened_members<'a>(core: &'a Core, name: &OwnName) -> &'a [Option<EffSet>]
    ensures { result.now ≡ opened_members (program_of core.now) name.now name.now.origin }
{
    match name.origin {
        Origin::Parameter { bare: true } => type_bounds(core, &name.typ),
        Origin::Parameter { bare: false }
        | Origin::Grant
        | Origin::Use { .. }
        | Origin::Instance { .. }
        | Origin::Import { .. } => &[],
    }
}

// ----------------------------------------------------------------------------
// Sets of arguments

/// The type of an own name that is handed on.
pub fn argument_type(alloc: Global, outer: &[OwnName], argument: u32) -> Result<TypeRef, Memory>
    ensures { IfOk result (λ t. t ≡ type_of (slice_get outer.now argument)) }
{
    match outer.get(argument as usize) {
        Some(name) => name.typ.copy(alloc),
        None => Ok(TypeRef::Unit),
    }
}

/// The set of a member, or none where the type does not have it.
fn set_of_member(alloc: Global, core: &Core, typ: &TypeRef, member: &Text) -> Result<EffSet, Memory>
    ensures { IfOk result (λ s. s ≡ set_or_empty (member_set (program_of core.now) typ.now member.now)) }
{
    match member_set(core, typ, member)? {
        Some(set) => Ok(set),
        None => Ok(EffSet::empty(alloc)),
    }
}

/// Adds the sets of members of a type.
fn add_sets(
    alloc: Global,
    core: &Core,
    typ: &TypeRef,
    members: &[Text],
    out: &mut SetList,
) -> Result<(), Memory>
    ensures { OnOk result (out.new ≡ out.old ++ sets_of_members (program_of core.now) typ.now members.now) }
{
    for member in members {
        out.push(set_of_member(alloc, core, typ, member)?)?;
    }
    Ok(())
}

/// Adds the sets that a parameter's atoms stand for: those of its argument.
pub fn add_argument_sets(
    alloc: Global,
    core: &Core,
    outer: &[OwnName],
    name: &OwnName,
    argument: u32,
    out: &mut SetList,
) -> Result<(), Memory>
    ensures { OnOk result (out.new ≡ out.old ++ argument_sets (program_of core.now) outer.now name.now.origin name.now argument) }
{
    let typ = argument_type(alloc, outer, argument)?;
    add_sets(alloc, core, &typ, opened(core, name), out)
}

/// The sets that a module's atoms stand for where its parameters are handed a line's arguments, which are own names of the
/// scope where the line stands (docs/LANGUAGE.md, "Modules and lines").
pub fn arguments_sets(
    alloc: Global,
    core: &Core,
    outer: &[OwnName],
    names: &[OwnName],
    arguments: &[u32],
) -> Result<SetList, Memory>
    ensures { IfOk result (λ l. l ≡ arguments_sets (program_of core.now) outer.now names.now arguments.now) }
{
    let mut out = Items::new(alloc);
    for (i, name) in names.iter().enumerate() {
        if let Some(argument) = arguments.get(i) {
            add_argument_sets(alloc, core, outer, name, *argument, &mut out)?;
        }
    }
    Ok(out)
}
