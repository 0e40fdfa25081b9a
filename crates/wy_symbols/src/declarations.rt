//! Type declarations with their names resolved (docs/LANGUAGE.md, "Types").

ghost use Rattle.std.specs.Prelude.{◌≡◌, ◌≤◌, ◌++◌, ◌∷◌, [], false, List, map, length, IfOk, OnOk};
ghost use Rattle.wy_types.specs.Primitive.{primitive_types};
ghost use Rattle.wy_symbols.specs.Least.{noted};
ghost use Rattle.wy_symbols.specs.Declarations.{repeated};
ghost use Rattle.wy_syntax.specs.Collected.{Adds};
ghost use Rattle.wy_symbols.specs.Meanings.{abstract_names, abstract_bounds};
ghost use Rattle.wy_symbols.specs.Atoms.{member_scope, members_after};
ghost use Rattle.wy_symbols.specs.TypeUses.{declaration_scope, defined_members, declared_methods, method_of, signature_refusals, declaration, declarations_of, member_names, method_names, members_refusals, declaration_refusals, declarations_refusals};
ghost use Rattle.wy_symbols.specs.Lent.{lent_name, lent_type};

use crate::atom_scope::{AtomScope, Owners};
use crate::collected::WrittenNames;
use crate::meanings::Meanings;
use crate::members::{add_abstract, members_after, read_bounded, read_defined};
use crate::refusal::Refusal;
use crate::scoping::Meaning;
use crate::signatures::read_method;
use crate::tables::note_repeated;
use std::alloc::Global;
use wy_effects::set::EffSet;
use wy_syntax::items::{Member, TypeDecl};
use wy_syntax::types::Signature;
use wy_text::list::Items;
use wy_text::text::{Memory, Text};
use wy_types::resolved;
use wy_types::resolved::{BoundList, DefinedMember};
use wy_types::types::Method;

/// The names of the abstract members.
fn abstract_names(alloc: Global, members: &[Meaning]) -> Result<Items<Text>, Memory>
    ensures { IfOk result (λ ns. ns ≡ abstract_names members.now) }
{
    let mut names = Items::new(alloc);
    for member in members {
        if member.is_abstract {
            names.push(member.name.copy()?)?;
        }
    }
    Ok(names)
}

/// An upper bound, where there is one, with the same atoms.
fn copy_bound(bound: &Option<EffSet>) -> Result<Option<EffSet>, Memory>
    ensures { IfOk result (λ b. b ≡ bound.now) }
{
    match bound {
        None => Ok(None),
        Some(set) => Ok(Some(set.copy()?)),
    }
}

/// The upper bounds of the abstract members.
fn abstract_bounds(alloc: Global, members: &[Meaning]) -> Result<BoundList, Memory>
    ensures { IfOk result (λ bs. bs ≡ abstract_bounds members.now) }
{
    let mut bounds = Items::new(alloc);
    for member in members {
        if member.is_abstract {
            bounds.push(copy_bound(&member.bound)?)?;
        }
    }
    Ok(bounds)
}

/// The defined members with their sets.
fn defined_members(alloc: Global, members: &[Meaning]) -> Result<Items<DefinedMember>, Memory>
    ensures { IfOk result (λ ds. ds ≡ defined_members members.now) }
{
    let mut defined = Items::new(alloc);
    for member in members {
        if !member.is_abstract {
            defined.push(DefinedMember {
                name: member.name.copy()?,
                effects: member.atoms.copy()?,
            })?;
        }
    }
    Ok(defined)
}

/// A type declaration with these members and methods.
fn declared(
    alloc: Global,
    decl: &TypeDecl,
    members: &[Meaning],
    methods: Items<Method>,
) -> Result<resolved::TypeDecl, Memory>
    ensures { IfOk result (λ d. d ≡ record { name = decl.now.name.text; members = abstract_names members.now; bounds = abstract_bounds members.now; defined = defined_members members.now; methods = methods }) }
{
    Ok(resolved::TypeDecl {
        name: decl.name.text.copy()?,
        members: abstract_names(alloc, members)?,
        bounds: abstract_bounds(alloc, members)?,
        defined: defined_members(alloc, members)?,
        methods,
    })
}

/// Adds the names of the effect members.
fn add_member_names<'a>(names: &mut WrittenNames<'a>, members: &'a [Member])
    ensures { Adds (member_names members.now) names.old names.new }
{
    for member in members {
        match member {
            Member::Abstract(name) => names.add(name),
            Member::Bounded(name, _) => names.add(name),
            Member::Defined(name, _) => names.add(name),
            Member::Method(_) => {}
        }
    }
}

/// Adds the names of the methods.
fn add_method_names<'a>(names: &mut WrittenNames<'a>, members: &'a [Member])
    ensures { Adds (method_names members.now) names.old names.new }
{
    for member in members {
        match member {
            Member::Abstract(_) => {}
            Member::Bounded(_, _) => {}
            Member::Defined(_, _) => {}
            Member::Method(signature) => names.add(&signature.name),
        }
    }
}

/// Adds a method. The refusals of its signature are noted.
fn add_method(
    alloc: Global,
    scope: &AtomScope,
    methods: &mut Items<Method>,
    signature: &Signature,
    least: &mut Option<Refusal>,
) -> Result<(), Memory>
    ensures methods { OnOk result (methods.new ≡ methods.old ++ method_of scope.now false signature.now ∷ []) }
    ensures noted { OnOk result (least.new ≡ noted least.old (signature_refusals scope.now false signature.now)) }
{
    methods.push(read_method(alloc, scope, false, signature, least)?)
}

/// Adds the methods of a declaration, and its effect members as those before the next one. The refusals inside
/// them are noted: the set of a defined one and an upper bound see those before it, a signature all.
fn add_members(
    alloc: Global,
    nothing: &Owners,
    scope: &AtomScope,
    members: &[Member],
    before: &mut Meanings,
    methods: &mut Items<Method>,
    least: &mut Option<Refusal>,
) -> Result<(), Memory>
    requires empty { nothing.now ≡ member_scope [] }
    requires first { before.old ≡ [] }
    ensures methods { OnOk result (methods.new ≡ methods.old ++ declared_methods scope.now members.now) }
    ensures noted { OnOk result (least.new ≡ noted least.old (members_refusals scope.now [] 0 members.now)) }
{
    let mut number = 0;
    for member in members {
        match member {
            Member::Abstract(name) => {
                add_abstract(alloc, before, &name.text, number)?;
                number += 1;
            }
            Member::Bounded(name, set) => {
                let set = set.as_slice();
                read_bounded(alloc, nothing, before, &name.text, number, set, least)?;
                number += 1;
            }
            Member::Defined(name, set) => {
                let set = set.as_slice();
                read_defined(alloc, nothing, before, &name.text, set, least)?;
            }
            Member::Method(signature) => {
                add_method(alloc, scope, methods, signature, least)?;
            }
        }
    }
    Ok(())
}

/// The methods of a declaration. The refusals inside its members are noted.
fn read_members(
    alloc: Global,
    nothing: &Owners,
    scope: &AtomScope,
    members: &[Member],
    least: &mut Option<Refusal>,
) -> Result<Items<Method>, Memory>
    requires { nothing.now ≡ member_scope [] }
    ensures methods { IfOk result (λ ms. ms ≡ declared_methods scope.now members.now) }
    ensures noted { OnOk result (least.new ≡ noted least.old (members_refusals scope.now [] 0 members.now)) }
{
    let mut methods = Items::new(alloc);
    let mut before = Meanings::new(alloc);
    add_members(
        alloc,
        nothing,
        scope,
        members,
        &mut before,
        &mut methods,
        least,
    )?;
    Ok(methods)
}

/// Notes Twice at each effect member that repeats the name of one before it.
fn note_repeated_effects(
    alloc: Global,
    members: &[Member],
    least: &mut Option<Refusal>,
) -> Result<(), Memory>
    ensures { OnOk result (least.new ≡ noted least.old (repeated [] (member_names members.now))) }
{
    let mut names = WrittenNames::new(alloc);
    add_member_names(&mut names, members);
    let names = names.all()?;
    note_repeated(alloc, &[], &names, least)
}

/// Notes Twice at each method that repeats the name of one before it.
fn note_repeated_methods(
    alloc: Global,
    members: &[Member],
    least: &mut Option<Refusal>,
) -> Result<(), Memory>
    ensures { OnOk result (least.new ≡ noted least.old (repeated [] (method_names members.now))) }
{
    let mut names = WrittenNames::new(alloc);
    add_method_names(&mut names, members);
    let names = names.all()?;
    note_repeated(alloc, &[], &names, least)
}

/// Notes Twice at each effect member and each method that repeats the name of one before it.
#[tactic(auto, using(crate::proofs::Leasts::noted_append))]
fn note_repeated_members(
    alloc: Global,
    members: &[Member],
    least: &mut Option<Refusal>,
) -> Result<(), Memory>
    ensures { OnOk result (least.new ≡ noted least.old (repeated [] (member_names members.now) ++ repeated [] (method_names members.now))) }
{
    note_repeated_effects(alloc, members, least)?;
    note_repeated_methods(alloc, members, least)
}

/// A type declaration with its names resolved. `nothing` and `types` have no owners; these see the types. Its
/// refusals are noted.
#[tactic(auto, using(crate::proofs::Leasts::noted_append))]
fn read_declaration(
    alloc: Global,
    nothing: &Owners,
    types: &Owners,
    decl: &TypeDecl,
    least: &mut Option<Refusal>,
) -> Result<resolved::TypeDecl, Memory>
    requires empty { nothing.now ≡ member_scope [] }
    requires seen { types.now ≡ declaration_scope types.now.heads [] }
    ensures value { IfOk result (λ d. d ≡ declaration types.now.heads decl.now) }
    ensures noted { OnOk result (least.new ≡ noted least.old (declaration_refusals types.now.heads decl.now)) }
{
    note_repeated_members(alloc, decl.members.as_slice(), least)?;
    let members = members_after(alloc, nothing, decl.members.as_slice())?;
    let scope = AtomScope::new(types, 0, &members);
    let methods = read_members(alloc, nothing, &scope, decl.members.as_slice(), least)?;
    declared(alloc, decl, members.as_slice(), methods)
}

/// Adds the declared types to the primitive ones. Their refusals are noted.
pub fn read_declarations(
    alloc: Global,
    nothing: &Owners,
    types: &Owners,
    list: &mut Items<resolved::TypeDecl>,
    decls: &[&TypeDecl],
    least: &mut Option<Refusal>,
) -> Result<(), Memory>
    requires empty { nothing.now ≡ member_scope [] }
    requires seen { types.now ≡ declaration_scope types.now.heads [] }
    ensures list { OnOk result (list.new ≡ list.old ++ map (declaration types.now.heads) (map lent_type decls.now)) }
    ensures noted { OnOk result (least.new ≡ noted least.old (declarations_refusals types.now.heads (map lent_type decls.now))) }
{
    for decl in decls {
        list.push(read_declaration(alloc, nothing, types, decl, least)?)?;
    }
    Ok(())
}
