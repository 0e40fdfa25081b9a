ghost use Rattle.std.specs.Prelude.{◌≡◌, ◌++◌, ◌∷◌, [], map, IfOk, OnOk, None, Some, codes, slice_get};
ghost use Rattle.wy_effects.specs.AtomTable.{atom_name};
ghost use Rattle.wy_types.specs.Program.{program_of, scope_of, body_of};
ghost use Rattle.wy_types.specs.Ground.{members_of, names_of, program_number, program_sets, start_list};
ghost use Rattle.wy_authority.specs.Authority.{HasBody, authority_of, body_name, body_row, body_rows, body_set, bound_of, grant_atoms, granted, instance_row, main_row};

use crate::rows::{Authority, BodyRow, InstanceRow};
use std::alloc::Global;
use wy_effects::set::EffSet;
use wy_text::fault::AtomName;
use wy_text::list::Items;
use wy_text::text::{Memory, Text, from_bytes, from_vec};
use wy_types::linked::Instance;
use wy_types::resolved::{Body, Core, Origin, OwnName, Scope};
use wy_types::types::TypeRef;

/// The name of a body: a literal's method has the literal's number before its own.
fn body_name(alloc: Global, body: &Body) -> Result<Text, Memory>
    ensures { IfOk result (λ t. t ≡ body_name (body_of body.now)) }
{
    if body.owner == 0 {
        return body.signature.name.copy();
    }
    let mut name = format!(in alloc; "new{}.", body.owner)?.into_bytes();
    name.extend_from_slice(body.signature.name.as_bytes())?;
    Ok(from_vec(name))
}

/// What a body of this effect may do: the bound where there is one, else its effect at the ground sets.
fn body_set(bound: &Option<EffSet>, sets: &[EffSet], effect: &EffSet) -> Result<EffSet, Memory>
    ensures { IfOk result (λ s. s ≡ body_set bound.now sets.now effect.now) }
{
    match bound {
        Some(bound) => bound.copy(),
        None => effect.substitute(sets),
    }
}

/// Adds the row of a body of this name and effect.
fn add_row(
    rows: &mut Items<BodyRow>,
    name: Text,
    bound: &Option<EffSet>,
    sets: &[EffSet],
    effect: &EffSet,
) -> Result<(), Memory>
    ensures { OnOk result (rows.new ≡ rows.old ++ body_row name (body_set bound.now sets.now effect.now) ∷ []) }
{
    let set = body_set(bound, sets, effect)?;
    rows.push(BodyRow { name, set })
}

/// Adds the row of the body that a scope starts with.
fn add_start(
    alloc: Global,
    rows: &mut Items<BodyRow>,
    name: &str,
    bound: &Option<EffSet>,
    sets: &[EffSet],
    effect: &EffSet,
) -> Result<(), Memory>
    ensures { OnOk result (rows.new ≡ rows.old ++ body_row name.now (body_set bound.now sets.now effect.now) ∷ []) }
{
    let name = from_bytes(alloc, name.as_bytes())?;
    add_row(rows, name, bound, sets, effect)
}

/// Adds the row of a method.
fn add_body(
    alloc: Global,
    rows: &mut Items<BodyRow>,
    bound: &Option<EffSet>,
    sets: &[EffSet],
    body: &Body,
) -> Result<(), Memory>
    ensures { OnOk result (rows.new ≡ rows.old ++ body_row (body_name (body_of body.now)) (body_set bound.now sets.now body.now.signature.effect) ∷ []) }
{
    let name = body_name(alloc, body)?;
    add_row(rows, name, bound, sets, &body.signature.effect)
}

/// The bodies of a scope: the one that it starts with, by the name that is given, and then its methods.
fn body_rows(
    alloc: Global,
    bound: &Option<EffSet>,
    sets: &[EffSet],
    first: &str,
    scope: &Scope,
) -> Result<Items<BodyRow>, Memory>
    ensures { IfOk result (λ rows. rows ≡ body_rows bound.now sets.now first.now (Some (scope_of scope.now))) }
{
    let mut rows = Items::new(alloc);
    add_start(alloc, &mut rows, first, bound, sets, &scope.start_effect)?;
    for body in scope.bodies.as_slice() {
        add_body(alloc, &mut rows, bound, sets, body)?;
    }
    Ok(rows)
}

/// The bodies of the scope of a number.
fn rows_at(
    alloc: Global,
    core: &Core,
    number: usize,
    bound: &Option<EffSet>,
    sets: &[EffSet],
    first: &str,
) -> Result<Items<BodyRow>, Memory>
    ensures { IfOk result (λ rows. rows ≡ body_rows bound.now sets.now first.now (slice_get (program_of core.now).scopes number)) }
{
    match core.scopes.get(number) {
        Some(scope) => body_rows(alloc, bound, sets, first, scope),
        None => Ok(Items::new(alloc)),
    }
}

/// The row of an instance.
fn instance_row(alloc: Global, core: &Core, instance: &Instance) -> Result<InstanceRow, Memory>
    ensures { IfOk result (λ r. r ≡ instance_row (program_of core.now) instance.now) }
{
    let number = instance.scope as usize;
    let sets = instance.ground.as_slice();
    Ok(InstanceRow {
        name: instance.name.copy()?,
        bodies: rows_at(alloc, core, number, &instance.bound, sets, "init")?,
    })
}

/// The rows of instances, in their order.
fn instance_rows(
    alloc: Global,
    core: &Core,
    instances: &[Instance],
) -> Result<Items<InstanceRow>, Memory>
    ensures { IfOk result (λ rows. rows ≡ map (instance_row (program_of core.now)) instances.now) }
{
    let mut rows = Items::new(alloc);
    for instance in instances {
        rows.push(instance_row(alloc, core, instance)?)?;
    }
    Ok(rows)
}

/// The row of the program.
fn main_row(alloc: Global, core: &Core, sets: &[EffSet]) -> Result<InstanceRow, Memory>
    requires { sets.now ≡ program_sets (program_of core.now) }
    ensures { IfOk result (λ r. r ≡ main_row (program_of core.now)) }
{
    let number = core.scopes.len().saturating_sub(1);
    Ok(InstanceRow {
        name: from_bytes(alloc, b"main")?,
        bodies: rows_at(alloc, core, number, &None, sets, "run")?,
    })
}

/// The rows of the instances, and then that of the program.
fn all_rows(
    alloc: Global,
    core: &Core,
    instances: &[Instance],
    sets: &[EffSet],
) -> Result<Items<InstanceRow>, Memory>
    requires { sets.now ≡ program_sets (program_of core.now) }
    ensures { IfOk result (λ rows. rows ≡ map (instance_row (program_of core.now)) instances.now ++ main_row (program_of core.now) ∷ []) }
{
    let mut rows = instance_rows(alloc, core, instances)?;
    rows.push(main_row(alloc, core, sets)?)?;
    Ok(rows)
}

/// The abstract members that a declared type has.
fn members_of<'a>(core: &'a Core, typ: &TypeRef) -> &'a [Text]
    ensures { result.now ≡ members_of (program_of core.now) typ.now }
{
    let (TypeRef::Named { decl, .. } | TypeRef::At { decl, .. }) = typ else {
        return &[];
    };
    match core.declarations.get(*decl as usize) {
        Some(declaration) => declaration.members.as_slice(),
        None => &[],
    }
}

/// The atom of a member of an owner.
fn atom_of(owner: &Text, member: &Text) -> Result<AtomName, Memory>
    ensures { IfOk result (λ atom. atom ≡ atom_name owner.now member.now) }
{
    Ok(AtomName {
        owner: owner.copy()?,
        member: member.copy()?,
    })
}

/// Adds the atoms of an owner and these members.
fn add_members(atoms: &mut Items<AtomName>, owner: &Text, members: &[Text]) -> Result<(), Memory>
    ensures { OnOk result (atoms.new ≡ atoms.old ++ map (atom_name owner.now) members.now) }
{
    for member in members {
        atoms.push(atom_of(owner, member)?)?;
    }
    Ok(())
}

/// Adds the atoms of a grant; another own name has none.
fn add_granted(atoms: &mut Items<AtomName>, core: &Core, name: &OwnName) -> Result<(), Memory>
    ensures { OnOk result (atoms.new ≡ atoms.old ++ granted (program_of core.now) name.now.origin name.now) }
{
    match &name.origin {
        Origin::Grant => add_members(atoms, &name.name, members_of(core, &name.typ)),
        Origin::Parameter { .. }
        | Origin::Use { .. }
        | Origin::Instance { .. }
        | Origin::Import { .. } => Ok(()),
    }
}

/// The atoms of the grants among own names.
fn grant_atoms(alloc: Global, core: &Core, names: &[OwnName]) -> Result<Items<AtomName>, Memory>
    ensures { IfOk result (λ atoms. atoms ≡ grant_atoms (program_of core.now) names.now) }
{
    let mut atoms = Items::new(alloc);
    for name in names {
        add_granted(&mut atoms, core, name)?;
    }
    Ok(atoms)
}

/// The program's own names; none where there is no scope.
fn program_names(core: &Core) -> &[OwnName]
    ensures { result.now ≡ names_of (slice_get (program_of core.now).scopes (program_number (program_of core.now))) }
{
    match core.scopes.get(core.scopes.len().saturating_sub(1)) {
        Some(scope) => scope.names.as_slice(),
        None => &[],
    }
}

/// The authority of each body of a program, whose start list and whose program's ground sets are given
/// (docs/LANGUAGE.md, "Authority and report"). `Err` comes only where memory is wanting.
pub fn authority(
    alloc: Global,
    core: &Core,
    instances: &[Instance],
    sets: &[EffSet],
) -> Result<Authority, Memory>
    requires instances { instances.now ≡ start_list (program_of core.now) }
    requires sets { sets.now ≡ program_sets (program_of core.now) }
    ensures { IfOk result (λ a. a ≡ authority_of (program_of core.now)) }
{
    let atoms = grant_atoms(alloc, core, program_names(core))?;
    let rows = all_rows(alloc, core, instances, sets)?;
    Ok(Authority { atoms, rows })
}

/// The authority of one body, by the number of its row and its number in the row, which counts from 0
/// (docs/LANGUAGE.md, "Authority and report"). It takes no memory.
pub fn bound(authority: &Authority, instance: u16, body: u16) -> &EffSet
    requires { HasBody authority.now instance body }
    ensures { result.now ≡ bound_of authority.now instance body }
{
    let Some(row) = authority.rows.get(instance as usize) else {
        unreachable!();
    };
    match row.bodies.get(body as usize) {
        Some(body) => &body.set,
        None => unreachable!(),
    }
}
