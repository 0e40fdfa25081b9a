//! A scope's own names with their types (docs/LANGUAGE.md, "Names").

ghost use Rattle.std.specs.Prelude.{◌≡◌, ◌≤◌, ◌<◌, ◌+◌, ◌^◌, ◌++◌, ◌∷◌, [], List, Some, map, take, drop, length, slice_get, true, false, IfOk, OnOk};
ghost use Rattle.wy_symbols.specs.declared.scoping.Owner.{Owner};
ghost use Rattle.wy_symbols.specs.Atoms.{head_names, param_owner, params_owners, grant_owner, use_owner, atom_scope};
ghost use Rattle.wy_heads.specs.Lines.{number_or_zero, opened_type, is_bare, param_type, param_name, grant_name, use_name};
ghost use Rattle.wy_symbols.specs.Lent.{module_tree};

use crate::module_index::ModuleIndex;
use std::alloc::Global;
use wy_effects::set::copy_sets;
use wy_symbols::{AtomScope, Meanings, Opening, Owners, type_ref};
use wy_syntax::items::Grant;
use wy_syntax::types::{Name, Param, TypeUse};
use wy_text::list::Items;
use wy_text::text::{Memory, Text};
use wy_types::resolved::{Origin, OwnName};
use wy_types::types::TypeRef;

/// The type that the owner of a number opens, with its own atoms.
pub fn own_type(alloc: Global, owners: &Owners, number: usize) -> Result<TypeRef, Memory>
    ensures { (o : Owner) → slice_get owners.now.owners number ≡ Some o → IfOk result (λ t. t ≡ opened_type owners.now.heads owners.now.atoms o.name o.opening) }
{
    let Some(opened) = owners.at(number) else {
        return Ok(TypeRef::Unit);
    };
    match opened.owner.opening {
        Opening::Members { decl } => Ok(TypeRef::Named {
            decl,
            members: copy_sets(alloc, opened.sets.as_slice())?,
        }),
        Opening::Nothing | Opening::Missing => Ok(TypeRef::Unit),
    }
}

fn is_bare(use_of: &TypeUse) -> bool
    ensures { result ≡ is_bare use_of.now }
{
    match use_of {
        TypeUse::Int(_)
        | TypeUse::Bool(_)
        | TypeUse::Text(_)
        | TypeUse::Unit(_)
        | TypeUse::With(_, _)
        | TypeUse::At(_, _) => false,
        TypeUse::Bare(_) => true,
    }
}

/// A parameter of a plain module.
fn plain_param(alloc: Global, scope: &AtomScope, param: &Param) -> Result<OwnName, Memory>
    ensures { IfOk result (λ n. n ≡ param_name scope.now true param.now) }
{
    Ok(OwnName {
        name: param.name.text.copy()?,
        place: param.name.place,
        typ: type_ref(alloc, scope, true, &param.type_use)?,
        origin: Origin::Parameter { bare: false },
    })
}

/// The type of a parameter that is the owner of a number: a bare one has its own atoms.
fn param_type(
    alloc: Global,
    scope: &AtomScope,
    owners: &Owners,
    number: usize,
    param: &Param,
) -> Result<TypeRef, Memory>
    requires heads { scope.now.heads ≡ owners.now.heads }
    requires atoms { scope.now.atoms ≡ owners.now.atoms }
    requires there { slice_get owners.now.owners number ≡ Some (param_owner (head_names owners.now.heads) param.now) }
    ensures { IfOk result (λ t. t ≡ param_type scope.now param.now.name.text param.now.type_use) }
{
    if is_bare(&param.type_use) {
        own_type(alloc, owners, number)
    } else {
        type_ref(alloc, scope, false, &param.type_use)
    }
}

/// A parameter of a module that is not plain.
fn effect_param(
    alloc: Global,
    scope: &AtomScope,
    owners: &Owners,
    number: usize,
    param: &Param,
) -> Result<OwnName, Memory>
    requires heads { scope.now.heads ≡ owners.now.heads }
    requires atoms { scope.now.atoms ≡ owners.now.atoms }
    requires there { slice_get owners.now.owners number ≡ Some (param_owner (head_names owners.now.heads) param.now) }
    ensures { IfOk result (λ n. n ≡ param_name scope.now false param.now) }
{
    Ok(OwnName {
        name: param.name.text.copy()?,
        place: param.name.place,
        typ: param_type(alloc, scope, owners, number, param)?,
        origin: Origin::Parameter {
            bare: is_bare(&param.type_use),
        },
    })
}

/// Adds the parameters of a plain module.
fn add_plain_params(
    alloc: Global,
    list: &mut Items<OwnName>,
    scope: &AtomScope,
    params: &[Param],
) -> Result<(), Memory>
    ensures { OnOk result (list.new ≡ list.old ++ map (param_name scope.now true) params.now) }
{
    for param in params {
        list.push(plain_param(alloc, scope, param)?)?;
    }
    Ok(())
}

/// Adds the parameters of a module that is not plain, which are its first owners.
fn add_effect_params(
    alloc: Global,
    list: &mut Items<OwnName>,
    scope: &AtomScope,
    owners: &Owners,
    params: &[Param],
) -> Result<(), Memory>
    requires heads { scope.now.heads ≡ owners.now.heads }
    requires atoms { scope.now.atoms ≡ owners.now.atoms }
    requires first { take (length params.now) owners.now.owners ≡ map (param_owner (head_names owners.now.heads)) params.now }
    ensures { OnOk result (list.new ≡ list.old ++ map (param_name scope.now false) params.now) }
{
    for i in 0..params.len() {
        let param = &params[i];
        list.push(effect_param(alloc, scope, owners, i, param)?)?;
    }
    Ok(())
}

/// Adds the parameters of a module, which are its first owners.
pub fn add_params(
    alloc: Global,
    list: &mut Items<OwnName>,
    owners: &Owners,
    plain: bool,
    params: &[Param],
) -> Result<(), Memory>
    requires { take (length params.now) owners.now.owners ≡ params_owners (head_names owners.now.heads) plain params.now }
    ensures { OnOk result (list.new ≡ list.old ++ map (param_name (atom_scope owners.now.heads owners.now.atoms (params_owners (head_names owners.now.heads) plain params.now) []) plain) params.now) }
{
    let nothing = Meanings::new(alloc);
    let scope = AtomScope::new(owners, params.len(), &nothing);
    if plain {
        add_plain_params(alloc, list, &scope, params)
    } else {
        add_effect_params(alloc, list, &scope, owners, params)
    }
}

/// A grant that is the owner of a number.
fn grant_own(
    alloc: Global,
    owners: &Owners,
    number: usize,
    grant: &Grant,
) -> Result<OwnName, Memory>
    requires { slice_get owners.now.owners number ≡ Some (grant_owner (head_names owners.now.heads) grant.now) }
    ensures { IfOk result (λ n. n ≡ grant_name owners.now grant.now) }
{
    Ok(OwnName {
        name: grant.name.text.copy()?,
        place: grant.name.place,
        typ: own_type(alloc, owners, number)?,
        origin: Origin::Grant,
    })
}

/// Adds the grants of a program block, which are its first owners.
pub fn add_grants(
    alloc: Global,
    list: &mut Items<OwnName>,
    owners: &Owners,
    grants: &[Grant],
) -> Result<(), Memory>
    requires { take (length grants.now) owners.now.owners ≡ map (grant_owner (head_names owners.now.heads)) grants.now }
    ensures { OnOk result (list.new ≡ list.old ++ map (grant_name owners.now) grants.now) }
{
    for i in 0..grants.len() {
        let grant = &grants[i];
        list.push(grant_own(alloc, owners, i, grant)?)?;
    }
    Ok(())
}

/// A used module that is the owner of a number.
fn use_own(
    alloc: Global,
    owners: &Owners,
    modules: &ModuleIndex,
    number: usize,
    name: &Name,
) -> Result<OwnName, Memory>
    requires { slice_get owners.now.owners number ≡ Some (use_owner (head_names owners.now.heads) (map module_tree modules.now) name.now) }
    ensures { IfOk result (λ n. n ≡ use_name owners.now.heads (map module_tree modules.now) owners.now.atoms name.now) }
{
    Ok(OwnName {
        name: name.text.copy()?,
        place: name.place,
        typ: own_type(alloc, owners, number)?,
        origin: Origin::Use {
            module: modules.number_or_zero(&name.text),
        },
    })
}

/// Adds the used modules of a scope, which are its owners from a number on.
pub fn add_uses(
    alloc: Global,
    list: &mut Items<OwnName>,
    owners: &Owners,
    modules: &ModuleIndex,
    first: usize,
    uses: &[Name],
) -> Result<(), Memory>
    requires fits { first + length uses.now < 2 ^ 64 }
    requires there { take (length uses.now) (drop first owners.now.owners) ≡ map (use_owner (head_names owners.now.heads) (map module_tree modules.now)) uses.now }
    ensures { OnOk result (list.new ≡ list.old ++ map (use_name owners.now.heads (map module_tree modules.now) owners.now.atoms) uses.now) }
{
    for i in 0..uses.len() {
        let name = &uses[i];
        list.push(use_own(alloc, owners, modules, first + i, name)?)?;
    }
    Ok(())
}
