//! The types that are listed for a scope.

ghost use Rattle.std.specs.Prelude.{◌≡◌, ℕ, ◌≤◌, ◌<◌, IfOk, IfErr, length, map, slice_get, Some};
ghost use Rattle.std.specs.Option.{option_copied};
ghost use Rattle.wy_effects.specs.EffSet.{IsSet, AreSets};
ghost use Rattle.wy_types.specs.declared.types.TypeRef.TheVariants.{Named, At, Own};
ghost use Rattle.wy_types.specs.Program.{Program, Scope as ProgramScope, program_of, scope_of};
ghost use Rattle.wy_types.specs.Core.{IsCore};
ghost use Rattle.wy_proving.specs.Certified.{typed, types_of};
ghost use Rattle.wy_proving.specs.Proving.{AllStand, TypeStands, TypesHold, sets_of};
ghost use Rattle.wy_proving.specs.Unproved.{IsFirstWithout, FailsAt};
ghost use Rattle.wy_proving.specs.declared.proof.CertTest.TheVariants.{Types};
ghost use Rattle.wy_recheck.specs.Standing.{StandsAs, FailsFirst};

use crate::failure::Failure;
use std::alloc::Global;
use wy_cert::{CertScope, CertType, NumberList};
use wy_effects::atom::Atom;
use wy_effects::set::{EffSet, SetList};
use wy_text::list::Items;
use wy_text::text::Memory;
use wy_types::resolved::{Core, Scope, ScopeKind, TypeDecl};
use wy_types::types::{TypeList, TypeRef};

/// The type of a number; none where there are not so many.
pub(crate) fn type_at(types: &[TypeRef], number: u32) -> Option<&TypeRef>
    ensures { option_copied result ≡ slice_get types.now number }
{
    types.get(number as usize)
}

/// The set of the atoms that are listed; none exactly where they do not ascend or one is not among so many atoms.
pub(crate) fn standing_set(
    alloc: Global,
    listed: &[u32],
    atoms: usize,
) -> Result<Option<EffSet>, Memory>
    requires { atoms ≤ 512 }
    ensures { IfOk result (StandsAs (IsSet atoms) listed.now) }
{
    let mut set = EffSet::empty(alloc);
    let mut least: usize = 0;
    for number in listed {
        let atom = *number as usize;
        if atom < least || atom >= atoms {
            return Ok(None);
        }
        set.insert(Atom(atom as u16))?;
        least = atom + 1;
    }
    Ok(Some(set))
}

/// The sets that are listed; none exactly where one is no set of so many atoms.
fn standing_sets(
    alloc: Global,
    listed: &[NumberList],
    atoms: usize,
) -> Result<Option<SetList>, Memory>
    requires { atoms ≤ 512 }
    ensures { IfOk result (StandsAs (AreSets atoms) listed.now) }
{
    let mut sets = Items::new(alloc);
    for numbers in listed {
        match standing_set(alloc, numbers.as_slice(), atoms)? {
            None => return Ok(None),
            Some(set) => sets.push(set)?,
        }
    }
    Ok(Some(sets))
}

/// How many sets a declared type has in a scope of a kind.
fn sets_of(kind: ScopeKind, declaration: &TypeDecl) -> usize
    ensures { (p : Program) (d : ℕ) → slice_get p.declarations d ≡ Some declaration.now → result ≡ sets_of p kind d }
{
    match kind {
        ScopeKind::Plain => 0,
        ScopeKind::Pure | ScopeKind::Resource | ScopeKind::Program => declaration.members.len(),
    }
}

/// The declared type of a number with the sets that are listed; none exactly where it cannot stand.
fn standing_named(
    alloc: Global,
    core: &Core,
    scope: &Scope,
    decl: u32,
    listed: &[NumberList],
) -> Result<Option<TypeRef>, Memory>
    requires types { length core.now.declarations ≤ 65536 }
    requires atoms { length scope.now.atoms ≤ 512 }
    ensures { IfOk result (StandsAs (TypeStands (program_of core.now) (scope_of scope.now)) (Named decl listed.now)) }
{
    match core.declarations.get(decl as usize) {
        None => Ok(None),
        Some(declaration) => {
            if listed.len() != sets_of(scope.kind, declaration) {
                return Ok(None);
            }
            match standing_sets(alloc, listed, scope.atoms.len())? {
                None => Ok(None),
                Some(members) => Ok(Some(TypeRef::Named {
                    decl: decl as u16,
                    members,
                })),
            }
        }
    }
}

/// The declared type of a number at the set that is listed; none exactly where it cannot stand.
fn standing_at(
    alloc: Global,
    core: &Core,
    scope: &Scope,
    decl: u32,
    listed: &[u32],
) -> Result<Option<TypeRef>, Memory>
    requires types { length core.now.declarations ≤ 65536 }
    requires atoms { length scope.now.atoms ≤ 512 }
    ensures { IfOk result (StandsAs (TypeStands (program_of core.now) (scope_of scope.now)) (At decl listed.now)) }
{
    if decl as usize >= core.declarations.len() {
        return Ok(None);
    }
    if scope.kind == ScopeKind::Plain && !listed.is_empty() {
        return Ok(None);
    }
    match standing_set(alloc, listed, scope.atoms.len())? {
        None => Ok(None),
        Some(bound) => Ok(Some(TypeRef::At {
            decl: decl as u16,
            bound,
        })),
    }
}

/// The own type of a number; none exactly where the scope has none of it.
fn standing_own(scope: &Scope, literal: u32) -> Option<TypeRef>
    ensures { (p : Program) → StandsAs (TypeStands p (scope_of scope.now)) (Own literal) result }
{
    if literal as usize >= scope.literals.len() {
        return None;
    }
    if scope.kind == ScopeKind::Program && literal == 0 {
        return None;
    }
    Some(TypeRef::Own { literal })
}

/// The type that is listed; none exactly where it cannot stand in the scope.
fn standing_type(
    alloc: Global,
    core: &Core,
    scope: &Scope,
    listed: &CertType,
) -> Result<Option<TypeRef>, Memory>
    requires types { length core.now.declarations ≤ 65536 }
    requires atoms { length scope.now.atoms ≤ 512 }
    ensures { IfOk result (StandsAs (TypeStands (program_of core.now) (scope_of scope.now)) (typed listed.now)) }
{
    match listed {
        CertType::Int => Ok(Some(TypeRef::Int)),
        CertType::Bool => Ok(Some(TypeRef::Bool)),
        CertType::Text => Ok(Some(TypeRef::Text)),
        CertType::Unit => Ok(Some(TypeRef::Unit)),
        CertType::Named { decl, members } => standing_named(
            alloc,
            core,
            scope,
            *decl,
            members.as_slice(),
        ),
        CertType::At { decl, bound } => standing_at(alloc, core, scope, *decl, bound.as_slice()),
        CertType::Own { literal } => Ok(standing_own(scope, *literal)),
    }
}

/// The types that are listed, where all can stand in the scope; else the number of the first that cannot.
fn types_in(
    alloc: Global,
    core: &Core,
    scope: &Scope,
    listed: &[CertType],
) -> Result<TypeList, Failure>
    requires types { length core.now.declarations ≤ 65536 }
    requires atoms { length scope.now.atoms ≤ 512 }
    ensures types { IfOk result (λ ts. (ts ≡ map typed listed.now) × AllStand (TypeStands (program_of core.now) (scope_of scope.now)) (map typed listed.now)) }
    ensures first { IfErr result (FailsFirst (IsFirstWithout (TypeStands (program_of core.now) (scope_of scope.now)) (map typed listed.now))) }
{
    let mut types = Items::new(alloc);
    for (i, one) in listed.iter().enumerate() {
        match standing_type(alloc, core, scope, one)? {
            None => return Err(Failure::At(i as u64)),
            Some(standing) => types.push(standing)?,
        }
    }
    Ok(types)
}

/// The types that a certificate lists for the scope of a number, as the program's, where all of them can stand in it: their
/// numbers are in range, their sets ascend and are of the scope's atoms, and a declared type has a set for each abstract
/// member. `At` comes exactly where one cannot, with the number of the first (docs/LANGUAGE.md, "Certificates").
pub fn standing_types(
    alloc: Global,
    core: &Core,
    number: u16,
    part: &CertScope,
) -> Result<TypeList, Failure>
    requires core { IsCore (program_of core.now) }
    requires there { number < length core.now.scopes }
    ensures types { IfOk result (λ ts. ts ≡ types_of part.now) }
    ensures stand { IfOk result (λ ts. (s : ProgramScope) → slice_get (program_of core.now).scopes number ≡ Some s → TypesHold (program_of core.now) number s part.now) }
    ensures first { IfErr result (λ f. (s : ProgramScope) → slice_get (program_of core.now).scopes number ≡ Some s → FailsFirst (FailsAt (program_of core.now) number s part.now Types) f) }
{
    let scope = &core.scopes.as_slice()[number as usize];
    types_in(alloc, core, scope, part.types.as_slice())
}
