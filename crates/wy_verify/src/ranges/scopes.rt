//! Scopes, and that each body stands once among them.

ghost use Rattle.std.specs.Prelude.{◌≡◌, ◌↔◌, ◌<◌, ◌++◌, ℕ, IsTrue, IfOk, OnOk, map, length, slice_get};
ghost use Rattle.wy_text.specs.Members.{In};
ghost use Rattle.wy_image.specs.declared.file.Body.{Body};
ghost use Rattle.wy_image.specs.declared.file.Entry.{Entry};
ghost use Rattle.wy_image.specs.declared.file.Literal.{Literal};
ghost use Rattle.wy_image.specs.declared.file.Scope.{Scope};
ghost use Rattle.wy_verified.specs.Ranges.{BodiesStandOnce, EntriesInRange, Role as ScopeRole, ScopeInRange, roles_of, scopes_bodies};
ghost use Rattle.wy_verify.specs.RangeParts.{AreAllBelow, RoleInRange, needs_of, role_of};

use crate::ranges::distinct::are_apart;
use crate::ranges::needs::{Need, needs_of};
use crate::ranges::roles::{Role, roles_of};
use crate::ranges::rows::{Standing, are_rows};
use std::alloc::Global;
use wy_image::{Entry, ImageFile, Literal, Scope};
use wy_text::text::Memory;

/// Returns the numbers of the methods' names.
fn names_of(alloc: Global, entries: &[Entry]) -> Result<Vec<u32>, Memory>
    ensures { IfOk result (λ v. v.items ≡ map (λ (m : Entry). m.method) entries.now) }
{
    let mut names = Vec::new(alloc);
    for entry in entries {
        names.push(entry.method)?;
    }
    Ok(names)
}

/// Whether all numbers are less than a number.
fn are_below(numbers: &[u32], bound: usize) -> bool
    ensures { IsTrue result ↔ ((n : ℕ) → In n numbers.now → n < bound) }
{
    for number in numbers {
        if *number as usize >= bound {
            return false;
        }
    }
    true
}

/// Whether there are so many numbers, all less than that.
fn are_all_below(numbers: &[u32], count: usize) -> bool
    ensures { IsTrue result ↔ AreAllBelow numbers.now count }
{
    if numbers.len() != count {
        return false;
    }
    are_below(numbers, count)
}

/// Whether the methods of an object have different names, which are listed.
fn are_entries(alloc: Global, file: &ImageFile, entries: &[Entry]) -> Result<bool, Memory>
    ensures { IfOk result (λ b. IsTrue b ↔ EntriesInRange file.now entries.now) }
{
    let names = names_of(alloc, entries)?;
    let apart = are_apart(alloc, names.as_slice())?;
    if !apart {
        return Ok(false);
    }
    Ok(are_below(names.as_slice(), file.methods.len()))
}

/// Whether the methods of all literals do.
fn are_literals(alloc: Global, file: &ImageFile, literals: &[Literal]) -> Result<bool, Memory>
    ensures { IfOk result (λ b. IsTrue b ↔ ((l : Literal) → In l literals.now → EntriesInRange file.now l.entries)) }
{
    for literal in literals {
        let fits = are_entries(alloc, file, literal.entries.as_slice())?;
        if !fits {
            return Ok(false);
        }
    }
    Ok(true)
}

/// Whether the rows of a body of a scope name what is there.
fn is_role(file: &ImageFile, scope: &Scope, needs: &[Need], role: Role) -> bool
    requires { needs.now ≡ needs_of scope.now.literals }
    ensures { IsTrue result ↔ RoleInRange file.now scope.now (role_of role) }
{
    match file.bodies.get(role.body as usize) {
        Some(body) => {
            let owner = role.owner;
            let standing = Standing {
                file,
                scope,
                needs,
                owner,
                body,
            };
            are_rows(&standing, body.rows.as_slice())
        }
        None => true,
    }
}

/// Whether the rows of all bodies of a scope do.
fn are_roles(file: &ImageFile, scope: &Scope, needs: &[Need], roles: &[Role]) -> bool
    requires { needs.now ≡ needs_of scope.now.literals }
    ensures { IsTrue result ↔ ((r : ScopeRole) → In {X = ScopeRole} r (map role_of roles.now) → RoleInRange file.now scope.now r) }
{
    for role in roles {
        if !is_role(file, scope, needs, *role) {
            return false;
        }
    }
    true
}

/// Whether the first body of a scope has no parameters.
fn has_no_parameters(file: &ImageFile, scope: &Scope) -> bool
    ensures { IsTrue result ↔ ((b : Body) → slice_get file.now.bodies scope.now.first ≡ Some b → b.parameters ≡ 0) }
{
    match file.bodies.get(scope.first as usize) {
        Some(body) => body.parameters == 0,
        None => true,
    }
}

/// Whether the rows of all bodies of a scope name what is there.
fn has_rows(alloc: Global, file: &ImageFile, scope: &Scope) -> Result<bool, Memory>
    ensures { IfOk result (λ b. IsTrue b ↔ ((r : ScopeRole) → In {X = ScopeRole} r (roles_of scope.now) → RoleInRange file.now scope.now r)) }
{
    let roles = roles_of(alloc, scope)?;
    let needs = needs_of(alloc, scope.literals.as_slice())?;
    Ok(are_roles(file, scope, needs.as_slice(), roles.as_slice()))
}

/// Whether all in a scope names what is there.
fn is_scope(alloc: Global, file: &ImageFile, scope: &Scope) -> Result<bool, Memory>
    ensures { IfOk result (λ b. IsTrue b ↔ ScopeInRange file.now scope.now) }
{
    if !has_no_parameters(file, scope) {
        return Ok(false);
    }
    let entries = scope.entries.as_slice();
    let own = are_entries(alloc, file, entries)?;
    if !own {
        return Ok(false);
    }
    let literals = scope.literals.as_slice();
    let all = are_literals(alloc, file, literals)?;
    if !all {
        return Ok(false);
    }
    has_rows(alloc, file, scope)
}

/// Whether all in scopes does.
pub(super) fn are_scopes(alloc: Global, file: &ImageFile, scopes: &[Scope]) -> Result<bool, Memory>
    ensures { IfOk result (λ b. IsTrue b ↔ ((s : Scope) → In s scopes.now → ScopeInRange file.now s)) }
{
    for scope in scopes {
        let fits = is_scope(alloc, file, scope)?;
        if !fits {
            return Ok(false);
        }
    }
    Ok(true)
}

/// Adds the numbers of bodies.
fn add_bodies(bodies: &mut Vec<u32>, roles: &[Role]) -> Result<(), Memory>
    ensures { OnOk result (bodies.new.items ≡ bodies.old.items ++ map (λ (r : ScopeRole). r.1) (map role_of roles.now)) }
{
    for role in roles {
        bodies.push(role.body)?;
    }
    Ok(())
}

/// Returns the numbers of the bodies of scopes.
fn bodies_of(alloc: Global, scopes: &[Scope]) -> Result<Vec<u32>, Memory>
    ensures { IfOk result (λ v. v.items ≡ scopes_bodies scopes.now) }
{
    let mut bodies = Vec::new(alloc);
    for scope in scopes {
        let roles = roles_of(alloc, scope)?;
        add_bodies(&mut bodies, roles.as_slice())?;
    }
    Ok(bodies)
}

/// Whether each body stands once among the scopes.
pub(super) fn bodies_stand_once(alloc: Global, file: &ImageFile) -> Result<bool, Memory>
    ensures { IfOk result (λ b. IsTrue b ↔ BodiesStandOnce file.now) }
{
    let bodies = bodies_of(alloc, file.scopes.as_slice())?;
    let apart = are_apart(alloc, bodies.as_slice())?;
    if !apart {
        return Ok(false);
    }
    Ok(are_all_below(bodies.as_slice(), file.bodies.len()))
}
