//! The bodies of a scope, each with whose it is.

ghost use Rattle.std.specs.Prelude.{◌≡◌, ◌++◌, IfOk, OnOk, map};
ghost use Rattle.wy_verified.specs.CodeOf.{literal_of, method_of};
ghost use Rattle.wy_verified.specs.Ranges.{entry_roles, literal_roles, roles_of};
ghost use Rattle.wy_verify.specs.RangeParts.{role_of};

use std::alloc::Global;
use wy_image::{Entry, Literal, Scope};
use wy_text::text::Memory;

/// The number of a body, and its owner: `None` for the first body of a scope, 0 for a method of the module, and
/// otherwise a method of a literal, which count from 1.
#[derive(Clone, Copy)]
pub(crate) struct Role {
    pub owner: Option<usize>,
    pub body: u32,
}

/// Adds the methods of a literal.
fn add_entries(roles: &mut Vec<Role>, literal: usize, entries: &[Entry]) -> Result<(), Memory>
    ensures { OnOk result (map role_of roles.new.items ≡ map role_of roles.old.items ++ entry_roles literal (map method_of entries.now)) }
{
    for entry in entries {
        roles.push(Role {
            owner: Some(literal),
            body: entry.body,
        })?;
    }
    Ok(())
}

/// Adds the methods of literals.
fn add_literals(roles: &mut Vec<Role>, literals: &[Literal]) -> Result<(), Memory>
    ensures { OnOk result (map role_of roles.new.items ≡ map role_of roles.old.items ++ literal_roles 1 (map literal_of literals.now)) }
{
    for l in 0..literals.len() {
        add_entries(roles, l + 1, literals[l].entries.as_slice())?;
    }
    Ok(())
}

/// Returns the bodies of a scope: the first one, then the methods of the module and of its literals.
pub(crate) fn roles_of(alloc: Global, scope: &Scope) -> Result<Vec<Role>, Memory>
    ensures { IfOk result (λ v. map role_of v.items ≡ roles_of scope.now) }
{
    let mut roles = Vec::new(alloc);
    roles.push(Role {
        owner: None,
        body: scope.first,
    })?;
    add_entries(&mut roles, 0, scope.entries.as_slice())?;
    add_literals(&mut roles, scope.literals.as_slice())?;
    Ok(roles)
}
