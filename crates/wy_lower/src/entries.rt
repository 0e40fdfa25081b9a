//! The names of the methods of the kinds of objects of a program.

ghost use Rattle.std.specs.Prelude.{◌≡◌, ◌<◌, ◌++◌, ◌∷◌, [], ℕ, length, get_or, map, nat_eq, if◌then◌else◌, IfOk, OnOk};
ghost use Rattle.wy_types.specs.Program.{scope_of};
ghost use Rattle.wy_lower.specs.Parts.{each_once_after};
ghost use Rattle.wy_lower.specs.Lowering.{owned_names, kinds_names, entry_names};

use crate::indexes::put_text;
use indexmap::IndexSet;
use std::alloc::Global;
use wy_text::list::Items;
use wy_text::text::{Memory, Text};
use wy_types::resolved::Scope;

/// No names for each of so many kinds.
fn no_names(alloc: Global, kinds: usize) -> Result<Vec<Items<Text>>, Memory>
    ensures long { IfOk result (λ m. length m.items ≡ kinds) }
    ensures none { IfOk result (λ m. (l : ℕ) → get_or m.items l [] ≡ []) }
{
    let mut names = Vec::new(alloc);
    for kind in 0..kinds {
        names.push(Items::new(alloc))?;
    }
    Ok(names)
}

/// Adds a name to those of its owner.
fn add_name(names: &mut Vec<Items<Text>>, owner: usize, name: &Text) -> Result<(), Memory>
    ensures long { OnOk result (length names.new.items ≡ length names.old.items) }
    ensures added { OnOk result ((l : ℕ) → l < length names.old.items → get_or names.new.items l [] ≡ get_or names.old.items l [] ++ (if nat_eq owner l then name.now ∷ [] else [])) }
{
    if owner < names.len() {
        names[owner].push(name.copy()?)?;
    }
    Ok(())
}

/// The names of the methods of each kind of objects of a scope.
fn owned_names(alloc: Global, scope: &Scope) -> Result<Vec<Items<Text>>, Memory>
    ensures long { IfOk result (λ m. length m.items ≡ length scope.now.literals) }
    ensures each { IfOk result (λ m. (l : ℕ) → l < length scope.now.literals → get_or m.items l [] ≡ owned_names l (scope_of scope.now).bodies) }
{
    let mut names = no_names(alloc, scope.literals.len())?;
    let bodies = scope.bodies.as_slice();
    for k in 0..bodies.len() {
        let body = &bodies[k];
        add_name(&mut names, body.owner as usize, &body.signature.name)?;
    }
    Ok(names)
}

/// Puts names into a table.
fn put_names(table: &mut IndexSet<Text>, names: &[Text]) -> Result<(), Memory>
    ensures { OnOk result (table.new.keys ≡ each_once_after table.old.keys names.now) }
{
    for name in names {
        put_text(table, name)?;
    }
    Ok(())
}

/// Puts the names of the methods of each kind of objects of a scope into a table.
fn put_kinds(alloc: Global, table: &mut IndexSet<Text>, scope: &Scope) -> Result<(), Memory>
    ensures { OnOk result (table.new.keys ≡ each_once_after table.old.keys (kinds_names 0 (scope_of scope.now).literals (scope_of scope.now).bodies)) }
{
    let names = owned_names(alloc, scope)?;
    for k in 0..names.len() {
        put_names(table, names[k].as_slice())?;
    }
    Ok(())
}

/// Puts the names of the methods of the kinds of objects of scopes into a table.
pub(crate) fn put_entries(
    alloc: Global,
    table: &mut IndexSet<Text>,
    scopes: &[Scope],
) -> Result<(), Memory>
    ensures { OnOk result (table.new.keys ≡ each_once_after table.old.keys (entry_names (map scope_of scopes.now))) }
{
    for scope in scopes {
        put_kinds(alloc, table, scope)?;
    }
    Ok(())
}
