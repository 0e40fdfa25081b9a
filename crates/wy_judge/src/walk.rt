//! What a walk over the bodies of a scope carries: what stays the same in a body, and what becomes known.

ghost use Rattle.std.specs.Prelude.{◌≡◌, ◌+◌, ◌<◌, OnOk, length, max};
ghost use Rattle.wy_judge.specs.Tables.{IsKept, IsPut};

use std::alloc::Global;
use wy_subtype::PairTable;
use wy_text::text::Memory;
use wy_types::resolved::{Core, Scope};
use wy_types::types::TypeRef;

/// The scope that is judged, and the current object.
#[derive(Drop)]
pub struct Walk<'a> {
    pub alloc: Global,
    pub core: &'a Core,
    /// The scope's number among the scopes of the core.
    pub number: u16,
    pub scope: &'a Scope,
    /// The literal of the current object; none in the start of a scope.
    pub owner: Option<u32>,
}

/// What is known so far.
#[derive(Drop)]
pub struct Known<'a> {
    /// The pairs of types that were asked about.
    pub pairs: PairTable<'a>,
    /// The types of the scope's `val`s, by their numbers.
    pub vals: Vec<Option<TypeRef>>,
}

/// Makes room for the type of the `val` of a number.
fn make_room(table: &mut Vec<Option<TypeRef>>, number: usize) -> Result<(), Memory>
    ensures room { OnOk result (number < length table.new.items) }
    ensures size { OnOk result (length table.new.items ≡ max (length table.old.items) (number + 1)) }
    ensures kept { OnOk result (IsKept table.old.items table.new.items) }
{
    while table.len() <= number {
        table.push(None)?;
    }
    Ok(())
}

/// Puts in the type of the `val` of a number.
pub fn put(table: &mut Vec<Option<TypeRef>>, number: u32, typ: TypeRef) -> Result<(), Memory>
    ensures { OnOk result (IsPut table.old.items table.new.items number typ) }
{
    make_room(table, number as usize)?;
    table[number as usize] = Some(typ);
    Ok(())
}
