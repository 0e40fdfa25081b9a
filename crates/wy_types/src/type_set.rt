//! Object types that were found, each once.

ghost use Rattle.std.specs.Prelude.{◌≡◌, ◌≤◌, ◌∷◌, [], IfOk, length};
ghost use Rattle.wy_text.specs.Members.{Apart};
ghost use Rattle.wy_types.specs.Gathering.{Gathers};

use crate::key::{Key, key_of_type};
use crate::reach::ReachRefusal;
use crate::types::{TypeList, TypeRef};
use indexmap::IndexSet;
use std::alloc::Global;
use std::marker::Model;
use wy_text::limit::{LimitName, MOST_REACHED_TYPES};
use wy_text::list::Items;
use wy_text::text::Memory;

/// Object types, each once, with their keys, by which one is found again. Contracts see the list of them.
#[derive(Drop)]
pub struct TypeSet {
    types: Vec<TypeRef>,
    keys: IndexSet<Key>,
}

impl Model for TypeSet {
    ghost use Rattle.std.specs.Prelude.{◌≡◌, List, map};
    ghost use Rattle.wy_types.specs.declared.types.TypeRef.{TypeRef};
    ghost use Rattle.wy_types.specs.Keys.{type_key};

    ghost Value = { List TypeRef };

    ghost view = { λ s. s.types.items };

    ghost invariant = { λ s. s.keys.keys ≡ map type_key s.types.items };
}

impl TypeSet {
    /// The empty set.
    pub fn new(alloc: Global) -> TypeSet
        ensures { result ≡ [] }
    {
        TypeSet {
            types: Vec::new(alloc),
            keys: IndexSet::new(alloc),
        }
    }

    /// How many types there are.
    pub fn len(&self) -> usize
        ensures { result ≡ length self.now }
    {
        self.types.len()
    }

    /// The types, in the order in which they were added.
    pub fn as_slice(&self) -> &[TypeRef]
        ensures { result.now ≡ self.now }
    {
        self.types.as_slice()
    }

    /// Adds an object type that isn't there.
    pub fn add(&mut self, t: &TypeRef) -> Result<(), ReachRefusal>
        requires apart { Apart self.old }
        requires small { length self.old ≤ 1024 }
        ensures { Gathers self.old (t.now ∷ []) self.new result }
    {
        if !t.is_object() {
            return Ok(());
        }
        let alloc = *self.types.allocator();
        let key = key_of_type(alloc, t)?;
        if self.keys.contains(&key) {
            return Ok(());
        }
        if self.types.len() >= MOST_REACHED_TYPES {
            return Err(ReachRefusal::Limit(LimitName::ReachedTypes));
        }
        if self.types.reserve(1).is_err() {
            return Err(ReachRefusal::Memory);
        }
        let copy = t.copy(alloc)?;
        if self.keys.insert(key).is_err() {
            return Err(ReachRefusal::Memory);
        }
        self.types.push_reserved(copy);
        Ok(())
    }

    /// The list of the types.
    pub fn into_list(self) -> Result<TypeList, Memory>
        ensures { IfOk result (λ l. l ≡ self) }
    {
        list_of(self.types)
    }
}

fn list_of(types: Vec<TypeRef>) -> Result<TypeList, Memory>
    ensures { IfOk result (λ l. l ≡ types.items) }
{
    let mut list = Items::new(*types.allocator());
    for t in types {
        list.push(t)?;
    }
    Ok(list)
}
