//! Types by their numbers: each once, in the order in which they are met.

ghost use Rattle.std.specs.Prelude.{◌≡◌, ◌++◌, [], IfOk, OnOk, length, map};
ghost use Rattle.wy_spelling.specs.Spelling.{IsNumber};
ghost use Rattle.wy_proving.specs.Written.{number, type_number, type_of, pair_types, step_types};
ghost use Rattle.wy_certify.specs.PartTable.{type_added, each_once_after};
ghost use Rattle.wy_certify.specs.Pair.{pair_of};
ghost use Rattle.wy_certify.specs.Step.{steps_of};

use crate::pair::TypePair;
use crate::step::Step;
use indexmap::IndexSet;
use std::alloc::Global;
use std::marker::Model;
use wy_text::text::Memory;
use wy_types::key::{Key, key_of_type};
use wy_types::types::TypeRef;

/// Types, each once, with their keys, by which the number of one is found. Contracts see the list of them.
#[derive(Drop)]
pub struct TypeNumbers {
    types: Vec<TypeRef>,
    keys: IndexSet<Key>,
}

impl Model for TypeNumbers {
    ghost use Rattle.std.specs.Prelude.{◌≡◌, List, map};
    ghost use Rattle.wy_types.specs.declared.types.TypeRef.{TypeRef};
    ghost use Rattle.wy_types.specs.Keys.{type_key};

    ghost Value = { List TypeRef };

    ghost view = { λ s. s.types.items };

    ghost invariant = { λ s. s.keys.keys ≡ map type_key s.types.items };
}

impl TypeNumbers {
    /// No types. It takes no memory.
    pub fn new(alloc: Global) -> TypeNumbers
        ensures { result ≡ [] }
    {
        TypeNumbers {
            types: Vec::new(alloc),
            keys: IndexSet::new(alloc),
        }
    }

    /// How many types there are. It takes no memory.
    pub fn len(&self) -> usize
        ensures { result ≡ length self.now }
    {
        self.types.len()
    }

    /// The types, in the order in which they were added. It takes no memory.
    pub fn as_slice(&self) -> &[TypeRef]
        ensures { result.now ≡ self.now }
    {
        self.types.as_slice()
    }

    /// Adds a type at the end, unless it is there.
    pub fn add(&mut self, typ: &TypeRef) -> Result<(), Memory>
        ensures { OnOk result (self.new ≡ type_added self.old typ.now) }
    {
        let alloc = *self.types.allocator();
        let key = key_of_type(alloc, typ)?;
        if self.keys.contains(&key) {
            return Ok(());
        }
        let copy = typ.copy(alloc)?;
        self.types.reserve(1)?;
        self.keys.insert(key)?;
        self.types.push_reserved(copy);
        Ok(())
    }

    /// Adds types, one after the other.
    pub fn add_all(&mut self, types: &[TypeRef]) -> Result<(), Memory>
        ensures { OnOk result (self.new ≡ each_once_after self.old types.now) }
    {
        for typ in types {
            self.add(typ)?;
        }
        Ok(())
    }

    /// Adds the types of pairs.
    pub fn add_pairs(&mut self, pairs: &[TypePair]) -> Result<(), Memory>
        ensures { OnOk result (self.new ≡ each_once_after self.old (pair_types (map pair_of pairs.now))) }
    {
        for pair in pairs {
            self.add(&pair.left)?;
            self.add(&pair.right)?;
        }
        Ok(())
    }

    /// Adds the type that a step gives, where it gives one.
    fn add_given(&mut self, typ: &Option<TypeRef>) -> Result<(), Memory>
        ensures { OnOk result (self.new ≡ each_once_after self.old (type_of typ.now)) }
    {
        match typ {
            Some(typ) => self.add(typ),
            None => Ok(()),
        }
    }

    /// Adds the types that steps give.
    pub fn add_steps(&mut self, steps: &[Step]) -> Result<(), Memory>
        ensures { OnOk result (self.new ≡ each_once_after self.old (step_types (steps_of steps.now))) }
    {
        for step in steps {
            self.add_given(&step.typ)?;
        }
        Ok(())
    }

    /// The number of a type, or how many types there are where it is not among them.
    pub fn number_of(&self, typ: &TypeRef) -> Result<u32, Memory>
        requires { IsNumber (length self.now) }
        ensures { IfOk result (λ n. n ≡ number self.now typ.now) }
    {
        let key = key_of_type(*self.types.allocator(), typ)?;
        match self.keys.get_index_of(&key) {
            Some(place) => Ok(place as u32),
            None => Ok(self.types.len() as u32),
        }
    }

    /// The number of a step's type; 0 where it gives none.
    pub fn number_given(&self, typ: &Option<TypeRef>) -> Result<u32, Memory>
        requires { IsNumber (length self.now) }
        ensures { IfOk result (λ n. n ≡ type_number self.now typ.now) }
    {
        match typ {
            Some(typ) => self.number_of(typ),
            None => Ok(0),
        }
    }
}
