//! The instances of a program that have started so far, found by their names.

ghost use Rattle.std.specs.Prelude.{◌≡◌, ◌<◌, ◌++◌, ◌∷◌, [], length, OnOk, IfOk};
ghost use Rattle.wy_types.specs.Ground.{number_from};

use crate::lists::listed;
use indexmap::IndexMap;
use std::alloc::Global;
use std::marker::Model;
use wy_text::text::{Memory, Text};
use wy_types::linked::{Instance, Linked};

/// Instances in start order, with the number of the first one of each name. Contracts see the list of them.
#[derive(Drop)]
pub(crate) struct Started {
    instances: Vec<Instance>,
    numbers: IndexMap<Text, u16>,
}

impl Model for Started {
    ghost use Rattle.std.specs.Prelude.{◌≡◌, ℕ, List, bytes_eq};
    ghost use Rattle.indexmap.specs.IndexMap.{get};
    ghost use Rattle.wy_types.specs.Ground.{number_from};
    ghost use Rattle.wy_types.specs.declared.linked.Instance.{Instance};

    ghost Value = { List Instance };

    ghost view = { λ s. s.instances.items };

    ghost invariant = { λ s. (name : List ℕ) → get bytes_eq s.numbers name ≡ number_from 0 name s.instances.items };
}

impl Started {
    /// No instances. It takes no memory.
    pub(crate) fn new(alloc: Global) -> Started
        ensures { result ≡ [] }
    {
        Started {
            instances: Vec::new(alloc),
            numbers: IndexMap::new(alloc),
        }
    }

    /// How many there are.
    pub(crate) fn len(&self) -> usize
        ensures { result ≡ length self.now }
    {
        self.instances.len()
    }

    /// The instances in start order.
    pub(crate) fn as_slice(&self) -> &[Instance]
        ensures { result.now ≡ self.now }
    {
        self.instances.as_slice()
    }

    /// The number of the first instance of a name.
    pub(crate) fn number_of(&self, name: &Text) -> Option<u16>
        ensures { result ≡ number_from 0 name.now self.now }
    {
        self.numbers.get(name).copied()
    }

    /// Adds an instance at the end.
    pub(crate) fn push(&mut self, instance: Instance) -> Result<(), Memory>
        requires { length self.old < 65536 }
        ensures { OnOk result (self.new ≡ self.old ++ instance ∷ []) }
    {
        self.instances.reserve(1)?;
        if !self.numbers.contains_key(&instance.name) {
            let number = self.instances.len() as u16;
            self.numbers.insert(instance.name.copy()?, number)?;
        }
        self.instances.push(instance)?;
        Ok(())
    }

    /// The list of them.
    pub(crate) fn into_linked(self, alloc: Global) -> Result<Linked, Memory>
        ensures { IfOk result (λ l. l ≡ self) }
    {
        listed(alloc, self.instances)
    }
}
