//! Names and owners that a walk collects without a result at each step.

ghost use Rattle.std.specs.Prelude.{◌≡◌, ◌∷◌, [], false, map, IfOk};
ghost use Rattle.wy_syntax.specs.Collected.{Adds};
ghost use Rattle.wy_symbols.specs.declared.scoping.Owner.{Owner};
ghost use Rattle.wy_symbols.specs.Lent.{lent_name, lent_text};

use crate::scoping::{Opening, Owner};
use std::alloc::Global;
use std::marker::Model;
use wy_syntax::types::Name;
use wy_text::list::Items;
use wy_text::text::{Memory, Text};

/// The texts of names that a walk has met. The walk goes on where memory was wanting, and it is told at the end.
#[derive(Drop)]
pub struct Names<'a> {
    list: Vec<&'a Text>,
    wanting: bool,
}

impl<'a> Model for Names<'a> {
    ghost use Rattle.std.specs.Prelude.{ℕ, List, map};
    ghost use Rattle.wy_syntax.specs.Collected.{Collected};
    ghost use Rattle.wy_symbols.specs.Lent.{lent_text};

    ghost Value = { Collected (List ℕ) };

    ghost view = { λ n. record { list = map lent_text n.list.items; wanting = n.wanting } };

    ghost invariant = { λ n. Unit {0} };
}

impl<'a> Names<'a> {
    /// None. It takes no memory.
    pub fn new(alloc: Global) -> Names<'a>
        ensures { result ≡ record { list = []; wanting = false } }
    {
        Names {
            list: Vec::new(alloc),
            wanting: false,
        }
    }

    /// Adds a name.
    pub fn add(&mut self, name: &'a Text)
        ensures { Adds (name.now ∷ []) self.old self.new }
    {
        if self.list.push(name).is_err() {
            self.wanting = true;
        }
    }

    /// All of them, where memory was never wanting.
    pub fn all(self) -> Result<Vec<&'a Text>, Memory>
        ensures { IfOk result (λ ns. (self.entry.wanting ≡ false) × (map lent_text ns.items ≡ self.entry.list)) }
    {
        if self.wanting {
            return Err(Memory);
        }
        Ok(self.list)
    }
}

/// The names that a walk has met, with their places.
#[derive(Drop)]
pub struct WrittenNames<'a> {
    list: Vec<&'a Name>,
    wanting: bool,
}

impl<'a> Model for WrittenNames<'a> {
    ghost use Rattle.std.specs.Prelude.{map};
    ghost use Rattle.wy_syntax.specs.declared.types.Name.{Name};
    ghost use Rattle.wy_syntax.specs.Collected.{Collected};
    ghost use Rattle.wy_symbols.specs.Lent.{lent_name};

    ghost Value = { Collected Name };

    ghost view = { λ n. record { list = map lent_name n.list.items; wanting = n.wanting } };

    ghost invariant = { λ n. Unit {0} };
}

impl<'a> WrittenNames<'a> {
    /// None. It takes no memory.
    pub fn new(alloc: Global) -> WrittenNames<'a>
        ensures { result ≡ record { list = []; wanting = false } }
    {
        WrittenNames {
            list: Vec::new(alloc),
            wanting: false,
        }
    }

    /// Adds a name.
    pub fn add(&mut self, name: &'a Name)
        ensures { Adds (name.now ∷ []) self.old self.new }
    {
        if self.list.push(name).is_err() {
            self.wanting = true;
        }
    }

    /// All of them, where memory was never wanting.
    pub fn all(self) -> Result<Vec<&'a Name>, Memory>
        ensures { IfOk result (λ ns. (self.entry.wanting ≡ false) × (map lent_name ns.items ≡ self.entry.list)) }
    {
        if self.wanting {
            return Err(Memory);
        }
        Ok(self.list)
    }
}

/// The owners that a walk has met.
#[derive(Drop)]
pub struct OwnerList {
    list: Items<Owner>,
    wanting: bool,
}

impl Model for OwnerList {
    ghost use Rattle.wy_symbols.specs.declared.scoping.Owner.{Owner};
    ghost use Rattle.wy_syntax.specs.Collected.{Collected};

    ghost Value = { Collected Owner };

    ghost view = { λ o. record { list = o.list; wanting = o.wanting } };

    ghost invariant = { λ o. Unit {0} };
}

impl OwnerList {
    /// None. It takes no memory.
    pub fn new(alloc: Global) -> OwnerList
        ensures { result ≡ record { list = []; wanting = false } }
    {
        OwnerList {
            list: Items::new(alloc),
            wanting: false,
        }
    }

    /// Adds an owner of this name.
    pub fn add(&mut self, name: &Text, opening: Opening)
        ensures { Adds {X = Owner} (record { name = name.now; opening = opening } ∷ []) self.old self.new }
    {
        match name.copy() {
            Err(_) => self.wanting = true,
            Ok(name) => {
                if self.list.push(Owner { name, opening }).is_err() {
                    self.wanting = true;
                }
            }
        }
    }

    /// All of them, where memory was never wanting.
    pub fn all(self) -> Result<Items<Owner>, Memory>
        ensures { IfOk result (λ os. (self.wanting ≡ false) × (os ≡ self.list)) }
    {
        if self.wanting {
            return Err(Memory);
        }
        Ok(self.list)
    }
}
