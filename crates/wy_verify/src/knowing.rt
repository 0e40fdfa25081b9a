//! What is known at a place of a walk. It is changed in place.

ghost use Rattle.std.specs.Prelude.{◌≡◌, ◌↔◌, ◌+◌, ◌<◌, ◌≤◌, ◌∷◌, [], suc, Some, IsTrue, length, drop, take, slice_get, IfOk, OnOk};
ghost use Rattle.wy_text.specs.Members.{Within};
ghost use Rattle.wy_verified.specs.Kinds.{kinds_in};
ghost use Rattle.wy_verified.specs.Rules.{at_first, reversed};
ghost use Rattle.wy_verified.specs.Walking.{is_in, with_slot, top_kind, known_at};
ghost use Rattle.wy_verify.specs.Sites.{AreShort};
ghost use Rattle.wy_verify.specs.Turns.{with_pushed};

use crate::kinds::kind_at;
use crate::stored::Stored;
use std::alloc::Global;
use std::marker::Model;
use wy_image::{Reference, Target};
use wy_text::list::Items;
use wy_text::text::Memory;
use wy_verified::Kind;

/// What is known at a place: the types of the operands, the topmost last, the stored slots, and the number of set
/// fields. Contracts see the operands with the topmost first.
#[derive(Drop)]
pub struct Knowing {
    operands: Vec<Kind>,
    stored: Stored,
    set: u32,
}

impl Model for Knowing {
    ghost use Rattle.std.specs.Prelude.{[]};
    ghost use Rattle.wy_verified.specs.Rules.{reversed};
    ghost use Rattle.wy_verified.specs.declared.known.Known.{Known};

    ghost Value = { Known };

    ghost view = { λ k. record { operands = reversed k.operands.items []; stored = k.stored; set = k.set } };
}

impl Knowing {
    /// What is known at the start of a body.
    pub fn new(alloc: Global) -> Knowing
        ensures { result ≡ at_first }
    {
        Knowing {
            operands: Vec::new(alloc),
            stored: Stored::new(alloc),
            set: 0,
        }
    }

    /// The number of operands.
    pub fn depth(&self) -> usize
        ensures { result ≡ length self.now.operands }
    {
        self.operands.len()
    }

    /// The number of set fields.
    pub fn set_count(&self) -> u32
        ensures { result ≡ self.now.set }
    {
        self.set
    }

    /// Whether a slot is stored.
    pub fn is_stored(&self, slot: u32) -> bool
        ensures { result ≡ is_in slot self.now.stored }
    {
        self.stored.has(slot)
    }

    /// Whether each of these slots is stored.
    pub fn has_stored(&self, slots: &Items<u32>) -> bool
        ensures { IsTrue result ↔ Within slots.now self.now.stored }
    {
        self.stored.has_all(slots)
    }

    /// The type of the operand below `below` others.
    pub fn operand(&self, below: usize) -> Kind
        requires { below < length self.now.operands }
        ensures { result ≡ top_kind (drop below self.now.operands) }
    {
        self.operands[self.operands.len() - 1 - below]
    }

    /// The types of the topmost operands, in the order in which they were pushed.
    pub fn topmost(&self, count: usize) -> &[Kind]
        requires { count ≤ length self.now.operands }
        ensures { result.now ≡ reversed (take count self.now.operands) [] }
    {
        &self.operands.as_slice()[self.operands.len() - count..]
    }

    /// The types of the operands below the topmost ones, in the order in which they were pushed.
    pub fn lower(&self, count: usize) -> &[Kind]
        requires { count ≤ length self.now.operands }
        ensures { reversed result.now [] ≡ drop count self.now.operands }
    {
        &self.operands.as_slice()[..self.operands.len() - count]
    }

    /// Pushes an operand.
    pub fn push(&mut self, kind: Kind) -> Result<(), Memory>
        ensures { OnOk result (self.new ≡ record self.old { operands = kind ∷ self.old.operands }) }
    {
        self.operands.push(kind)?;
        Ok(())
    }

    /// Pops operands.
    pub fn pop(&mut self, count: usize)
        requires { count ≤ length self.old.operands }
        ensures { self.new ≡ record self.old { operands = drop count self.old.operands } }
    {
        let kept = self.operands.len() - count;
        self.operands.truncate(kept);
    }

    /// Pops operands, and pushes one or none.
    pub fn replace(&mut self, count: usize, kind: Option<Kind>) -> Result<(), Memory>
        requires { count ≤ length self.old.operands }
        ensures { OnOk result (self.new ≡ record self.old { operands = with_pushed kind (drop count self.old.operands) }) }
    {
        self.pop(count);
        match kind {
            Some(kind) => self.push(kind),
            None => Ok(()),
        }
    }

    /// Stores into a slot.
    pub fn store(&mut self, slot: u32) -> Result<(), Memory>
        ensures { OnOk result (self.new ≡ record self.old { stored = with_slot slot self.old.stored }) }
    {
        self.stored.add(slot)
    }

    /// Sets one more field.
    pub fn set_next(&mut self) -> Result<(), Memory>
        ensures { OnOk result (self.new ≡ record self.old { set = suc self.old.set }) }
    {
        if self.set == u32::MAX {
            return Err(Memory);
        }
        self.set += 1;
        Ok(())
    }

    /// Has the operands that instance `x` writes.
    fn write(&mut self, x: u32, references: &Items<Reference>) -> Result<(), Memory>
        requires { AreShort references.now }
        ensures { OnOk result (self.new ≡ record self.old { operands = reversed (kinds_in x references.now) [] }) }
    {
        self.operands.clear();
        for index in 0..references.len() {
            let Some(kind) = kind_at(x, references, index) else {
                unreachable!()
            };
            self.operands.push(kind)?;
        }
        Ok(())
    }

    /// Comes to a target of a body of instance `x`.
    pub fn enter(&mut self, x: u32, target: &Target, set: u32) -> Result<(), Memory>
        requires { AreShort target.now.operands }
        ensures { OnOk result (self.new ≡ known_at x target.now set) }
    {
        self.write(x, &target.operands)?;
        self.stored.assign(&target.stored)?;
        self.set = set;
        Ok(())
    }
}
