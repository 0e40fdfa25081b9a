//! Steps that are gathered one behind the other.

ghost use Rattle.std.specs.Prelude.{◌≡◌, ◌++◌, ◌∷◌, [], List, IfOk, false, true, Some, None};
ghost use Rattle.wy_types.specs.declared.types.TypeRef.{TypeRef as OwnType};
ghost use Rattle.wy_proving.specs.Steps.{step};
ghost use Rattle.wy_certify.specs.Gathered.{Adds, Writes};
ghost use Rattle.wy_certify.specs.Step.{step_of, steps_of, sub_steps};

use crate::sets::copied;
use crate::step::Step;
use std::alloc::Global;
use std::marker::Model;
use wy_cert::Rule;
use wy_effects::set::{EffSet, SetList};
use wy_text::fault::Place;
use wy_text::list::Items;
use wy_text::text::Memory;
use wy_types::types::{TypeList, TypeRef};

/// Steps that are gathered one behind the other. It remembers that memory was wanting, and its steps are of no use then.
#[derive(Drop)]
pub struct Output {
    alloc: Global,
    list: Items<Step>,
    wanting: bool,
}

impl Model for Output {
    ghost use Rattle.wy_certify.specs.Gathered.{Gathered};
    ghost use Rattle.wy_certify.specs.Step.{steps_of};

    ghost Value = { Gathered };

    ghost view = { λ o. record { list = steps_of o.list; wanting = o.wanting } };

    ghost invariant = { λ o. Unit {0} };
}

impl Output {
    /// No steps. It takes no memory.
    #[tactic(auto, unfolding(crate::specs::Step::steps_of))]
    pub fn new(alloc: Global) -> Output
        ensures { result ≡ record { list = []; wanting = false } }
    {
        Output {
            alloc,
            list: Items::new(alloc),
            wanting: false,
        }
    }

    /// Where its memory is from.
    pub fn alloc(&self) -> Global {
        self.alloc
    }

    /// Adds a step.
    fn push(&mut self, step: Step)
        ensures { Adds (step_of step ∷ []) self.old self.new }
    {
        if self.list.push(step).is_err() {
            self.wanting = true;
        }
    }

    /// Remembers that memory was wanting.
    pub fn lose(&mut self)
        ensures { self.new.wanting ≡ true }
    {
        self.wanting = true;
    }

    /// Adds a step of a rule other than T-Sub that gives this type.
    pub fn add_typed(
        &mut self,
        rule: Rule,
        place: Place,
        parts: usize,
        typ: &TypeRef,
        effect: &EffSet,
    )
        ensures { Adds (step rule place parts (Some typ.now) effect.now ∷ []) self.old self.new }
    {
        match typ.copy(self.alloc) {
            Ok(typ) => self.push(Step {
                rule,
                place,
                parts,
                below: None,
                typ: Some(typ),
                effect: copied(effect),
            }),
            Err(Memory) => self.lose(),
        }
    }

    /// .. of a rule that gives no type.
    pub fn add_untyped(&mut self, rule: Rule, place: Place, parts: usize, effect: EffSet)
        ensures { Adds (step rule place parts None effect ∷ []) self.old self.new }
    {
        self.push(Step {
            rule,
            place,
            parts,
            below: None,
            typ: None,
            effect,
        })
    }

    /// Adds a step of T-Sub from a type to the one that is asked for, where that is another.
    pub fn add_sub(&mut self, place: Place, typ: TypeRef, expected: &TypeRef, effect: &EffSet)
        ensures { Adds (sub_steps place typ expected.now effect.now) self.old self.new }
    {
        if typ.same(expected) {
            return;
        }
        match expected.copy(self.alloc) {
            Ok(asked) => self.push(Step {
                rule: Rule::Sub,
                place,
                parts: 1,
                below: Some(typ),
                typ: Some(asked),
                effect: copied(effect),
            }),
            Err(Memory) => self.lose(),
        }
    }

    /// A type that was made, or else `()`'s.
    pub fn take(&mut self, typ: Result<TypeRef, Memory>) -> TypeRef
        ensures { (t : OwnType) → IfOk typ (λ u. u ≡ t) → Writes [] (result ≡ t) self.old self.new }
    {
        match typ {
            Ok(typ) => typ,
            Err(Memory) => {
                self.lose();
                TypeRef::Unit
            }
        }
    }

    /// Types that were made, or else none.
    pub fn take_types(&mut self, types: Result<TypeList, Memory>) -> TypeList
        ensures { (ts : List OwnType) → IfOk types (λ us. us ≡ ts) → Writes [] (result ≡ ts) self.old self.new }
    {
        match types {
            Ok(types) => types,
            Err(Memory) => {
                self.lose();
                Items::new(self.alloc)
            }
        }
    }

    /// Adds an effect to a list.
    pub fn keep(&mut self, effects: &mut SetList, effect: EffSet)
        ensures { Writes [] (effects.new ≡ effects.old ++ effect ∷ []) self.old self.new }
    {
        if effects.push(effect).is_err() {
            self.wanting = true;
        }
    }

    /// The steps, if memory sufficed for all of them.
    pub fn into_steps(self) -> Result<Items<Step>, Memory>
        ensures { IfOk result (λ steps. (self.wanting ≡ false) × (steps_of steps ≡ self.list)) }
    {
        if self.wanting {
            return Err(Memory);
        }
        Ok(self.list)
    }
}
