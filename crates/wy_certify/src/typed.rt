//! What a part gives.

ghost use Rattle.std.specs.Prelude.{◌≡◌, ◌∷◌, [], Some};
ghost use Rattle.wy_effects.specs.EffSet.{union};
ghost use Rattle.wy_cert.specs.declared.certificate.Rule.TheVariants.{Op};
ghost use Rattle.wy_proving.specs.Steps.{step};
ghost use Rattle.wy_certify.specs.Gathered.{Adds, Gives, Writes};
ghost use Rattle.wy_certify.specs.Step.{sub_steps};

use crate::output::Output;
use crate::sets::united;
use wy_cert::Rule;
use wy_effects::set::EffSet;
use wy_text::fault::Place;
use wy_types::types::TypeRef;

/// The type and the effect that a part gives.
#[derive(Drop)]
pub struct Typed {
    pub typ: TypeRef,
    pub effect: EffSet,
}

impl Output {
    /// A step of a rule that gives a type, which is the last of its part.
    pub fn given(
        &mut self,
        rule: Rule,
        place: Place,
        parts: usize,
        typ: TypeRef,
        effect: EffSet,
    ) -> Typed
        ensures { Writes (step rule place parts (Some typ) effect ∷ []) (Gives typ effect result) self.old self.new }
    {
        self.add_typed(rule, place, parts, &typ, &effect);
        Typed { typ, effect }
    }

    /// .. of a rule without parts, which has no effect.
    pub fn leaf(&mut self, rule: Rule, place: Place, typ: TypeRef) -> Typed
        ensures { Writes (step rule place 0 (Some typ) [] ∷ []) (Gives typ [] result) self.old self.new }
    {
        let none = EffSet::empty(self.alloc());
        self.given(rule, place, 0, typ, none)
    }

    /// .. of an operation, whose operands have these effects.
    pub fn operation(
        &mut self,
        place: Place,
        parts: usize,
        typ: TypeRef,
        first: EffSet,
        others: EffSet,
    ) -> Typed
        ensures { Writes (step Op place parts (Some typ) (union first others) ∷ []) (Gives typ (union first others) result) self.old self.new }
    {
        self.given(Rule::Op, place, parts, typ, united(first, others))
    }

    /// .. of an operation on two operands, with these effects.
    pub fn two_operands(
        &mut self,
        place: Place,
        typ: TypeRef,
        first: EffSet,
        second: EffSet,
    ) -> Typed
        ensures { Writes (step Op place 2 (Some typ) (union first (union second [])) ∷ []) (Gives typ (union first (union second [])) result) self.old self.new }
    {
        let others = united(second, EffSet::empty(self.alloc()));
        self.operation(place, 2, typ, first, others)
    }

    /// Adds T-Sub where another type is asked for, and gives the effect of the part.
    pub fn subsumed(&mut self, place: Place, part: Typed, expected: &TypeRef) -> EffSet
        ensures steps { Adds (sub_steps place part.typ expected.now part.effect) self.old self.new }
        ensures effect { result ≡ part.effect }
    {
        self.add_sub(place, part.typ, expected, &part.effect);
        part.effect
    }
}
