//! A body of an instance where it is judged, and what can be read there.

ghost use Rattle.std.specs.Prelude.{◌≡◌, ◌<◌, Some, length, slice_get, IfSome, IfOk};
ghost use Rattle.std.specs.Option.{option_copied};
ghost use Rattle.wy_code.specs.Machine.{literal_of};
ghost use Rattle.wy_text.specs.Members.{In};
ghost use Rattle.wy_verified.specs.CodeOf.{image_of};
ghost use Rattle.wy_verified.specs.Kinds.{kind_in, kinds_in, value_kinds};
ghost use Rattle.wy_verified.specs.Rules.{literal_number};
ghost use Rattle.wy_verified.specs.Walking.{target_in, slot_kind, value_kind, RangeOk};
ghost use Rattle.wy_verified.specs.Verifying.{owner_of};
ghost use Rattle.wy_verify.specs.Sites.{AreShort, IsAt};
ghost use Rattle.wy_verify.specs.Verdicts.{site_of};

use crate::effects::Effect;
use crate::judged::Judged;
use crate::kinds::{kind_among, kind_at, kind_of};
use crate::knowing::Knowing;
use crate::subject::Subject;
use crate::targets::Targets;
use std::alloc::Global;
use std::marker::Model;
use wy_code::code::{Body, Literal, Scope};
use wy_code::instruction::Instruction;
use wy_image::{Bounds, Reference, Target, Typing};
use wy_text::text::Memory;
use wy_verified::Kind;

/// A body of an instance, whose it is, what is stated of it, and how many values its object has before its fields.
/// `typing` is what the instance states, `scope` its scope in the code, `targets` has the stated targets by address, and
/// `effect` what the body may do.
#[derive(Drop)]
pub struct Site<'a> {
    judged: &'a Judged<'a>,
    x: u32,
    owner: Option<u32>,
    body: &'a Body,
    bounds: &'a Bounds,
    held: usize,
    typing: &'a Typing,
    scope: &'a Scope,
    targets: Targets,
    effect: Effect<'a>,
}

impl<'a> Model for Site<'a> {
    ghost use Rattle.wy_verify.specs.Sites.{Site as Value_site, IsSited};

    ghost Value = { Value_site };

    ghost view = { λ s. record { image = s.judged.now; x = s.x; owner = s.owner; body = s.body.now; bounds = s.bounds.now; held = s.held } };

    ghost invariant = { λ s. IsSited s.judged.now s.x s.owner s.body.now s.bounds.now s.held s.typing.now s.scope.now s.targets s.effect };
}

/// The literal of the current object; an `init` body's is the module's own.
fn literal_number(owner: Option<u32>) -> u32
    ensures { result ≡ literal_number owner }
{
    match owner {
        Some(literal) => literal,
        None => 0,
    }
}

impl<'a> Site<'a> {
    /// Makes the site of a body of which an instance states something. Fails only if memory runs out.
    pub(crate) fn new(
        alloc: Global,
        subject: &Subject<'a>,
        owner: Option<u32>,
        body: &'a Body,
        bounds: &'a Bounds,
    ) -> Result<Site<'a>, Memory>
        requires stated { In bounds.now subject.now.subject.typing.bodies }
        requires owner { owner_of subject.now.subject.scope bounds.now.body ≡ Some owner }
        requires body { slice_get (image_of subject.now.file).code.bodies bounds.now.body ≡ Some body.now }
        ensures { IfOk result (λ s. s ≡ site_of subject.now owner body.now bounds.now) }
    {
        let held = subject.held(owner);
        let targets = Targets::new(alloc, bounds, body.instructions.len())?;
        let effect = subject.judged.effect_of(bounds);
        Ok(Site {
            judged: subject.judged,
            x: subject.x,
            owner,
            body,
            bounds,
            held,
            typing: subject.typing,
            scope: subject.scope,
            targets,
            effect,
        })
    }

    /// What is judged.
    pub fn judged(&self) -> &Judged<'a>
        ensures { result.now ≡ self.now.image }
    {
        self.judged
    }

    /// The number of the instance; that of the program is the number of instances.
    pub fn x(&self) -> u32
        ensures { result ≡ self.now.x }
    {
        self.x
    }

    /// Whose the body is.
    pub fn owner(&self) -> Option<u32>
        ensures { result ≡ self.now.owner }
    {
        self.owner
    }

    /// The body.
    pub fn body(&self) -> &Body
        ensures { result.now ≡ self.now.body }
    {
        self.body
    }

    /// What is stated of it.
    pub fn bounds(&self) -> &Bounds
        ensures { result.now ≡ self.now.bounds }
    {
        self.bounds
    }

    /// How many values the object has before its fields.
    pub fn held(&self) -> usize
        ensures { result ≡ self.now.held }
    {
        self.held
    }

    /// The effect that is stated of it.
    pub fn effect(&self) -> &Effect<'a>
        ensures { result.now ≡ self.now.bounds.effect }
    {
        &self.effect
    }

    /// How many instructions the body has.
    pub fn len(&self) -> usize
        ensures { result ≡ length self.now.body.instructions }
    {
        self.body.instructions.len()
    }

    /// The instruction at an address.
    pub fn instruction(&self, at: usize) -> Instruction
        requires { at < length self.now.body.instructions }
        ensures there { IsAt self.now.body.instructions at result }
        ensures range { RangeOk self.now.image self.now.x self.now.owner self.now.body self.now.bounds self.now.held result }
    {
        let Some(placed) = self.body.instructions.get(at) else {
            unreachable!()
        };
        placed.instruction
    }

    /// The target that is stated for an address.
    pub fn target(&self, to: usize) -> Option<&Target>
        requires { to < length self.now.body.instructions }
        ensures first { option_copied result ≡ target_in to self.now.bounds.targets }
        ensures short { IfSome result (λ t. AreShort t.now.operands) }
    {
        let Some(number) = self.targets.number_at(to) else {
            return None;
        };
        self.bounds.targets.get(number)
    }

    /// The literal of a number.
    pub fn literal(&self, number: u32) -> Option<&Literal>
        ensures { option_copied result ≡ literal_of self.now.image.code self.now.x number }
    {
        self.scope.literals.get(number as usize)
    }

    /// The types of the values of the objects of a literal.
    pub fn values(&self, literal: u32) -> &[Reference]
        ensures kinds { kinds_in self.now.x result.now ≡ value_kinds self.now.image self.now.x literal }
        ensures short { AreShort result.now }
    {
        if literal == 0 {
            return self.typing.values.as_slice();
        }
        let Some(values) = self.typing.literals.get(literal as usize - 1) else {
            return &[];
        };
        values.as_slice()
    }

    /// The type that the body returns.
    pub fn result(&self) -> Kind
        ensures { result ≡ kind_in self.now.x self.now.bounds.result }
    {
        kind_of(self.x, self.bounds.result)
    }

    /// The type of the values of a slot of a `val`, by the number of the `val`.
    pub fn val_kind(&self, number: usize) -> Option<Kind>
        ensures { result ≡ slice_get (kinds_in self.now.x self.now.bounds.vals) number }
    {
        kind_at(self.x, &self.bounds.vals, number)
    }

    /// The type of what can be read in a slot.
    pub fn slot_kind(&self, known: &Knowing, slot: u32) -> Option<Kind>
        ensures { result ≡ slot_kind self.now.image self.now.x self.now.owner self.now.body self.now.bounds self.now.held known.now.stored slot }
    {
        if slot == 0 {
            let Some(literal) = self.owner else {
                return None;
            };
            return Some(Kind::Own(self.x, literal));
        }
        if slot - 1 < self.body.parameters {
            return kind_at(self.x, &self.bounds.parameters, (slot - 1) as usize);
        }
        if known.is_stored(slot) {
            return self.val_kind((slot - 1 - self.body.parameters) as usize);
        }
        None
    }

    /// The type of a value of the current object.
    pub fn value_kind(&self, number: u32) -> Option<Kind>
        ensures { result ≡ value_kind self.now.image self.now.x self.now.owner self.now.body self.now.bounds self.now.held number }
    {
        let values = self.values(literal_number(self.owner()));
        kind_among(self.x(), values, number as usize)
    }
}
