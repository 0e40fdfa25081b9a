//! What a walk has with it at a place, and one turn of the walk.

ghost use Rattle.std.specs.Prelude.{◌≡◌, ◌↔◌, ◌<◌, ◌≤◌, None, true, length, replicate, IfOk, OnOk, IsTrue};
ghost use Rattle.wy_verified.specs.Rules.{at_first};
ghost use Rattle.wy_verify.specs.Closing.{AreClosed};
ghost use Rattle.wy_verify.specs.Turns.{comes, FallsToTypes, HasGone, HasLed, IsEntered, IsGoing, IsHereJudged};
ghost use Rattle.wy_verify.specs.Turns.{IsSetAt, IsTurn, StaysInside, TellsFall, popped_at};

use crate::flow::flow_passes;
use crate::jumps::Jumps;
use crate::knowing::Knowing;
use crate::pairs::Pairs;
use crate::site::Site;
use crate::states::{depth_passes, falls_in_state, state_passes};
use crate::steps::{falls_through, note_jump, step};
use crate::types::{effect_passes, meets_types, types_pass};
use std::alloc::Global;
use std::marker::Model;
use wy_code::instruction::Instruction;
use wy_text::text::Memory;
use wy_verified::VerifyRule;

/// What a walk has with it: what is known, whether that falls in at the place, and where jumps have led.
#[derive(Drop)]
pub struct Visit {
    known: Knowing,
    falls: bool,
    jumps: Jumps,
}

impl Model for Visit {
    ghost use Rattle.wy_verify.specs.Turns.{Visit as Value_visit};

    ghost Value = { Value_visit };

    ghost view = { λ v. record { known = v.known; falls = v.falls; jumps = v.jumps } };
}

impl Visit {
    /// Returns a walk at the start of a body of `count` instructions. Fails only if memory runs out.
    pub fn new(alloc: Global, count: usize) -> Result<Visit, Memory>
        ensures { IfOk result (λ v. v ≡ record { known = at_first; falls = true; jumps = replicate count None }) }
    {
        let jumps = Jumps::new(alloc, count)?;
        Ok(Visit {
            known: Knowing::new(alloc),
            falls: true,
            jumps,
        })
    }

    /// Whether what falls in has what the target says, if a target is there.
    fn falls_in(&self, site: &Site<'_>, at: usize) -> bool
        requires { at < length site.now.body.instructions }
        ensures { TellsFall site.now self.now at result }
    {
        if !self.falls {
            return true;
        }
        match site.target(at) {
            Some(target) => falls_in_state(&self.known, target, self.jumps.set_at(at)),
            None => true,
        }
    }

    /// Whether what falls in has operands of the types of the target, if a target is there.
    fn falls_in_types(&self, site: &Site<'_>, pairs: &mut Pairs, at: usize) -> Result<bool, Memory>
        requires closed { AreClosed site.now.image pairs.old }
        requires inside { at < length site.now.body.instructions }
        ensures decided { IfOk result (λ b. IsTrue b ↔ FallsToTypes site.now (comes self.now) at) }
        ensures kept { OnOk result (AreClosed site.now.image pairs.new) }
    {
        if !self.falls {
            return Ok(true);
        }
        match site.target(at) {
            Some(target) => meets_types(site, &self.known, pairs, 0, target),
            None => Ok(true),
        }
    }

    /// The number of set fields at a target: that of what falls in, or else that of the latest jump that led there.
    fn set_at(&self, at: usize) -> u32
        ensures { IsSetAt self.now at result }
    {
        if self.falls {
            return self.known.set_count();
        }
        match self.jumps.set_at(at) {
            Some(set) => set,
            None => 0,
        }
    }

    /// Comes to a place: at a target, what the target says is known.
    fn enter(&mut self, site: &Site<'_>, at: usize) -> Result<(), Memory>
        requires inside { at < length site.now.body.instructions }
        requires led { HasLed site.now self.old at }
        ensures { OnOk result (IsEntered site.now self.old self.new at) }
    {
        let Some(target) = site.target(at) else {
            return Ok(());
        };
        let set = self.set_at(at);
        self.known.enter(site.x(), target, set)
    }

    /// The first rule after V-Flow that does not hold at an instruction. `fits` is whether what falls in has the
    /// operands of a target.
    fn judge(
        &self,
        site: &Site<'_>,
        pairs: &mut Pairs,
        fits: bool,
        instruction: Instruction,
    ) -> Result<Option<VerifyRule>, Memory>
        requires closed { AreClosed site.now.image pairs.old }
        requires inside { StaysInside site.now instruction }
        ensures judged { IfOk result (IsHereJudged site.now self.now fits instruction) }
        ensures ready { IfOk result (λ r. r ≡ None → popped_at site.now instruction ≤ length self.now.known.operands) }
        ensures kept { OnOk result (AreClosed site.now.image pairs.new) }
    {
        if !state_passes(site, &self.known, &self.jumps, instruction) {
            return Ok(Some(VerifyRule::State));
        }
        if !depth_passes(site, &self.known, instruction) {
            return Ok(Some(VerifyRule::Depth));
        }
        if !fits {
            return Ok(Some(VerifyRule::Types));
        }
        if !types_pass(site, &self.known, pairs, instruction)? {
            return Ok(Some(VerifyRule::Types));
        }
        if !effect_passes(site, &self.known, instruction) {
            return Ok(Some(VerifyRule::Effect));
        }
        Ok(None)
    }

    /// Goes on from an instruction at which all rules hold.
    fn go(&mut self, site: &Site<'_>, instruction: Instruction) -> Result<(), Memory>
        requires { IsGoing site.now self.old instruction }
        ensures { OnOk result (HasGone site.now self.old self.new instruction) }
    {
        note_jump(&mut self.jumps, self.known.set_count(), instruction);
        self.falls = falls_through(instruction);
        if self.falls {
            step(site, &mut self.known, instruction)?;
        }
        Ok(())
    }

    /// Tests the rules at an instruction, and goes on if all hold. Returns the first rule that fails. Fails only if
    /// memory runs out.
    pub fn turn(
        &mut self,
        site: &Site<'_>,
        pairs: &mut Pairs,
        at: usize,
    ) -> Result<Option<VerifyRule>, Memory>
        requires closed { AreClosed site.now.image pairs.old }
        requires inside { at < length site.now.body.instructions }
        requires long { length self.old.jumps ≡ length site.now.body.instructions }
        requires led { HasLed site.now self.old at }
        ensures turned { IfOk result (IsTurn site.now self.old self.new at) }
        ensures kept { OnOk result (AreClosed site.now.image pairs.new) }
    {
        let instruction = site.instruction(at);
        if !flow_passes(site, &self.jumps, at, instruction) {
            return Ok(Some(VerifyRule::Flow));
        }
        if !self.falls_in(site, at) {
            return Ok(Some(VerifyRule::State));
        }
        let fits = self.falls_in_types(site, pairs, at)?;
        self.enter(site, at)?;
        let failed = self.judge(site, pairs, fits, instruction)?;
        if failed.is_none() {
            self.go(site, instruction)?;
        }
        Ok(failed)
    }
}
