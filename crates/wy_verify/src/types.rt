//! V-Type and V-Effect at an instruction.

mod literals;
mod operators;

ghost use Rattle.std.specs.Prelude.{◌≡◌, ◌↔◌, ◌-◌, ◌<◌, ◌≤◌, suc, length, IfOk, OnOk, IsTrue};
ghost use Rattle.wy_verified.specs.Kinds.{AllFit, Fits, Within, kinds_in};
ghost use Rattle.wy_verified.specs.Walking.{top_kind};
ghost use Rattle.wy_verify.specs.Closing.{AreClosed};
ghost use Rattle.wy_verify.specs.Sites.{AreShort};
ghost use Rattle.wy_verify.specs.Turns.{FitsAt, IsCalled, IsStoredInTypes, IsSetInTypes, IsReturned, IsFinishedInTypes, MeetsTargetTypes, IsBroughtInTypes, IsInState, IsInTypes, BringsTypes, IsTypedHere, IsEffect, IsWithinEffect, StaysInside, popped_at};

use crate::kinds::kind_there;
use crate::knowing::Knowing;
use crate::methods::FoundMethod;
use crate::pairs::Pairs;
use crate::site::Site;
use crate::types::literals::literal_fits;
use crate::types::operators::operator_fits;
use wy_code::instruction::Instruction;
use wy_image::{Reference, Target};
use wy_text::text::Memory;
use wy_verified::Kind;

/// Whether a type is the other or a subtype of it.
fn fits(site: &Site<'_>, pairs: &mut Pairs, left: Kind, right: Kind) -> Result<bool, Memory>
    requires { AreClosed site.now.image pairs.old }
    ensures decided { IfOk result (λ b. IsTrue b ↔ Fits site.now.image left right) }
    ensures kept { OnOk result (AreClosed site.now.image pairs.new) }
{
    pairs.fits(site.judged(), left, right)
}

/// Whether the type at a place fits the one that the instance writes there.
fn fits_at(
    site: &Site<'_>,
    pairs: &mut Pairs,
    kinds: &[Kind],
    references: &[Reference],
    at: usize,
) -> Result<bool, Memory>
    requires closed { AreClosed site.now.image pairs.old }
    requires short { AreShort references.now }
    requires left { at < length kinds.now }
    requires right { at < length references.now }
    ensures decided { IfOk result (λ b. IsTrue b ↔ FitsAt site.now.image kinds.now (kinds_in site.now.x references.now) at) }
    ensures kept { OnOk result (AreClosed site.now.image pairs.new) }
{
    fits(site, pairs, kinds[at], kind_there(site.x(), references, at))
}

/// Whether types fit those that the instance writes, one by one, and as many.
fn all_fit(
    site: &Site<'_>,
    pairs: &mut Pairs,
    kinds: &[Kind],
    references: &[Reference],
) -> Result<bool, Memory>
    requires closed { AreClosed site.now.image pairs.old }
    requires short { AreShort references.now }
    ensures decided { IfOk result (λ b. IsTrue b ↔ AllFit site.now.image kinds.now (kinds_in site.now.x references.now)) }
    ensures kept { OnOk result (AreClosed site.now.image pairs.new) }
{
    if kinds.len() != references.len() {
        return Ok(false);
    }
    for at in 0..kinds.len() {
        if !fits_at(site, pairs, kinds, references, at)? {
            return Ok(false);
        }
    }
    Ok(true)
}

/// Whether the type at a place fits the parameter there.
fn fits_parameter(
    site: &Site<'_>,
    pairs: &mut Pairs,
    kinds: &[Kind],
    method: &FoundMethod<'_>,
    at: usize,
) -> Result<bool, Memory>
    requires closed { AreClosed site.now.image pairs.old }
    requires left { at < length kinds.now }
    requires right { at < length method.now.params }
    ensures decided { IfOk result (λ b. IsTrue b ↔ FitsAt site.now.image kinds.now method.now.params at) }
    ensures kept { OnOk result (AreClosed site.now.image pairs.new) }
{
    fits(site, pairs, kinds[at], method.parameter(at))
}

/// Whether types fit the parameters of a method, one by one, and as many.
fn parameters_fit(
    site: &Site<'_>,
    pairs: &mut Pairs,
    kinds: &[Kind],
    method: &FoundMethod<'_>,
) -> Result<bool, Memory>
    requires { AreClosed site.now.image pairs.old }
    ensures decided { IfOk result (λ b. IsTrue b ↔ AllFit site.now.image kinds.now method.now.params) }
    ensures kept { OnOk result (AreClosed site.now.image pairs.new) }
{
    if kinds.len() != method.parameter_count() {
        return Ok(false);
    }
    for at in 0..kinds.len() {
        if !fits_parameter(site, pairs, kinds, method, at)? {
            return Ok(false);
        }
    }
    Ok(true)
}

/// Whether there is a method, and the arguments fit its parameters.
fn call_fits(
    site: &Site<'_>,
    known: &Knowing,
    pairs: &mut Pairs,
    number: u32,
    arguments: usize,
) -> Result<bool, Memory>
    requires closed { AreClosed site.now.image pairs.old }
    requires count { arguments < length known.now.operands }
    ensures decided { IfOk result (λ b. IsTrue b ↔ IsCalled site.now known.now number arguments) }
    ensures kept { OnOk result (AreClosed site.now.image pairs.new) }
{
    match site.judged().method(known.operand(arguments), number) {
        Some(method) => parameters_fit(site, pairs, known.topmost(arguments), &method),
        None => Ok(false),
    }
}

/// Whether the topmost operand fits a type.
fn top_fits(site: &Site<'_>, known: &Knowing, pairs: &mut Pairs, kind: Kind) -> Result<bool, Memory>
    requires closed { AreClosed site.now.image pairs.old }
    requires count { 1 ≤ length known.now.operands }
    ensures decided { IfOk result (λ b. IsTrue b ↔ Fits site.now.image (top_kind known.now.operands) kind) }
    ensures kept { OnOk result (AreClosed site.now.image pairs.new) }
{
    fits(site, pairs, known.operand(0), kind)
}

/// Whether the operands fit those of a target, once `taken` operands are popped.
pub fn meets_types(
    site: &Site<'_>,
    known: &Knowing,
    pairs: &mut Pairs,
    taken: usize,
    target: &Target,
) -> Result<bool, Memory>
    requires closed { AreClosed site.now.image pairs.old }
    requires count { taken ≤ length known.now.operands }
    requires short { AreShort target.now.operands }
    ensures decided { IfOk result (λ b. IsTrue b ↔ MeetsTargetTypes site.now known.now taken target.now) }
    ensures kept { OnOk result (AreClosed site.now.image pairs.new) }
{
    all_fit(site, pairs, known.lower(taken), target.operands.as_slice())
}

/// Whether a jump brings operands of the types of the target, once `taken` operands are popped.
fn brings_types(
    site: &Site<'_>,
    known: &Knowing,
    pairs: &mut Pairs,
    taken: usize,
    to: usize,
) -> Result<bool, Memory>
    requires closed { AreClosed site.now.image pairs.old }
    requires inside { to < length site.now.body.instructions }
    requires taken { taken ≤ length known.now.operands }
    ensures decided { IfOk result (λ b. IsTrue b ↔ BringsTypes site.now known.now taken to) }
    ensures kept { OnOk result (AreClosed site.now.image pairs.new) }
{
    match site.target(to) {
        Some(target) => meets_types(site, known, pairs, taken, target),
        None => Ok(true),
    }
}

/// Whether a jump that an instruction makes brings operands of the types of the target.
fn jump_fits(
    site: &Site<'_>,
    known: &Knowing,
    pairs: &mut Pairs,
    instruction: Instruction,
) -> Result<bool, Memory>
    requires closed { AreClosed site.now.image pairs.old }
    requires inside { StaysInside site.now instruction }
    requires count { popped_at site.now instruction ≤ length known.now.operands }
    ensures decided { IfOk result (λ b. IsTrue b ↔ IsBroughtInTypes site.now known.now instruction) }
    ensures kept { OnOk result (AreClosed site.now.image pairs.new) }
{
    match instruction {
        Instruction::Jump(to) => brings_types(site, known, pairs, 0, to as usize),
        Instruction::JumpFalse(to) => brings_types(site, known, pairs, 1, to as usize),
        _ => Ok(true),
    }
}

/// The number of the `val` whose slot this is.
fn val_number(site: &Site<'_>, slot: u32) -> usize
    requires { site.now.body.parameters < slot }
    ensures { result ≡ slot - suc site.now.body.parameters }
{
    (slot - site.body().parameters - 1) as usize
}

/// Whether the value that a store takes fits the type of the slot.
fn store_fits(
    site: &Site<'_>,
    known: &Knowing,
    pairs: &mut Pairs,
    slot: u32,
) -> Result<bool, Memory>
    requires closed { AreClosed site.now.image pairs.old }
    requires count { 1 ≤ length known.now.operands }
    requires local { site.now.body.parameters < slot }
    ensures decided { IfOk result (λ b. IsTrue b ↔ IsStoredInTypes site.now known.now slot) }
    ensures kept { OnOk result (AreClosed site.now.image pairs.new) }
{
    let kind = site.val_kind(val_number(site, slot)).unwrap_or(Kind::Units);
    top_fits(site, known, pairs, kind)
}

/// Whether the value that a field is set to fits its type.
fn set_fits(
    site: &Site<'_>,
    known: &Knowing,
    pairs: &mut Pairs,
    number: u32,
) -> Result<bool, Memory>
    requires closed { AreClosed site.now.image pairs.old }
    requires count { 1 ≤ length known.now.operands }
    ensures decided { IfOk result (λ b. IsTrue b ↔ IsSetInTypes site.now known.now number) }
    ensures kept { OnOk result (AreClosed site.now.image pairs.new) }
{
    let kind = site.value_kind(number).unwrap_or(Kind::Units);
    top_fits(site, known, pairs, kind)
}

/// Whether the operand that the body returns fits the type of its result.
fn return_fits(site: &Site<'_>, known: &Knowing, pairs: &mut Pairs) -> Result<bool, Memory>
    requires closed { AreClosed site.now.image pairs.old }
    requires count { 1 ≤ length known.now.operands }
    ensures decided { IfOk result (λ b. IsTrue b ↔ IsReturned site.now known.now) }
    ensures kept { OnOk result (AreClosed site.now.image pairs.new) }
{
    top_fits(site, known, pairs, site.result())
}

/// Whether an operand that is left at the end is a unit.
fn finish_fits(site: &Site<'_>, known: &Knowing, pairs: &mut Pairs) -> Result<bool, Memory>
    requires { AreClosed site.now.image pairs.old }
    ensures decided { IfOk result (λ b. IsTrue b ↔ IsFinishedInTypes site.now known.now) }
    ensures kept { OnOk result (AreClosed site.now.image pairs.new) }
{
    if known.depth() == 0 {
        return Ok(true);
    }
    top_fits(site, known, pairs, Kind::Units)
}

/// Whether the part of V-Type that depends on the form of an instruction holds.
fn instruction_fits(
    site: &Site<'_>,
    known: &Knowing,
    pairs: &mut Pairs,
    instruction: Instruction,
) -> Result<bool, Memory>
    requires closed { AreClosed site.now.image pairs.old }
    requires count { popped_at site.now instruction ≤ length known.now.operands }
    requires state { IsInState site.now known.now instruction }
    ensures decided { IfOk result (λ b. IsTrue b ↔ IsInTypes site.now known.now instruction) }
    ensures kept { OnOk result (AreClosed site.now.image pairs.new) }
{
    match instruction {
        Instruction::Store(slot) => store_fits(site, known, pairs, slot),
        Instruction::Set(number) => set_fits(site, known, pairs, number),
        Instruction::Op(operator) => Ok(operator_fits(known, operator)),
        Instruction::JumpFalse(_) => top_fits(site, known, pairs, Kind::Truths),
        Instruction::New(literal) => literal_fits(site, known, pairs, literal),
        Instruction::Call(number, arguments) => {
            call_fits(site, known, pairs, number, arguments as usize)
        }
        Instruction::Return => return_fits(site, known, pairs),
        Instruction::Finish => finish_fits(site, known, pairs),
        _ => Ok(true),
    }
}

/// Returns whether V-Type holds at an instruction, apart from what falls in there. Fails only if memory runs out.
pub fn types_pass(
    site: &Site<'_>,
    known: &Knowing,
    pairs: &mut Pairs,
    instruction: Instruction,
) -> Result<bool, Memory>
    requires closed { AreClosed site.now.image pairs.old }
    requires inside { StaysInside site.now instruction }
    requires count { popped_at site.now instruction ≤ length known.now.operands }
    requires state { IsInState site.now known.now instruction }
    ensures decided { IfOk result (λ b. IsTrue b ↔ IsTypedHere site.now known.now instruction) }
    ensures kept { OnOk result (AreClosed site.now.image pairs.new) }
{
    if !instruction_fits(site, known, pairs, instruction)? {
        return Ok(false);
    }
    jump_fits(site, known, pairs, instruction)
}

/// Whether the effect of a method is within the body's.
fn is_within(site: &Site<'_>, method: &FoundMethod<'_>) -> bool
    ensures { IsTrue result ↔ Within method.now.effect site.now.bounds.effect }
{
    method.is_within(site.effect())
}

/// Whether the effect of the method that a call finds is within the body's.
fn call_passes(site: &Site<'_>, known: &Knowing, number: u32, arguments: usize) -> bool
    requires { arguments < length known.now.operands }
    ensures { IsTrue result ↔ IsWithinEffect site.now known.now number arguments }
{
    match site.judged().method(known.operand(arguments), number) {
        Some(method) => is_within(site, &method),
        None => true,
    }
}

/// Returns whether V-Effect holds at an instruction. Takes no memory.
pub fn effect_passes(site: &Site<'_>, known: &Knowing, instruction: Instruction) -> bool
    requires { popped_at site.now instruction ≤ length known.now.operands }
    ensures { IsTrue result ↔ IsEffect site.now known.now instruction }
{
    match instruction {
        Instruction::Call(number, arguments) => {
            call_passes(site, known, number, arguments as usize)
        }
        _ => true,
    }
}
