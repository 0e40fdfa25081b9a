//! What is known after an instruction.

ghost use Rattle.std.specs.Prelude.{◌≡◌, ◌↔◌, ◌<◌, ◌≤◌, ℕ, List, length, IsTrue, OnOk};
ghost use Rattle.wy_verified.specs.declared.known.Jumped.{Jumped};
ghost use Rattle.wy_verified.specs.Passing.{jumped};
ghost use Rattle.wy_verified.specs.Rules.{result_kind};
ghost use Rattle.wy_verified.specs.declared.known.Known.{Known};
ghost use Rattle.wy_verify.specs.Sites.{AreNoted, Site as Value_site};
ghost use Rattle.wy_verify.specs.Turns.{FallsAt, IsInside, after_at, constant_at, popped_at, pushed_at, result_at, stored_at};

use crate::jumps::Jumps;
use crate::knowing::Knowing;
use crate::site::Site;
use crate::states::popped;
use wy_code::instruction::{Constant, Instruction, Operator};
use wy_text::text::Memory;
use wy_verified::Kind;

/// The type of a constant.
fn constant_kind(constant: Constant) -> Kind
    ensures { result ≡ constant_at constant }
{
    match constant {
        Constant::Int(_) => Kind::Ints,
        Constant::Truth(_) => Kind::Truths,
        Constant::Unit => Kind::Units,
        Constant::Text(_) => Kind::Texts,
        Constant::Grant(grant) => Kind::Granted(grant as u32),
        Constant::Instance(instance) => Kind::Own(instance as u32, 0),
    }
}

/// The type of the result of an operator.
fn result_kind(operator: Operator) -> Kind
    ensures { result ≡ result_kind operator }
{
    match operator {
        Operator::Not
        | Operator::Equal
        | Operator::NotEqual
        | Operator::Less
        | Operator::LessOrEqual
        | Operator::Greater
        | Operator::GreaterOrEqual => Kind::Truths,
        Operator::Join | Operator::Part | Operator::Byte | Operator::Show => Kind::Texts,
        _ => Kind::Ints,
    }
}

/// The type of the result of the method that a call finds.
fn call_kind(site: &Site<'_>, known: &Knowing, number: u32, arguments: usize) -> Kind
    requires { arguments < length known.now.operands }
    ensures { result ≡ result_at site.now known.now number arguments }
{
    match site.judged().method(known.operand(arguments), number) {
        Some(method) => method.result(),
        None => Kind::Units,
    }
}

/// The type that an instruction pushes, if it pushes.
fn pushed_kind(site: &Site<'_>, known: &Knowing, instruction: Instruction) -> Option<Kind>
    requires { popped_at site.now instruction ≤ length known.now.operands }
    ensures { result ≡ pushed_at site.now known.now instruction }
{
    match instruction {
        Instruction::Push(constant) => Some(constant_kind(constant)),
        Instruction::Load(slot) => Some(site.slot_kind(known, slot).unwrap_or(Kind::Units)),
        Instruction::Get(number) => Some(site.value_kind(number).unwrap_or(Kind::Units)),
        Instruction::Op(operator) => Some(result_kind(operator)),
        Instruction::New(literal) => Some(Kind::Own(site.x(), literal)),
        Instruction::Call(number, arguments) => {
            Some(call_kind(site, known, number, arguments as usize))
        }
        _ => None,
    }
}

/// Notes the slot that an instruction stores into, or the field that it sets.
fn note_stored(site: &Site<'_>, known: &mut Knowing, instruction: Instruction) -> Result<(), Memory>
    ensures { OnOk result (known.new ≡ stored_at site.now known.old instruction) }
{
    match instruction {
        Instruction::Store(slot) => known.store(slot),
        Instruction::Set(_) if site.owner().is_none() => known.set_next(),
        _ => Ok(()),
    }
}

/// Makes what is known at an instruction what is known after it.
pub fn step(site: &Site<'_>, known: &mut Knowing, instruction: Instruction) -> Result<(), Memory>
    requires { popped_at site.now instruction ≤ length known.old.operands }
    ensures { OnOk result (FallsAt site.now instruction → known.new ≡ after_at site.now known.old instruction) }
{
    let kind = pushed_kind(site, known, instruction);
    known.replace(popped(site, instruction), kind)?;
    note_stored(site, known, instruction)
}

/// Whether the next place is reached from an instruction.
pub fn falls_through(instruction: Instruction) -> bool
    ensures { (s : Value_site) → (IsTrue result ↔ FallsAt s instruction) }
{
    !matches!(
        instruction,
        Instruction::Jump(_) | Instruction::Return | Instruction::Finish
    )
}

/// Notes the jump that an instruction makes, if it makes one.
pub fn note_jump(jumps: &mut Jumps, set: u32, instruction: Instruction)
    requires { IsInside (length jumps.old) instruction }
    ensures long { length jumps.new ≡ length jumps.old }
    ensures noted { (js : List Jumped) (known : Known) → known.set ≡ set → AreNoted jumps.old js → AreNoted jumps.new (jumped instruction known js) }
{
    match instruction {
        Instruction::Jump(to) | Instruction::JumpFalse(to) => jumps.note(to as usize, set),
        _ => (),
    }
}
