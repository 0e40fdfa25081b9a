//! The instructions of code.

ghost use Rattle.std.specs.Prelude.{◌≡◌, suc, IfOk, map};
ghost use Rattle.wy_verified.specs.CodeOf.{constant_of, instruction_of, placed_of};

use crate::coding::texts::number_in;
use indexmap::IndexSet;
use std::alloc::Global;
use wy_code::instruction as code;
use wy_image::{Constant, Instruction, Row};
use wy_text::fault::Place;
use wy_text::list::Items;
use wy_text::text::{Memory, Text};

/// Returns a number of a file, a grant or an instance, as code has it.
pub(super) fn short(number: u32) -> Result<u16, Memory>
    ensures { IfOk result (λ n. n ≡ number) }
{
    match u16::try_from(number) {
        Ok(short) => Ok(short),
        Err(_) => Err(Memory),
    }
}

/// Returns the number that follows.
fn next(number: u32) -> Result<u32, Memory>
    ensures { IfOk result (λ n. n ≡ suc number) }
{
    match number.checked_add(1) {
        Some(next) => Ok(next),
        None => Err(Memory),
    }
}

/// Returns a constant of code.
fn constant_of(texts: &IndexSet<Text>, constant: &Constant) -> Result<code::Constant, Memory>
    ensures { IfOk result (λ c. c ≡ constant_of texts.now.keys constant.now) }
{
    match constant {
        Constant::Int(number) => Ok(code::Constant::Int(*number)),
        Constant::Truth(truth) => Ok(code::Constant::Truth(*truth)),
        Constant::Unit => Ok(code::Constant::Unit),
        Constant::Text(text) => Ok(code::Constant::Text(number_in(texts, text)?)),
        Constant::Grant(grant) => Ok(code::Constant::Grant(short(*grant)?)),
        Constant::Instance(instance) => Ok(code::Constant::Instance(short(*instance)?)),
    }
}

/// Returns an instruction of code.
fn instruction_of(
    texts: &IndexSet<Text>,
    instruction: &Instruction,
) -> Result<code::Instruction, Memory>
    ensures { IfOk result (λ i. i ≡ instruction_of texts.now.keys instruction.now) }
{
    match instruction {
        Instruction::Push(constant) => Ok(code::Instruction::Push(constant_of(texts, constant)?)),
        Instruction::Load(slot) => Ok(code::Instruction::Load(*slot)),
        Instruction::Store(slot) => Ok(code::Instruction::Store(*slot)),
        Instruction::Get(value) => Ok(code::Instruction::Get(*value)),
        Instruction::Set(value) => Ok(code::Instruction::Set(*value)),
        Instruction::Drop => Ok(code::Instruction::Drop),
        Instruction::Op(operator) => Ok(code::Instruction::Op(*operator)),
        Instruction::Jump(to) => Ok(code::Instruction::Jump(*to)),
        Instruction::JumpFalse(to) => Ok(code::Instruction::JumpFalse(*to)),
        Instruction::New(literal) => Ok(code::Instruction::New(next(*literal)?)),
        Instruction::Call(method, count) => Ok(code::Instruction::Call(*method, *count)),
        Instruction::Return => Ok(code::Instruction::Return),
        Instruction::Finish => Ok(code::Instruction::Finish),
    }
}

/// Returns an instruction of code with its place.
fn placed_of(texts: &IndexSet<Text>, row: &Row) -> Result<code::Placed, Memory>
    ensures { IfOk result (λ p. p ≡ placed_of texts.now.keys row.now) }
{
    let instruction = instruction_of(texts, &row.instruction)?;
    let file = short(row.file)?;
    let place = Place {
        file,
        line: row.line,
        column: row.column,
    };
    Ok(code::Placed { instruction, place })
}

/// Returns the instructions of rows.
pub(super) fn instructions_of(
    alloc: Global,
    texts: &IndexSet<Text>,
    rows: &[Row],
) -> Result<Items<code::Placed>, Memory>
    ensures { IfOk result (λ l. l ≡ map (placed_of texts.now.keys) rows.now) }
{
    let mut instructions = Items::new(alloc);
    for row in rows {
        instructions.push(placed_of(texts, row)?)?;
    }
    Ok(instructions)
}
