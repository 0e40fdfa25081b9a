//! Instructions as bytes: the form, and what follows it.

ghost use Rattle.std.specs.Prelude.{◌≡◌, ◌∷◌, slice_index};
ghost use Rattle.wy_spelling.specs.Spelling.{number_bytes};
ghost use Rattle.wy_image.specs.Forms.{IsNumberedInstruction};
ghost use Rattle.wy_image.specs.InstructionLaws.{instruction_kind};
ghost use Rattle.wy_image.specs.Spelled.{IsInstructionSpelled, instruction_bytes};

use crate::file::{Constant, Instruction};
use crate::operators::{byte_of, read_operator};
use std::alloc::Global;
use wy_spelling::{ReadError, Spelled, WriteRefusal};

/// Makes the value of a form that has a number.
fn numbered(form: u8, number: u32) -> Instruction
    requires { IsNumberedInstruction form }
    ensures spelled { IsInstructionSpelled result }
    ensures bytes { instruction_bytes result ≡ form ∷ number_bytes number }
{
    match form {
        2 => Instruction::Load(number),
        3 => Instruction::Store(number),
        4 => Instruction::Get(number),
        5 => Instruction::Set(number),
        8 => Instruction::Jump(number),
        9 => Instruction::JumpFalse(number),
        _ => Instruction::New(number),
    }
}

/// Returns the byte of the form.
fn form_of(instruction: &Instruction) -> u8
    ensures { result ≡ slice_index (instruction_bytes instruction.now) 0 }
{
    match instruction {
        Instruction::Push(_) => 1,
        Instruction::Load(_) => 2,
        Instruction::Store(_) => 3,
        Instruction::Get(_) => 4,
        Instruction::Set(_) => 5,
        Instruction::Drop => 6,
        Instruction::Op(_) => 7,
        Instruction::Jump(_) => 8,
        Instruction::JumpFalse(_) => 9,
        Instruction::New(_) => 10,
        Instruction::Call(_, _) => 11,
        Instruction::Return => 12,
        Instruction::Finish => 13,
    }
}

impl Spelled for Instruction {
    ghost IsSpelled = { IsInstructionSpelled };

    ghost bytes_of = { instruction_bytes };

    fn read(alloc: Global, bytes: &[u8]) -> Result<(Instruction, &[u8]), ReadError> {
        let [form, rest @ ..] = bytes else {
            return Err(ReadError::Bad(0));
        };
        match *form {
            1 => {
                let (constant, rest) = Constant::read(alloc, rest)?;
                Ok((Instruction::Push(constant), rest))
            }
            2..=5 => {
                let (number, rest) = u32::read(alloc, rest)?;
                Ok((numbered(*form, number), rest))
            }
            6 => Ok((Instruction::Drop, rest)),
            7 => {
                let (operator, rest) = read_operator(rest)?;
                Ok((Instruction::Op(operator), rest))
            }
            8..=10 => {
                let (number, rest) = u32::read(alloc, rest)?;
                Ok((numbered(*form, number), rest))
            }
            11 => {
                let ((method, count), rest) = <(u32, u32)>::read(alloc, rest)?;
                Ok((Instruction::Call(method, count), rest))
            }
            12 => Ok((Instruction::Return, rest)),
            13 => Ok((Instruction::Finish, rest)),
            _ => Err(ReadError::Bad(bytes.len())),
        }
    }

    fn write(&self, out: &mut Vec<u8>) -> Result<(), WriteRefusal> {
        out.push(form_of(self))?;
        match self {
            Instruction::Load(number)
            | Instruction::Store(number)
            | Instruction::Get(number)
            | Instruction::Set(number)
            | Instruction::Jump(number)
            | Instruction::JumpFalse(number)
            | Instruction::New(number) => number.write(out),
            Instruction::Push(constant) => constant.write(out),
            Instruction::Op(operator) => {
                out.push(byte_of(*operator))?;
                Ok(())
            }
            Instruction::Call(method, count) => (*method, *count).write(out),
            _ => Ok(()),
        }
    }

    ghost some = { instruction_kind.some };

    ghost apart = { instruction_kind.apart };

    ghost filled = { instruction_kind.filled };
}
