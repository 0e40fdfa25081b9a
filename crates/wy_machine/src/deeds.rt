//! The operation that a call on a grant makes of its texts, and the word of its answer.

ghost use Rattle.std.specs.Prelude.{◌≡◌, ◌<◌, ◌≤◌, length, reverse, take, IfOk, Some};
ghost use Rattle.wy_code.specs.Operations.{texts_named};
ghost use Rattle.wy_device.specs.Tapes.{Tapes};
ghost use Rattle.wy_machine.specs.Requesting.{operation_with, text_answer, word_answer};
ghost use Rattle.wy_machine.specs.States.{store_of};

use crate::machine::Machine;
use crate::requests::{operation_on, texts_of};
use crate::word::{Word, WordKind};
use wy_code::code::Code;
use wy_device::operation::{Answer, Op, OpName};
use wy_text::text::{Memory, Text};

/// An operation with the texts that the topmost operands name; `None` exactly where it takes no such texts.
pub fn requested(
    code: &Code,
    machine: &Machine,
    operation: OpName,
    count: usize,
) -> Result<Option<Op>, Memory>
    requires { count ≤ length machine.now.stack.running.operands }
    ensures { IfOk result (λ op. (tapes : Tapes) →
        op ≡ operation_with operation (texts_named (store_of code.now machine.now.store tapes) (reverse (take count machine.now.stack.running.operands)))) }
{
    match texts_of(code, &machine.store, machine.stack.arguments(count))? {
        Some(texts) => Ok(operation_on(operation, texts)),
        None => Ok(None),
    }
}

/// The text that is an answer.
pub fn text_in(answer: Answer) -> Option<Text>
    ensures { result ≡ text_answer answer }
{
    match answer {
        Answer::Bytes(text) => Some(text),
        Answer::Truth(_) => None,
        Answer::Number(_) => None,
        Answer::Unit => None,
    }
}

/// The word of an answer that is no text.
pub fn word_in(answer: Answer) -> Option<Word>
    ensures { result ≡ word_answer answer }
{
    match answer {
        Answer::Bytes(_) => None,
        Answer::Truth(truth) => Some(Word::new(WordKind::Truth(truth))),
        Answer::Number(number) => Some(Word::new(WordKind::Int(number))),
        Answer::Unit => Some(Word::new(WordKind::Unit)),
    }
}
