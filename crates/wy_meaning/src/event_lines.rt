ghost use Rattle.std.specs.Prelude.{◌≡◌, ◌++◌, ◌∷◌, [], IfOk, OnOk};
ghost use Rattle.std.specs.Fmt.{signed_decimal};
ghost use Rattle.wy_text.specs.Quoted.{quoted_form};
ghost use Rattle.wy_meaning.specs.EventLines as lines;

use std::alloc::Global;
use wy_device::deed::{Deed, Event};
use wy_device::operation::{Answer, Op};
use wy_text::text::{Memory, Text, from_vec};

/// Adds a piece.
fn push(line: &mut Vec<u8>, piece: &[u8]) -> Result<(), Memory>
    ensures { OnOk result (line.new.items ≡ line.old.items ++ piece.now) }
{
    line.extend_from_slice(piece)?;
    Ok(())
}

/// Adds three pieces, one behind the other.
fn push_three(line: &mut Vec<u8>, first: &[u8], second: &[u8], third: &[u8]) -> Result<(), Memory>
    ensures { OnOk result (line.new.items ≡ line.old.items ++ (first.now ++ (second.now ++ third.now))) }
{
    push(line, first)?;
    push(line, second)?;
    push(line, third)
}

/// Adds a text between quotes.
fn push_quoted(line: &mut Vec<u8>, text: &Text) -> Result<(), Memory>
    ensures { OnOk result (line.new.items ≡ line.old.items ++ quoted_form text.now) }
{
    let quoted = text.quoted()?;
    push(line, quoted.as_bytes())
}

/// Adds a number.
fn push_number(alloc: Global, line: &mut Vec<u8>, number: i64) -> Result<(), Memory>
    ensures { OnOk result (line.new.items ≡ line.old.items ++ signed_decimal number) }
{
    let digits = format!(in alloc; "{number}")?;
    push(line, digits.as_bytes())
}

/// Adds two texts between quotes, with a comma between them.
fn push_two(line: &mut Vec<u8>, first: &Text, second: &Text) -> Result<(), Memory>
    ensures { OnOk result (line.new.items ≡ line.old.items ++ lines.arguments_text (first.now ∷ second.now ∷ [])) }
{
    push_quoted(line, first)?;
    push(line, b", ")?;
    push_quoted(line, second)
}

/// Adds what an operation is asked with.
fn push_arguments(line: &mut Vec<u8>, op: &Op) -> Result<(), Memory>
    ensures { OnOk result (line.new.items ≡ line.old.items ++ lines.arguments_text (lines.arguments op.now)) }
{
    match op {
        Op::ConsoleRead | Op::FolderNames | Op::ClockNow | Op::RandomWord => Ok(()),
        Op::ConsoleWrite(text)
        | Op::FolderRead(text)
        | Op::FolderHas(text)
        | Op::FolderRemove(text) => push_quoted(line, text),
        Op::FolderWrite(name, text) | Op::FolderAppend(name, text) => push_two(line, name, text),
    }
}

/// Adds an answer, or the word for a failure.
fn push_answer(alloc: Global, line: &mut Vec<u8>, answer: &Option<Answer>) -> Result<(), Memory>
    ensures { OnOk result (line.new.items ≡ line.old.items ++ lines.answer_text answer.now) }
{
    match answer {
        None => push(line, b"failed"),
        Some(Answer::Bytes(text)) => push_quoted(line, text),
        Some(Answer::Truth(true)) => push(line, b"true"),
        Some(Answer::Truth(false)) => push(line, b"false"),
        Some(Answer::Number(number)) => push_number(alloc, line, *number),
        Some(Answer::Unit) => push(line, b"()"),
    }
}

fn push_deed(alloc: Global, line: &mut Vec<u8>, deed: &Deed) -> Result<(), Memory>
    ensures { OnOk result (line.new.items ≡ line.old.items ++ lines.deed_text deed.now) }
{
    let method = deed.op.name().method();
    push_three(line, deed.grant.as_bytes(), b".", method.as_bytes())?;
    push(line, b"(")?;
    push_arguments(line, &deed.op)?;
    push(line, b") = ")?;
    push_answer(alloc, line, &deed.answer)
}

fn push_event(alloc: Global, line: &mut Vec<u8>, event: &Event) -> Result<(), Memory>
    ensures { OnOk result (line.new.items ≡ line.old.items ++ lines.event_text event.now) }
{
    match event {
        Event::Enter { instance, body } => {
            push(line, b"enter ")?;
            push_three(line, instance.as_bytes(), b" ", body.as_bytes())
        }
        Event::Deed(deed) => {
            push(line, b"deed ")?;
            push_deed(alloc, line, deed)
        }
        Event::Leave => push(line, b"leave"),
    }
}

/// The line that a traced run writes for an event, with its newline (docs/LANGUAGE.md, "Events").
pub fn event_line(alloc: Global, event: &Event) -> Result<Text, Memory>
    ensures { IfOk result (λ line. line ≡ lines.event_line event.now) }
{
    let mut line = Vec::new(alloc);
    push_event(alloc, &mut line, event)?;
    line.push(b'\n')?;
    Ok(from_vec(line))
}
