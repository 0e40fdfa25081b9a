//! Operations as tables hold them, and what devices answer, in words.

ghost use Rattle.std.specs.Prelude.{◌≡◌};
ghost use Rattle.wy_device.specs.Operation.{kind_of};

use std::alloc::Global;
use std::test::Fail;
use wy_device::device::{Device, DeviceError};
use wy_device::operation::{Answer, Kind, Op};
use wy_text::text::{Memory, Text, from_bytes};

/// An operation of a folder as a table holds it: the grant, a word, the name of a file and a text, and the answer.
pub type Asked = (
    &'static str,
    &'static str,
    &'static str,
    &'static str,
    &'static str,
);

/// An answer, in a word where it is no text.
pub fn shown(answer: &Result<Answer, DeviceError>) -> &[u8] {
    match answer {
        Ok(Answer::Bytes(text)) => text.as_bytes(),
        Ok(Answer::Truth(true)) => b"yes",
        Ok(Answer::Truth(false)) => b"no",
        Ok(Answer::Number(_)) => b"a number",
        Ok(Answer::Unit) => b"done",
        Err(DeviceError::Failed) => b"failed",
        Err(DeviceError::Memory) => b"no memory",
    }
}

/// What the console answers to a read.
pub fn read<D: Device>(alloc: Global, console: &mut D) -> Result<Text, Memory> {
    let grant = from_bytes(alloc, b"c")?;
    if console.kind() != Kind::Console {
        return from_bytes(alloc, b"no console");
    }
    from_bytes(alloc, shown(&console.perform(&grant, &Op::ConsoleRead)))
}

/// Whether the console gives these lines.
pub fn gives<D: Device>(alloc: Global, console: &mut D, lines: &[&[u8]]) -> Result<bool, Memory> {
    for line in lines {
        if read(alloc, console)?.as_bytes() != *line {
            return Ok(false);
        }
    }
    Ok(true)
}

/// What the console answers to a write.
pub fn write<D: Device>(alloc: Global, console: &mut D, text: &[u8]) -> Result<Text, Memory> {
    let grant = from_bytes(alloc, b"c")?;
    if console.kind() != Kind::Console {
        return from_bytes(alloc, b"no console");
    }
    let op = Op::ConsoleWrite(from_bytes(alloc, text)?);
    from_bytes(alloc, shown(&console.perform(&grant, &op)))
}

/// The operation of a folder that a word stands for.
fn operation(word: &str, name: Text, text: Text) -> Op
    ensures { kind_of result ≡ Kind.Folder }
{
    match word {
        "read" => Op::FolderRead(name),
        "has" => Op::FolderHas(name),
        "write" => Op::FolderWrite(name, text),
        "append" => Op::FolderAppend(name, text),
        "remove" => Op::FolderRemove(name),
        _ => Op::FolderNames,
    }
}

/// What the folder of a grant answers to an operation.
pub fn answer<D: Device>(
    alloc: Global,
    folder: &mut D,
    grant: &str,
    word: &str,
    name: Text,
    text: &str,
) -> Result<Text, Memory> {
    if folder.kind() != Kind::Folder {
        return from_bytes(alloc, b"no folder");
    }
    let op = operation(word, name, from_bytes(alloc, text.as_bytes())?);
    let grant = from_bytes(alloc, grant.as_bytes())?;
    from_bytes(alloc, shown(&folder.perform(&grant, &op)))
}

/// Fails with the number of the first operation that the folder answers otherwise.
pub fn all_are_answered<D: Device>(
    alloc: Global,
    folder: &mut D,
    asked: &[Asked],
) -> Result<(), Fail> {
    for (at, (grant, word, name, text, wanted)) in asked.iter().enumerate() {
        let name = from_bytes(alloc, name.as_bytes())?;
        if answer(alloc, folder, grant, word, name, text)?.as_bytes() != wanted.as_bytes() {
            return Err(Fail::new(format_args!("row {at}")));
        }
    }
    Ok(())
}
