//! The kinds of devices, their operations, and the answers.

ghost use Rattle.std.specs.Prelude.{◌≡◌, IfOk};
ghost use Rattle.wy_device.specs.Operation.{kind_named, member_named, method_text, name_of};

use wy_text::text::{Memory, Text};

/// The four kinds of device. A folder serves grants of two primitive types (docs/LANGUAGE.md, "Primitive types").
#[derive(Clone, Copy, PartialEq, Eq)]
pub enum Kind {
    Console,
    Folder,
    Clock,
    Random,
}

/// An operation with its arguments. A folder's have the file's name first, and then the text.
#[derive(Drop)]
pub enum Op {
    ConsoleRead,
    ConsoleWrite(Text),
    FolderRead(Text),
    FolderHas(Text),
    FolderWrite(Text, Text),
    FolderAppend(Text, Text),
    FolderNames,
    ClockNow,
    RandomWord,
    FolderRemove(Text),
}

/// An operation without its arguments.
#[derive(Clone, Copy, Debug, PartialEq, Eq)]
pub enum OpName {
    ConsoleRead,
    ConsoleWrite,
    FolderRead,
    FolderHas,
    FolderWrite,
    FolderAppend,
    FolderNames,
    ClockNow,
    RandomWord,
    FolderRemove,
}

/// How many bytes a text of a run has at most, and so an answer of a folder (docs/LANGUAGE.md, "Limits").
pub const LONGEST_TEXT: usize = 4_194_304;

/// How many bytes one `read` of a console gives at most.
pub const LONGEST_LINE: usize = 65_536;

/// What a device answers: bytes, a truth value, a number, or that it is done.
#[derive(Drop)]
pub enum Answer {
    Bytes(Text),
    Truth(bool),
    Number(i64),
    Unit,
}

impl Op {
    /// The same operation with the same arguments.
    pub fn copy(&self) -> Result<Op, Memory>
        ensures { IfOk result (λ op. op ≡ self.now) }
    {
        Ok(match self {
            Op::ConsoleRead => Op::ConsoleRead,
            Op::ConsoleWrite(text) => Op::ConsoleWrite(text.copy()?),
            Op::FolderRead(name) => Op::FolderRead(name.copy()?),
            Op::FolderHas(name) => Op::FolderHas(name.copy()?),
            Op::FolderWrite(name, text) => Op::FolderWrite(name.copy()?, text.copy()?),
            Op::FolderAppend(name, text) => Op::FolderAppend(name.copy()?, text.copy()?),
            Op::FolderNames => Op::FolderNames,
            Op::ClockNow => Op::ClockNow,
            Op::RandomWord => Op::RandomWord,
            Op::FolderRemove(name) => Op::FolderRemove(name.copy()?),
        })
    }

    /// The operation without its arguments. It takes no memory.
    pub fn name(&self) -> OpName
        ensures { result ≡ name_of self.now }
    {
        match self {
            Op::ConsoleRead => OpName::ConsoleRead,
            Op::ConsoleWrite(_) => OpName::ConsoleWrite,
            Op::FolderRead(_) => OpName::FolderRead,
            Op::FolderHas(_) => OpName::FolderHas,
            Op::FolderWrite(_, _) => OpName::FolderWrite,
            Op::FolderAppend(_, _) => OpName::FolderAppend,
            Op::FolderNames => OpName::FolderNames,
            Op::ClockNow => OpName::ClockNow,
            Op::RandomWord => OpName::RandomWord,
            Op::FolderRemove(_) => OpName::FolderRemove,
        }
    }
}

impl OpName {
    /// The kind of device that has the operation. It takes no memory.
    pub fn kind(self) -> Kind
        ensures { result ≡ kind_named self }
    {
        match self {
            OpName::ConsoleRead => Kind::Console,
            OpName::ConsoleWrite => Kind::Console,
            OpName::FolderRead => Kind::Folder,
            OpName::FolderHas => Kind::Folder,
            OpName::FolderWrite => Kind::Folder,
            OpName::FolderAppend => Kind::Folder,
            OpName::FolderNames => Kind::Folder,
            OpName::ClockNow => Kind::Clock,
            OpName::RandomWord => Kind::Random,
            OpName::FolderRemove => Kind::Folder,
        }
    }

    /// The name of the method that asks for the operation, as `write`. It takes no memory.
    pub fn method(self) -> &'static str
        ensures { result.now ≡ method_text self }
    {
        match self {
            OpName::ConsoleRead => "read",
            OpName::ConsoleWrite => "write",
            OpName::FolderRead => "read",
            OpName::FolderHas => "has",
            OpName::FolderWrite => "write",
            OpName::FolderAppend => "append",
            OpName::FolderNames => "names",
            OpName::ClockNow => "now",
            OpName::RandomWord => "word",
            OpName::FolderRemove => "remove",
        }
    }

    /// The member of the grant's type that is the operation's effect, as `Out`. It takes no memory
    /// (docs/LANGUAGE.md, "Primitive types").
    pub fn member(self) -> &'static str
        ensures { result.now ≡ member_named self }
    {
        match self {
            OpName::ConsoleRead => "In",
            OpName::ConsoleWrite => "Out",
            OpName::FolderRead => "Read",
            OpName::FolderHas => "Read",
            OpName::FolderWrite => "Write",
            OpName::FolderAppend => "Append",
            OpName::FolderNames => "List",
            OpName::ClockNow => "Tick",
            OpName::RandomWord => "Draw",
            OpName::FolderRemove => "Remove",
        }
    }
}

impl Answer {
    /// The same answer.
    pub fn copy(&self) -> Result<Answer, Memory>
        ensures { IfOk result (λ answer. answer ≡ self.now) }
    {
        Ok(match self {
            Answer::Bytes(text) => Answer::Bytes(text.copy()?),
            Answer::Truth(truth) => Answer::Truth(*truth),
            Answer::Number(number) => Answer::Number(*number),
            Answer::Unit => Answer::Unit,
        })
    }
}
