//! The operation that a method of a grant asks for, and which are refused before memory is taken for them.

ghost use Rattle.std.specs.Prelude.{◌≡◌, ◌≢◌, ◌∷◌, [], length, IfOk, MatchOption, Some, None};
ghost use Rattle.wy_code.specs.Operations.{texts_named};
ghost use Rattle.wy_device.specs.Primitives.{operations_of};
ghost use Rattle.wy_device.specs.Requests as requests;
ghost use Rattle.wy_device.specs.Tapes.{Tapes};
ghost use Rattle.wy_machine.specs.Requesting.{first_text, names_file, is_well_named, is_answered_by_text, refused};
ghost use Rattle.wy_machine.specs.States.{store_of};

use crate::building::MOST_TEXTS;
use crate::run_end::TrapKind;
use crate::store::Store;
use crate::texts::text_named;
use crate::word::Word;
use wy_code::code::Code;
use wy_device::file_name::is_file_name;
use wy_device::operation::{Op, OpName};
use wy_device::primitive::Primitive;
use wy_text::text::{Memory, Text};

/// Whether the first of these words names a text that is a file's name.
fn names_file(code: &Code, store: &Store, words: &[Word]) -> bool
    ensures { (tapes : Tapes) → result ≡ names_file (first_text (store_of code.now store.now tapes) words.now) }
{
    match words {
        [first, ..] => match text_named(code, store, *first) {
            Some(text) => is_file_name(text.as_bytes()),
            None => false,
        },
        [] => false,
    }
}

/// Whether an operation of this name is answered by a text.
pub fn answers_text(operation: OpName) -> bool
    ensures { result ≡ is_answered_by_text operation }
{
    match operation {
        OpName::ConsoleRead | OpName::FolderRead | OpName::FolderNames => true,
        OpName::ConsoleWrite
        | OpName::FolderHas
        | OpName::FolderWrite
        | OpName::FolderAppend
        | OpName::ClockNow
        | OpName::RandomWord
        | OpName::FolderRemove => false,
    }
}

/// Whether the first text that an operation is given is a file's name, where it takes one.
fn is_well_named(code: &Code, store: &Store, operation: OpName, arguments: &[Word]) -> bool
    ensures { (tapes : Tapes) → result ≡ is_well_named operation (first_text (store_of code.now store.now tapes) arguments.now) }
{
    match operation {
        OpName::FolderRead
        | OpName::FolderHas
        | OpName::FolderWrite
        | OpName::FolderAppend
        | OpName::FolderRemove => names_file(code, store, arguments),
        OpName::ConsoleRead
        | OpName::ConsoleWrite
        | OpName::FolderNames
        | OpName::ClockNow
        | OpName::RandomWord => true,
    }
}

/// Why an operation is refused before memory is taken for it: its first text is no file's name, or one text too many
/// would be built. `None` exactly where it is not.
pub fn refusal(
    code: &Code,
    store: &Store,
    operation: OpName,
    arguments: &[Word],
) -> Option<TrapKind>
    ensures { (tapes : Tapes) → result ≡ refused operation (first_text (store_of code.now store.now tapes) arguments.now) (length store.now.texts) }
{
    if !is_well_named(code, store, operation, arguments) {
        return Some(TrapKind::BadName);
    }
    if answers_text(operation) && store.built() >= MOST_TEXTS {
        return Some(TrapKind::Crowded);
    }
    None
}

/// The first operation that a method asks for; `None` exactly where there is none.
fn first_called(method: &[u8], names: &[OpName]) -> Option<OpName>
    ensures { result ≡ requests.operation_called method.now names.now }
{
    for name in names {
        if name.method().as_bytes() == method {
            return Some(*name);
        }
    }
    None
}

/// The operation that a method of a primitive type asks for; `None` exactly where there is none.
pub fn operation_called(primitive: Primitive, method: &[u8]) -> Option<OpName>
    ensures { result ≡ requests.operation_called method.now (operations_of primitive) }
{
    match primitive {
        Primitive::Console => first_called(method, &[OpName::ConsoleRead, OpName::ConsoleWrite]),
        Primitive::Folder => first_called(
            method,
            &[
                OpName::FolderRead,
                OpName::FolderHas,
                OpName::FolderWrite,
                OpName::FolderAppend,
                OpName::FolderNames,
            ],
        ),
        Primitive::Clock => first_called(method, &[OpName::ClockNow]),
        Primitive::Random => first_called(method, &[OpName::RandomWord]),
        Primitive::FullFolder => first_called(
            method,
            &[
                OpName::FolderRead,
                OpName::FolderHas,
                OpName::FolderWrite,
                OpName::FolderAppend,
                OpName::FolderNames,
                OpName::FolderRemove,
            ],
        ),
    }
}

/// The texts that words name; `None` exactly where one names none.
pub fn texts_of(code: &Code, store: &Store, words: &[Word]) -> Result<Option<Vec<Text>>, Memory>
    ensures { IfOk result (λ texts. (tapes : Tapes) →
        MatchOption texts (texts_named (store_of code.now store.now tapes) words.now ≡ None) (λ found. texts_named (store_of code.now store.now tapes) words.now ≡ Some found.items)) }
{
    let mut texts = Vec::new(store.alloc());
    for word in words {
        match text_named(code, store, *word) {
            Some(text) => texts.push(text.copy()?)?,
            None => return Ok(None),
        }
    }
    Ok(Some(texts))
}

fn one(texts: Vec<Text>) -> Option<Text>
    ensures { MatchOption result (length texts.items ≢ 1) (λ text. texts.items ≡ text ∷ []) }
{
    let mut texts = texts;
    if texts.len() == 1 { texts.pop() } else { None }
}

fn two(texts: Vec<Text>) -> Option<(Text, Text)>
    ensures { MatchOption result (length texts.items ≢ 2) (λ pair. texts.items ≡ pair.0 ∷ pair.1 ∷ []) }
{
    let mut texts = texts;
    if texts.len() != 2 {
        return None;
    }
    match texts.pop() {
        Some(second) => match texts.pop() {
            Some(first) => Some((first, second)),
            None => None,
        },
        None => None,
    }
}

/// The operation with these texts as its arguments, where it takes as many.
pub fn operation_on(name: OpName, texts: Vec<Text>) -> Option<Op>
    ensures { result ≡ requests.operation_on name texts.items }
{
    match name {
        OpName::ConsoleRead => if texts.is_empty() {
            Some(Op::ConsoleRead)
        } else {
            None
        },
        OpName::FolderNames => if texts.is_empty() {
            Some(Op::FolderNames)
        } else {
            None
        },
        OpName::ClockNow => if texts.is_empty() {
            Some(Op::ClockNow)
        } else {
            None
        },
        OpName::RandomWord => if texts.is_empty() {
            Some(Op::RandomWord)
        } else {
            None
        },
        OpName::ConsoleWrite => match one(texts) {
            Some(text) => Some(Op::ConsoleWrite(text)),
            None => None,
        },
        OpName::FolderRead => match one(texts) {
            Some(file) => Some(Op::FolderRead(file)),
            None => None,
        },
        OpName::FolderHas => match one(texts) {
            Some(file) => Some(Op::FolderHas(file)),
            None => None,
        },
        OpName::FolderRemove => match one(texts) {
            Some(file) => Some(Op::FolderRemove(file)),
            None => None,
        },
        OpName::FolderWrite => match two(texts) {
            Some((file, text)) => Some(Op::FolderWrite(file, text)),
            None => None,
        },
        OpName::FolderAppend => match two(texts) {
            Some((file, text)) => Some(Op::FolderAppend(file, text)),
            None => None,
        },
    }
}
