//! The names of the methods of grants.

ghost use Rattle.std.specs.Prelude.{◌≡◌, ◌+◌, ◌++◌, ◌∷◌, [], List, ℕ, IfOk, OnOk, map};
ghost use Rattle.wy_code.specs.EachOnce.{is_among};
ghost use Rattle.wy_device.specs.Operation.{method_text};
ghost use Rattle.wy_device.specs.Primitives.{operations_of};
ghost use Rattle.wy_device.specs.Requests as requests;
ghost use Rattle.wy_verified.specs.CodeOf.{primitive_methods, without};
ghost use Rattle.wy_verify.specs.Judging.{operation_numbers};

use crate::tables::{item_at, word};
use std::alloc::Global;
use wy_device::operation::OpName;
use wy_device::primitive::Primitive;
use wy_text::list::Items;
use wy_text::text::{Memory, Text, from_bytes};

/// Returns whether a name is among others.
fn is_among(name: &[u8], names: &[Text]) -> bool
    ensures { result ≡ is_among name.now names.now }
{
    for text in names {
        if text.as_bytes() == name {
            return true;
        }
    }
    false
}

/// Adds the name of an operation's method, unless it is among others.
fn add_lacking(
    more: &mut Items<Text>,
    alloc: Global,
    names: &[Text],
    operation: OpName,
) -> Result<(), Memory>
    ensures { OnOk result (more.new ≡ more.old ++ without names.now (map method_text (operation ∷ []))) }
{
    let name = operation.method().as_bytes();
    if !is_among(name, names) {
        more.push(from_bytes(alloc, name)?)?;
    }
    Ok(())
}

/// Returns the names of operations' methods that are not among others.
fn lacking_of(alloc: Global, names: &[Text], operations: &[OpName]) -> Result<Items<Text>, Memory>
    ensures { IfOk result (λ t. t ≡ without names.now (map method_text operations.now)) }
{
    let mut more = Items::new(alloc);
    for operation in operations {
        add_lacking(&mut more, alloc, names, *operation)?;
    }
    Ok(more)
}

/// Returns the names of the methods of primitive types that are not among others.
pub(crate) fn lacking(alloc: Global, names: &Items<Text>) -> Result<Items<Text>, Memory>
    ensures { IfOk result (λ t. t ≡ without names.now primitive_methods) }
{
    lacking_of(
        alloc,
        names.as_slice(),
        &[
            OpName::ConsoleRead,
            OpName::ConsoleWrite,
            OpName::FolderHas,
            OpName::FolderAppend,
            OpName::FolderNames,
            OpName::ClockNow,
            OpName::RandomWord,
            OpName::FolderRemove,
        ],
    )
}

/// Returns whether a name is that of a method of one of the operations.
fn names_one(name: &[u8], operations: &[OpName]) -> bool
    ensures { result ≡ is_among name.now (map method_text operations.now) }
{
    for operation in operations {
        if operation.method().as_bytes() == name {
            return true;
        }
    }
    false
}

/// Returns whether a name is that of a method of a primitive type.
fn is_primitive(name: &[u8]) -> bool
    ensures { result ≡ is_among name.now primitive_methods }
{
    names_one(
        name,
        &[
            OpName::ConsoleRead,
            OpName::ConsoleWrite,
            OpName::FolderHas,
            OpName::FolderAppend,
            OpName::FolderNames,
            OpName::ClockNow,
            OpName::RandomWord,
            OpName::FolderRemove,
        ],
    )
}

/// Returns the number of the name at a place, where the first name has this number.
fn number_behind(first: usize, at: usize) -> Result<u32, Memory>
    ensures { IfOk result (λ n. n ≡ first + at) }
{
    match first.checked_add(at) {
        Some(number) => word(number),
        None => Err(Memory),
    }
}

/// Adds the number of a name, if it is that of a method of a primitive type.
fn add_number(granted: &mut Items<u32>, number: u32, name: &Text) -> Result<(), Memory>
    ensures { OnOk result (granted.new ≡ granted.old ++ operation_numbers number (name.now ∷ [])) }
{
    if is_primitive(name.as_bytes()) {
        granted.push(number)?;
    }
    Ok(())
}

/// Adds the numbers of names of methods of primitive types, where the first name has this number.
pub(crate) fn add_numbers(
    granted: &mut Items<u32>,
    first: usize,
    names: &Items<Text>,
) -> Result<(), Memory>
    ensures { OnOk result (granted.new ≡ granted.old ++ operation_numbers first names.now) }
{
    for at in 0..names.len() {
        add_number(granted, number_behind(first, at)?, item_at(names, at))?;
    }
    Ok(())
}

/// Returns the first operation that a method requests; `None` if there is none.
fn first_called(method: &[u8], operations: &[OpName]) -> Option<OpName>
    ensures { result ≡ requests.operation_called method.now operations.now }
{
    for operation in operations {
        if operation.method().as_bytes() == method {
            return Some(*operation);
        }
    }
    None
}

/// Returns the operation that a method of a primitive type requests; `None` if there is none. Takes no memory.
pub(crate) fn operation_called(primitive: Primitive, method: &[u8]) -> Option<OpName>
    ensures { result ≡ requests.operation_called method.now (operations_of primitive) }
{
    match primitive {
        Primitive::Console => first_called(method, &[OpName::ConsoleRead, OpName::ConsoleWrite]),
        Primitive::Folder => first_called(
            method,
            &[
                OpName::FolderRead,
                OpName::FolderHas,
                OpName::FolderWrite,
                OpName::FolderAppend,
                OpName::FolderNames,
            ],
        ),
        Primitive::Clock => first_called(method, &[OpName::ClockNow]),
        Primitive::Random => first_called(method, &[OpName::RandomWord]),
        Primitive::FullFolder => first_called(
            method,
            &[
                OpName::FolderRead,
                OpName::FolderHas,
                OpName::FolderWrite,
                OpName::FolderAppend,
                OpName::FolderNames,
                OpName::FolderRemove,
            ],
        ),
    }
}
