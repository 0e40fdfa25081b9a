//! An image file as data. Its numbers are any numbers of four bytes: the rules of the verifier say what they may name.

use crate::typing::{Listed, Typing};
use wy_code::instruction::Operator;
use wy_device::primitive::Primitive;
use wy_text::list::Items;
use wy_text::text::Text;

/// A grant of the program: its name and its primitive type.
#[derive(Drop)]
pub struct Grant {
    pub name: Text,
    pub primitive: Primitive,
}

/// A value that an instruction pushes.
#[derive(Drop)]
pub enum Constant {
    Int(i64),
    Truth(bool),
    Unit,
    Text(Text),
    Grant(u32),
    Instance(u32),
}

/// An instruction. Slots, values, literals and addresses count from 0. `Call` has the number of a method name and that
/// of its arguments.
#[derive(Drop)]
pub enum Instruction {
    Push(Constant),
    Load(u32),
    Store(u32),
    Get(u32),
    Set(u32),
    Drop,
    Op(Operator),
    Jump(u32),
    JumpFalse(u32),
    New(u32),
    Call(u32, u32),
    Return,
    Finish,
}

/// An instruction, and the place that its trap prints. Files, lines and columns count from 1.
#[derive(Drop)]
pub struct Row {
    pub instruction: Instruction,
    pub file: u32,
    pub line: u32,
    pub column: u32,
}

/// A body: the numbers of its parameters and slots, and its instructions.
#[derive(Drop)]
pub struct Body {
    pub parameters: u32,
    pub slots: u32,
    pub rows: Items<Row>,
}

/// A method of an object: the number of its name, and its body.
#[derive(Clone, Copy)]
pub struct Entry {
    pub method: u32,
    pub body: u32,
}

/// Where `New` finds a value that an object captures.
#[derive(Clone, Copy)]
pub enum Capture {
    Slot(u32),
    /// A value of the current object.
    Value(u32),
}

/// An object literal: what its objects capture, the number of their fields, and their methods.
#[derive(Drop)]
pub struct Literal {
    pub captures: Items<Capture>,
    pub fields: u32,
    pub entries: Items<Entry>,
}

/// A module, or the program: the number of arguments of its instances, its `init` or `run` body, the number of its
/// fields, its methods, and its object literals.
#[derive(Drop)]
pub struct Scope {
    pub arguments: u32,
    pub first: u32,
    pub fields: u32,
    pub entries: Items<Entry>,
    pub literals: Items<Literal>,
}

/// An argument of an instance: the number of a grant or of an instance.
#[derive(Clone, Copy)]
pub enum Argument {
    Grant(u32),
    Instance(u32),
}

/// An instance: its name, its scope, its arguments, and what is stated of it.
#[derive(Drop)]
pub struct Instance {
    pub name: Text,
    pub scope: u32,
    pub arguments: Items<Argument>,
    pub typing: Typing,
}

/// The program: its scope, and what is stated of it.
#[derive(Drop)]
pub struct Main {
    pub scope: u32,
    pub typing: Typing,
}

/// An image file.
#[derive(Drop)]
pub struct ImageFile {
    /// The names of the program's files.
    pub files: Items<Text>,
    pub grants: Items<Grant>,
    /// The names of methods.
    pub methods: Items<Text>,
    /// The listed types.
    pub types: Items<Listed>,
    pub bodies: Items<Body>,
    pub scopes: Items<Scope>,
    pub instances: Items<Instance>,
    pub main: Main,
}
