use crate::types::TypeRef;
use wy_text::fault::Place;
use wy_text::text::Text;

/// A variable of a scope's bodies. Variables have their numbers in the scope as a whole, so one
/// that an object literal captures keeps its number inside the literal.
#[derive(Clone, Copy, PartialEq, Eq)]
pub enum Variable {
    /// A parameter of the scope's body of this number.
    Parameter { body: u32, index: u16 },
    /// The `val` of this number, counted from 0 by their order in the scope.
    Local(u32),
}

/// What a name stands for.
#[derive(Clone, Copy, PartialEq, Eq)]
pub enum Binding {
    Variable(Variable),
    /// A field of the current object, by its number there.
    Field(u16),
    /// One of the scope's own names, by its number: a parameter or grant, a used module, a line.
    Own(u32),
}

/// The operators of one operand.
#[derive(Clone, Copy, PartialEq, Eq)]
pub enum UnaryOperator {
    Negate,
    Not,
}

/// The operators of two operands.
#[derive(Clone, Copy, PartialEq, Eq)]
pub enum BinaryOperator {
    Add,
    Subtract,
    Multiply,
    Divide,
    Remainder,
    Join,
    Less,
    LessOrEqual,
    Greater,
    GreaterOrEqual,
    Equal,
    NotEqual,
    And,
    Or,
}

/// The operations on texts that are written as calls.
#[derive(Clone, Copy, PartialEq, Eq)]
pub enum TextOperator {
    Size,
    Part,
    Code,
    Byte,
    Show,
}

/// An expression that is no `if`. Each form has its mark, the place that faults and traps name
/// (docs/LANGUAGE.md, "Marks").
#[derive(Drop)]
#[cycle(code)]
pub enum Expr {
    Int(Place, i64),
    Text(Place, Text),
    Bool(Place, bool),
    Unit(Place),
    This(Place),
    Name(Place, Binding),
    Unary(Place, UnaryOperator, Box<Expr>),
    Binary(Place, BinaryOperator, Box<Expr>, Box<Expr>),
    TextCall(Place, TextOperator, Vec<Value>),
    /// A call of the method of this name, on a receiver.
    Call(Place, Box<Expr>, Text, Vec<Value>),
    /// An object of the scope's literal of this number, with the initialisers of its fields.
    New(Place, u32, Vec<Value>),
    Ascribe(Place, Box<Value>, TypeRef),
    Assign(Place, Binding, Box<Value>),
}

/// An expression, or an `if`, which is judged at the type that its place expects.
#[derive(Drop)]
#[cycle(code)]
pub enum Value {
    Plain(Expr),
    If(Place, Box<Expr>, Block, Block),
}

/// A statement of a block, but for its last one.
#[derive(Drop)]
#[cycle(code)]
pub enum Stmt {
    /// The `val` of this number among those of the scope, with its type where one is written.
    Val(Place, u32, Option<TypeRef>, Value),
    Do(Value),
}

/// Statements, the last of which is no `val`.
#[derive(Drop)]
#[cycle(code)]
pub struct Block {
    pub statements: Vec<Stmt>,
    pub last: Box<Value>,
}
