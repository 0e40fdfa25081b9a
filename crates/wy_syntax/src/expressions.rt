use crate::types::{Name, TypeUse};
use wy_text::fault::Place;
use wy_text::text::Text;

/// The operators that stand between two operands, from the loosest level to the tightest
/// (docs/LANGUAGE.md, "Grammar").
#[derive(Clone, Copy, PartialEq, Eq)]
pub enum Operator {
    Or,
    And,
    Equal,
    NotEqual,
    Less,
    LessEqual,
    Greater,
    GreaterEqual,
    Plus,
    Minus,
    Join,
    Times,
    Divide,
    Remainder,
}

/// An expression. Each has its mark (docs/LANGUAGE.md, "Marks"): the place of an operator's symbol, of
/// a call's method name (which is the `Name`'s), and of the first token of every other form.
/// Parentheses without a type are no form of their own.
#[derive(Drop)]
pub enum Expr {
    /// A number, with its sign: `-` directly before a number belongs to it.
    Number(i64, Place),
    Text(Text, Place),
    True(Place),
    False(Place),
    This(Place),
    Name(Name),
    /// `()`.
    Unit(Place),
    /// `-` before an expression.
    Negate(Box<Expr>, Place),
    /// `!` before an expression.
    Not(Box<Expr>, Place),
    Binary(Operator, Box<Expr>, Box<Expr>, Place),
    /// The receiver, the method's name and the arguments.
    Call(Box<Expr>, Name, Vec<Expr>),
    TextSize(Box<Expr>, Place),
    TextPart(Box<Expr>, Box<Expr>, Box<Expr>, Place),
    TextCode(Box<Expr>, Box<Expr>, Place),
    TextByte(Box<Expr>, Place),
    TextShow(Box<Expr>, Place),
    /// `(e : T)`.
    Ascribe(Box<Expr>, TypeUse, Place),
    /// `if c then a else b`, the one form that stands only where an argument may.
    Choice(Box<Expr>, Box<Expr>, Box<Expr>, Place),
}
