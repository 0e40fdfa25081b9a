use crate::expressions::Expr;
use crate::types::{Name, Signature, TypeUse};
use wy_text::fault::Place;

/// Whether a field is fixed once it is set, by the word that begins it.
#[derive(Clone, Copy, PartialEq, Eq)]
pub enum FieldKind {
    Val,
    Var,
}

/// What stands behind an equals sign, or alone as a statement.
#[derive(Drop)]
#[cycle(statements)]
pub enum Rhs {
    /// `new` with its fields and methods; the place is that of `new`.
    New(Place, Vec<Part>),
    /// `if` with a block on each side; the place is that of `if`.
    Branch(Place, Expr, Vec<Stmt>, Vec<Stmt>),
    /// An expression, which may be a choice.
    Value(Expr),
}

/// A statement. The mark of a `val` and of an assignment is its name's place.
#[derive(Drop)]
#[cycle(statements)]
pub enum Stmt {
    Val(Name, Option<TypeUse>, Rhs),
    Assign(Name, Rhs),
    Run(Rhs),
}

/// A field or a method, of a module or of a literal.
#[derive(Drop)]
#[cycle(statements)]
pub enum Part {
    Field(FieldKind, Name, TypeUse, Rhs),
    Method(Signature, Tail),
}

/// A body: behind an equals sign in the same line, or a block of its own.
#[derive(Drop)]
#[cycle(statements)]
pub enum Tail {
    Short(Rhs),
    Long(Vec<Stmt>),
}
