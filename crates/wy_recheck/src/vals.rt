//! How many `val`s a scope has, counted down from a number so that no sum can be too large.

ghost use Rattle.std.specs.Prelude.{◌≡◌, ◌∷◌, [], ℕ, length, map, nat_eq};
ghost use Rattle.wy_types.specs.View.{expr_of, value_of, values_of, block_of};
ghost use Rattle.wy_types.specs.Program.{body_of, scope_of, start_of};
ghost use Rattle.wy_types.specs.Vals.{expr_vals, value_vals, values_vals, block_vals, start_vals, bodies_vals, scope_vals};
ghost use Rattle.wy_recheck.specs.Vals.{IsTaken, statement_vals};

use wy_types::code::{Block, Expr, Stmt, Value};
use wy_types::resolved::{Body, Scope, Start};

/// What is left of a number once one is taken from it; none of 0.
fn take_one(number: usize) -> Option<usize>
    ensures { (val : ℕ) → IsTaken number (val ∷ []) result }
{
    if number == 0 {
        return None;
    }
    Some(number - 1)
}

/// What is left of a number once an expression's `val`s are taken from it; none where there are more of them.
#[cycle(vals)]
fn take_expr(number: usize, expr: &Expr) -> Option<usize>
    ensures { IsTaken number (expr_vals (expr_of expr.now)) result }
{
    match expr {
        Expr::Int(_, _)
        | Expr::Text(_, _)
        | Expr::Bool(_, _)
        | Expr::Unit(_)
        | Expr::This(_)
        | Expr::Name(_, _) => Some(number),
        Expr::Unary(_place, _operator, operand) => take_expr(number, operand),
        Expr::Binary(_place, _operator, left, right) => {
            let rest = take_expr(number, left)?;
            take_expr(rest, right)
        }
        Expr::TextCall(_place, _operator, values) => take_values(number, values),
        Expr::Call(_place, receiver, _method, values) => {
            let rest = take_expr(number, receiver)?;
            take_values(rest, values)
        }
        Expr::New(_place, _literal, values) => take_values(number, values),
        Expr::Ascribe(_place, value, _typ) => take_value(number, value),
        Expr::Assign(_place, _name, value) => take_value(number, value),
    }
}

/// .. a value's.
#[cycle(vals)]
fn take_value(number: usize, value: &Value) -> Option<usize>
    ensures { IsTaken number (value_vals (value_of value.now)) result }
{
    match value {
        Value::Plain(expr) => take_expr(number, expr),
        Value::If(_place, test, first, second) => {
            let rest = take_expr(number, test)?;
            let rest = take_block(rest, first)?;
            take_block(rest, second)
        }
    }
}

/// .. several values'.
#[cycle(vals)]
fn take_values(number: usize, values: &Vec<Value>) -> Option<usize>
    ensures { IsTaken number (values_vals (values_of values.now.items)) result }
{
    let mut rest = number;
    for i in 0..values.len() {
        rest = take_value(rest, &values[i])?;
    }
    Some(rest)
}

/// .. a block's.
#[cycle(vals)]
fn take_block(number: usize, block: &Block) -> Option<usize>
    ensures { IsTaken number (block_vals (block_of block.now)) result }
{
    let mut rest = number;
    for i in 0..block.statements.len() {
        rest = take_statement(rest, &block.statements[i])?;
    }
    take_value(rest, &block.last)
}

/// .. a statement's.
#[cycle(vals)]
fn take_statement(number: usize, statement: &Stmt) -> Option<usize>
    ensures { IsTaken number (statement_vals statement.now) result }
{
    match statement {
        Stmt::Val(_place, _number, _typ, value) => {
            let rest = take_one(number)?;
            take_value(rest, value)
        }
        Stmt::Do(value) => take_value(number, value),
    }
}

/// .. those of what a scope starts with.
fn take_start(number: usize, start: &Start) -> Option<usize>
    ensures { IsTaken number (start_vals (start_of start.now)) result }
{
    match start {
        Start::Init(values) => take_values(number, values),
        Start::Run(block) => take_block(number, block),
    }
}

/// .. those of bodies.
fn take_bodies(number: usize, bodies: &[Body]) -> Option<usize>
    ensures { IsTaken number (bodies_vals (map body_of bodies.now)) result }
{
    let mut rest = number;
    for body in bodies {
        rest = take_block(rest, &body.block)?;
    }
    Some(rest)
}

/// .. those of a scope.
fn take_all(number: usize, scope: &Scope) -> Option<usize>
    ensures { IsTaken number (scope_vals (scope_of scope.now)) result }
{
    let rest = take_start(number, &scope.start)?;
    take_bodies(rest, scope.bodies.as_slice())
}

/// Whether a scope has so many `val`s.
pub fn has_vals(scope: &Scope, number: usize) -> bool
    ensures { result ≡ nat_eq number (length (scope_vals (scope_of scope.now))) }
{
    match take_all(number, scope) {
        None => false,
        Some(left) => left == 0,
    }
}
