//! The types that are written in a scope.

ghost use Rattle.std.specs.Prelude.{◌≡◌, ◌++◌, ◌∷◌, [], OnOk};
ghost use Rattle.wy_types.specs.View.{expr_of, value_of, values_of, block_of, stmts_block};
ghost use Rattle.wy_types.specs.Written.{expr_types, value_types, values_types, block_types, written_types, stmt_types};

use crate::code::{Block, Expr, Stmt, Value};
use crate::types::{TypeList, TypeRef};
use std::alloc::Global;
use wy_text::text::Memory;

/// Adds the types written in an expression.
#[cycle(written)]
pub fn add_expr(alloc: Global, out: &mut TypeList, expr: &Expr) -> Result<(), Memory>
    ensures { OnOk result (out.new ≡ out.old ++ expr_types (expr_of expr.now)) }
{
    match expr {
        Expr::Int(_, _)
        | Expr::Text(_, _)
        | Expr::Bool(_, _)
        | Expr::Unit(_)
        | Expr::This(_)
        | Expr::Name(_, _) => Ok(()),
        Expr::Unary(_place, _operator, operand) => add_expr(alloc, out, operand),
        Expr::Binary(_place, _operator, left, right) => {
            add_expr(alloc, out, left)?;
            add_expr(alloc, out, right)
        }
        Expr::TextCall(_place, _operator, values) => add_values(alloc, out, values),
        Expr::Call(_place, receiver, _method, values) => {
            add_expr(alloc, out, receiver)?;
            add_values(alloc, out, values)
        }
        Expr::New(_place, _literal, values) => add_values(alloc, out, values),
        Expr::Ascribe(_place, value, t) => {
            add_value(alloc, out, value)?;
            add_copy(alloc, out, t)
        }
        Expr::Assign(_place, _name, value) => add_value(alloc, out, value),
    }
}

/// Adds the types written in a value.
#[cycle(written)]
pub fn add_value(alloc: Global, out: &mut TypeList, value: &Value) -> Result<(), Memory>
    ensures { OnOk result (out.new ≡ out.old ++ value_types (value_of value.now)) }
{
    match value {
        Value::Plain(expr) => add_expr(alloc, out, expr),
        Value::If(_place, test, first, second) => {
            add_expr(alloc, out, test)?;
            add_block(alloc, out, first)?;
            add_block(alloc, out, second)
        }
    }
}

/// Adds the types written in values.
#[cycle(written)]
pub fn add_values(alloc: Global, out: &mut TypeList, values: &Vec<Value>) -> Result<(), Memory>
    ensures { OnOk result (out.new ≡ out.old ++ values_types (values_of values.now.items)) }
{
    for value in values {
        add_value(alloc, out, value)?;
    }
    Ok(())
}

/// Adds the types written in a block.
#[cycle(written)]
pub fn add_block(alloc: Global, out: &mut TypeList, block: &Block) -> Result<(), Memory>
    ensures { OnOk result (out.new ≡ out.old ++ block_types (block_of block.now)) }
{
    for statement in &block.statements {
        add_statement(alloc, out, statement)?;
    }
    add_value(alloc, out, &block.last)
}

/// Adds the types written in a statement.
#[cycle(written)]
fn add_statement(alloc: Global, out: &mut TypeList, statement: &Stmt) -> Result<(), Memory>
    ensures { OnOk result (out.new ≡ out.old ++ stmt_types statement.now) }
{
    match statement {
        Stmt::Val(_place, _number, typ, value) => {
            add_written(alloc, out, typ)?;
            add_value(alloc, out, value)
        }
        Stmt::Do(value) => add_value(alloc, out, value),
    }
}

/// Adds the type that a `val` is written with.
fn add_written(alloc: Global, out: &mut TypeList, typ: &Option<TypeRef>) -> Result<(), Memory>
    ensures { OnOk result (out.new ≡ out.old ++ written_types typ.now) }
{
    match typ {
        Some(t) => add_copy(alloc, out, t),
        None => Ok(()),
    }
}

/// Adds a type.
pub(crate) fn add_copy(alloc: Global, out: &mut TypeList, t: &TypeRef) -> Result<(), Memory>
    ensures { OnOk result (out.new ≡ out.old ++ t.now ∷ []) }
{
    out.push(t.copy(alloc)?)
}
