//! How many operands a body has at once, at most (docs/LANGUAGE.md, "Code of programs").

ghost use Rattle.std.specs.Prelude.{◌≡◌, ℕ, max};
ghost use Rattle.wy_types.specs.View.{expr_of, value_of, values_of, block_of};
ghost use Rattle.wy_lower.specs.Capped.{capped};
ghost use Rattle.wy_lower.specs.Operands.{two_operands, operands, value_operands, values_operands, block_operands, fields_operands};
ghost use Rattle.wy_lower.specs.Emits.{statement_operands};

use crate::indexes::sum;
use wy_types::code::{BinaryOperator, Block, Expr, Stmt, Value};

/// The greater of two numbers.
fn greater(first: usize, second: usize) -> usize
    ensures { result ≡ max first second }
{
    if first < second { second } else { first }
}

/// The operands of a binary operator whose sides have so many.
fn two_operands(operator: BinaryOperator, first: usize, second: usize) -> usize
    ensures { (n m : ℕ) → first ≡ capped n → second ≡ capped m → result ≡ capped (two_operands operator n m) }
{
    match operator {
        BinaryOperator::And | BinaryOperator::Or => greater(first, second),
        _ => greater(first, sum(1, second)),
    }
}

/// The operands of an expression.
#[cycle(operands)]
fn operands(expr: &Expr) -> usize
    ensures { result ≡ capped (operands (expr_of expr.now)) }
{
    match expr {
        Expr::Int(_, _) => 1,
        Expr::Text(_, _) => 1,
        Expr::Bool(_, _) => 1,
        Expr::Unit(_) => 1,
        Expr::This(_) => 1,
        Expr::Name(_, _) => 1,
        Expr::Unary(_, _, x) => operands(x),
        Expr::Binary(_, operator, x, y) => {
            let first = operands(x);
            let second = operands(y);
            two_operands(*operator, first, second)
        }
        Expr::TextCall(_, _, values) => values_operands(values),
        Expr::Call(_, receiver, _, values) => {
            let first = operands(receiver);
            let others = values_operands(values);
            greater(first, sum(1, others))
        }
        Expr::New(_, _, values) => {
            let initial = values_operands(values);
            greater(1, initial)
        }
        Expr::Ascribe(_, value, _) => value_operands(value),
        Expr::Assign(_, _, value) => value_operands(value),
    }
}

/// The operands of a value.
#[cycle(operands)]
fn value_operands(value: &Value) -> usize
    ensures { result ≡ capped (value_operands (value_of value.now)) }
{
    match value {
        Value::Plain(expr) => operands(expr),
        Value::If(_, test, first, second) => {
            let tested = operands(test);
            let first = block_operands(first);
            let second = block_operands(second);
            greater(tested, greater(first, second))
        }
    }
}

/// The operands of several values, of which each has those before it below it.
#[cycle(operands)]
fn values_operands(values: &Vec<Value>) -> usize
    ensures { result ≡ capped (values_operands (values_of values.now.items)) }
{
    let mut most = 0;
    for i in 0..values.len() {
        let below = sum(i, value_operands(&values[i]));
        most = greater(most, below);
    }
    greater(most, values.len())
}

/// The operands of a block.
#[cycle(operands)]
pub(crate) fn block_operands(block: &Block) -> usize
    ensures { result ≡ capped (block_operands (block_of block.now)) }
{
    let mut most = 0;
    for i in 0..block.statements.len() {
        let here = statement_operands(&block.statements[i]);
        most = greater(most, here);
    }
    greater(most, value_operands(&block.last))
}

/// The operands of a statement.
#[cycle(operands)]
fn statement_operands(statement: &Stmt) -> usize
    ensures { result ≡ capped (statement_operands statement.now) }
{
    match statement {
        Stmt::Val(_, _, _, value) => value_operands(value),
        Stmt::Do(value) => value_operands(value),
    }
}

/// The operands of the initialisers of fields, which are set one after the other.
pub(crate) fn fields_operands(values: &Vec<Value>) -> usize
    ensures { result ≡ capped (fields_operands (values_of values.now.items)) }
{
    let mut most = 0;
    for i in 0..values.len() {
        let here = value_operands(&values[i]);
        most = greater(most, here);
    }
    most
}
