//! Values and blocks of several parts.

ghost use Rattle.std.specs.Prelude.{◌≡◌, IfOk};
ghost use Rattle.wy_types.specs.Code as code;
ghost use Rattle.wy_types.specs.View.{expr_of, value_of, values_of, block_of};
ghost use Rattle.wy_bodies.specs.Bodies.{operand, operator_of};

use std::alloc::Global;
use wy_syntax::expressions::Operator;
use wy_text::fault::Place;
use wy_text::text::{Memory, Text};
use wy_types::code::{BinaryOperator, Block, Expr, TextOperator, Value};

/// What an operator stands for.
pub fn operator_of(operator: Operator) -> BinaryOperator
    ensures { result ≡ operator_of operator }
{
    match operator {
        Operator::Or => BinaryOperator::Or,
        Operator::And => BinaryOperator::And,
        Operator::Equal => BinaryOperator::Equal,
        Operator::NotEqual => BinaryOperator::NotEqual,
        Operator::Less => BinaryOperator::Less,
        Operator::LessEqual => BinaryOperator::LessOrEqual,
        Operator::Greater => BinaryOperator::Greater,
        Operator::GreaterEqual => BinaryOperator::GreaterOrEqual,
        Operator::Plus => BinaryOperator::Add,
        Operator::Minus => BinaryOperator::Subtract,
        Operator::Join => BinaryOperator::Join,
        Operator::Times => BinaryOperator::Multiply,
        Operator::Divide => BinaryOperator::Divide,
        Operator::Remainder => BinaryOperator::Remainder,
    }
}

/// A value as a receiver or an operand; no tokens spell one that is an `if`.
pub fn operand(value: Value) -> Expr
    ensures { expr_of result ≡ operand (value_of value) }
{
    match value {
        Value::Plain(expr) => expr,
        Value::If(place, _, _, _) => Expr::Unit(place),
    }
}

/// A text that is written out.
pub fn quoted(place: Place, text: &Text) -> Result<Value, Memory>
    ensures { IfOk result (λ v. value_of v ≡ code.Plain (code.Quoted place text.now)) }
{
    Ok(Value::Plain(Expr::Text(place, text.copy()?)))
}

/// An operation on texts.
pub fn text_call(place: Place, operator: TextOperator, values: Vec<Value>) -> Value
    ensures { value_of result ≡ code.Plain (code.TextCall place operator (values_of values.items)) }
{
    Value::Plain(Expr::TextCall(place, operator, values))
}

/// A call of a method.
pub fn call(place: Place, receiver: Box<Expr>, name: Text, values: Vec<Value>) -> Value
    ensures { value_of result ≡ code.Plain (code.Call place (expr_of receiver.value) name (values_of values.items)) }
{
    Value::Plain(Expr::Call(place, receiver, name, values))
}

/// An object of a literal.
pub fn object(place: Place, literal: u32, values: Vec<Value>) -> Value
    ensures { value_of result ≡ code.Plain (code.New place literal (values_of values.items)) }
{
    Value::Plain(Expr::New(place, literal, values))
}

/// An `if`.
pub fn choice(place: Place, test: Box<Expr>, first: Block, second: Block) -> Value
    ensures { value_of result ≡ code.If place (expr_of test.value) (block_of first) (block_of second) }
{
    Value::If(place, test, first, second)
}

/// A value in a box.
pub fn boxed(alloc: Global, value: Value) -> Result<Box<Value>, Memory>
    ensures { IfOk result (λ b. b.value ≡ value) }
{
    Ok(Box::new(alloc, value)?)
}

/// A value as a receiver or an operand, in a box.
pub fn boxed_operand(alloc: Global, value: Value) -> Result<Box<Expr>, Memory>
    ensures { IfOk result (λ b. expr_of b.value ≡ operand (value_of value)) }
{
    Ok(Box::new(alloc, operand(value))?)
}

/// A block of one value.
pub fn last(alloc: Global, value: Value) -> Result<Block, Memory>
    ensures { IfOk result (λ b. block_of b ≡ code.Last (value_of value)) }
{
    let last = boxed(alloc, value)?;
    Ok(Block {
        statements: Vec::new(alloc),
        last,
    })
}
