//! The instructions of expressions and blocks: the parts in evaluation order, and then the form's own (docs/LANGUAGE.md,
//! "Code of programs"). Jumps over a side are written when the side stands.

ghost use Rattle.std.specs.Prelude.{◌≡◌, ◌+◌, ◌++◌, ◌∷◌, length, slice_set};
ghost use Rattle.wy_types.specs.View.{expr_of, value_of, values_of, block_of};
ghost use Rattle.wy_code.specs.declared.instruction.Constant.TheVariants as constant;
ghost use Rattle.wy_code.specs.declared.instruction.Instruction.TheVariants.{Push, Set, Jump, JumpFalse, Call};
ghost use Rattle.wy_lower.specs.Inside.{name_code, assigned_value};
ghost use Rattle.wy_lower.specs.Parts.{number_in};
ghost use Rattle.wy_lower.specs.Listing.{placed, one, unary_code, text_code, mark_of, value_mark, listing, value_listing, values_listing, block_listing, fields_listing};
ghost use Rattle.wy_lower.specs.Emits.{inside_of, Becomes, Emits, statement_listing, evaluation, right_listing};

use crate::indexes::place_in;
use crate::instructions::{Instructions, put};
use crate::names::{Inside, assigned_value, field_value, name_code, val_slot};
use wy_code::instruction::{Constant, Instruction, Operator};
use wy_text::fault::Place;
use wy_text::text::Text;
use wy_types::code::{
    BinaryOperator, Binding, Block, Expr, Stmt, TextOperator, UnaryOperator, Value,
};

// ----------------------------------------------------------------------------
// Operators

fn unary_code(operator: UnaryOperator) -> Operator
    ensures { result ≡ unary_code operator }
{
    match operator {
        UnaryOperator::Negate => Operator::Negate,
        UnaryOperator::Not => Operator::Not,
    }
}

fn text_code(operator: TextOperator) -> Operator
    ensures { result ≡ text_code operator }
{
    match operator {
        TextOperator::Size => Operator::Size,
        TextOperator::Part => Operator::Part,
        TextOperator::Code => Operator::Code,
        TextOperator::Byte => Operator::Byte,
        TextOperator::Show => Operator::Show,
    }
}

/// How the sides of a binary operator are evaluated.
enum Sides {
    /// Both, and then this operator.
    Both(Operator),
    /// The right one only where the left one is true.
    And,
    /// The right one only where the left one is false.
    Or,
}

fn evaluation(operator: BinaryOperator) -> Sides
    ensures { result ≡ evaluation operator }
{
    match operator {
        BinaryOperator::And => Sides::And,
        BinaryOperator::Or => Sides::Or,
        BinaryOperator::Add => Sides::Both(Operator::Add),
        BinaryOperator::Subtract => Sides::Both(Operator::Subtract),
        BinaryOperator::Multiply => Sides::Both(Operator::Multiply),
        BinaryOperator::Divide => Sides::Both(Operator::Divide),
        BinaryOperator::Remainder => Sides::Both(Operator::Remainder),
        BinaryOperator::Join => Sides::Both(Operator::Join),
        BinaryOperator::Less => Sides::Both(Operator::Less),
        BinaryOperator::LessOrEqual => Sides::Both(Operator::LessOrEqual),
        BinaryOperator::Greater => Sides::Both(Operator::Greater),
        BinaryOperator::GreaterOrEqual => Sides::Both(Operator::GreaterOrEqual),
        BinaryOperator::Equal => Sides::Both(Operator::Equal),
        BinaryOperator::NotEqual => Sides::Both(Operator::NotEqual),
    }
}

// ----------------------------------------------------------------------------
// Marks

/// The mark of an expression.
fn mark_of(expr: &Expr) -> Place
    ensures { result ≡ mark_of (expr_of expr.now) }
{
    match expr {
        Expr::Int(place, _) => *place,
        Expr::Text(place, _) => *place,
        Expr::Bool(place, _) => *place,
        Expr::Unit(place) => *place,
        Expr::This(place) => *place,
        Expr::Name(place, _) => *place,
        Expr::Unary(place, _, _) => *place,
        Expr::Binary(place, _, _, _) => *place,
        Expr::TextCall(place, _, _) => *place,
        Expr::Call(place, _, _, _) => *place,
        Expr::New(place, _, _) => *place,
        Expr::Ascribe(place, _, _) => *place,
        Expr::Assign(place, _, _) => *place,
    }
}

/// The mark of a value.
fn value_mark(value: &Value) -> Place
    ensures { result ≡ value_mark (value_of value.now) }
{
    match value {
        Value::Plain(expr) => mark_of(expr),
        Value::If(place, _, _, _) => *place,
    }
}

// ----------------------------------------------------------------------------
// Sides

/// Begins the first of two sides. The jump to the second is written when that begins.
fn begin_first(out: &mut Instructions, place: Place) -> usize
    ensures at { result ≡ length out.old.list }
    ensures added { Emits out.old out.new (λ _. one place (JumpFalse 0)) }
{
    let at = out.len();
    put(out, place, Instruction::JumpFalse(0));
    at
}

/// Ends the first side and begins the second, to which the jump at `test` leads.
fn begin_second(out: &mut Instructions, place: Place, test: usize) -> usize
    ensures at { result ≡ length out.old.list }
    ensures added { Becomes out.old out.new (slice_set (out.old.list ++ one place (Jump 0)) test (placed place (JumpFalse (length out.old.list + 1)))) }
{
    let at = out.len();
    put(out, place, Instruction::Jump(0));
    let next = out.len();
    let otherwise = out.number(next);
    out.replace(test, place, Instruction::JumpFalse(otherwise));
    at
}

/// Ends the second side, over which the jump at `first` leads.
fn end_sides(out: &mut Instructions, place: Place, first: usize)
    ensures { Becomes out.old out.new (slice_set out.old.list first (placed place (Jump (length out.old.list)))) }
{
    let next = out.len();
    let end = out.number(next);
    out.replace(first, place, Instruction::Jump(end))
}

// ----------------------------------------------------------------------------
// What a form adds after its parts

/// Pushes a text that is written out.
fn put_quoted(out: &mut Instructions, inside: &Inside, place: Place, text: &Text)
    ensures { Emits out.old out.new (λ _. one place (Push (constant.Text (number_in (inside_of inside.now).texts text.now)))) }
{
    let number = out.number(place_in(inside.texts, text));
    put(out, place, Instruction::Push(Constant::Text(number)))
}

/// Pushes what a name stands for.
fn put_name(out: &mut Instructions, inside: &Inside, place: Place, binding: Binding)
    ensures { Emits out.old out.new (λ _. one place (name_code (inside_of inside.now) binding)) }
{
    let code = name_code(out, inside, binding);
    put(out, place, code)
}

/// Calls the method of a name with so many arguments.
fn put_call(out: &mut Instructions, inside: &Inside, place: Place, name: &Text, arguments: usize)
    ensures { Emits out.old out.new (λ _. one place (Call (number_in (inside_of inside.now).methods name.now) arguments)) }
{
    let method = out.number(place_in(inside.methods, name));
    let count = out.number(arguments);
    put(out, place, Instruction::Call(method, count))
}

/// Sets what an assignment sets, whose own value is `()`.
fn put_assigned(out: &mut Instructions, inside: &Inside, place: Place, binding: Binding)
    ensures { Emits out.old out.new (λ _. placed place (Set (assigned_value (inside_of inside.now) binding)) ∷ one place (Push constant.Unit)) }
{
    let assigned = out.number(assigned_value(inside, binding));
    put(out, place, Instruction::Set(assigned));
    put(out, place, Instruction::Push(Constant::Unit))
}

// ----------------------------------------------------------------------------
// Forms

/// The code of an expression.
#[cycle(emission)]
pub(crate) fn emit_expr(out: &mut Instructions, inside: &Inside, expr: &Expr)
    ensures { Emits out.old out.new (λ at. listing (inside_of inside.now) at (expr_of expr.now)) }
{
    match expr {
        Expr::Int(place, number) => put(out, *place, Instruction::Push(Constant::Int(*number))),
        Expr::Text(place, text) => put_quoted(out, inside, *place, text),
        Expr::Bool(place, truth) => put(out, *place, Instruction::Push(Constant::Truth(*truth))),
        Expr::Unit(place) => put(out, *place, Instruction::Push(Constant::Unit)),
        Expr::This(place) => put(out, *place, Instruction::Load(0)),
        Expr::Name(place, binding) => put_name(out, inside, *place, *binding),
        Expr::Unary(place, operator, x) => {
            emit_expr(out, inside, x);
            put(out, *place, Instruction::Op(unary_code(*operator)))
        }
        Expr::Binary(place, operator, x, y) => {
            emit_expr(out, inside, x);
            emit_right(out, inside, *place, *operator, y)
        }
        Expr::TextCall(place, operator, values) => {
            emit_values(out, inside, values);
            put(out, *place, Instruction::Op(text_code(*operator)))
        }
        Expr::Call(place, receiver, name, arguments) => {
            emit_expr(out, inside, receiver);
            emit_values(out, inside, arguments);
            put_call(out, inside, *place, name, arguments.len())
        }
        Expr::New(place, literal, values) => {
            emit_values(out, inside, values);
            put(out, *place, Instruction::New(*literal))
        }
        Expr::Ascribe(_, value, _) => emit_value(out, inside, value),
        Expr::Assign(place, binding, value) => {
            emit_value(out, inside, value);
            put_assigned(out, inside, *place, *binding)
        }
    }
}

/// The code of a binary operator with its right side, after its left one.
#[cycle(emission)]
fn emit_right(
    out: &mut Instructions,
    inside: &Inside,
    place: Place,
    operator: BinaryOperator,
    right: &Expr,
)
    ensures { Emits out.old out.new (λ at. right_listing place (evaluation operator) at (λ at. listing (inside_of inside.now) at (expr_of right.now))) }
{
    match evaluation(operator) {
        Sides::Both(operation) => {
            emit_expr(out, inside, right);
            put(out, place, Instruction::Op(operation))
        }
        Sides::And => {
            let test = begin_first(out, place);
            emit_expr(out, inside, right);
            let first = begin_second(out, place, test);
            put(out, place, Instruction::Push(Constant::Truth(false)));
            end_sides(out, place, first)
        }
        Sides::Or => {
            let test = begin_first(out, place);
            put(out, place, Instruction::Push(Constant::Truth(true)));
            let first = begin_second(out, place, test);
            emit_expr(out, inside, right);
            end_sides(out, place, first)
        }
    }
}

/// The code of a value.
#[cycle(emission)]
pub(crate) fn emit_value(out: &mut Instructions, inside: &Inside, value: &Value)
    ensures { Emits out.old out.new (λ at. value_listing (inside_of inside.now) at (value_of value.now)) }
{
    match value {
        Value::Plain(expr) => emit_expr(out, inside, expr),
        Value::If(place, test, first, second) => {
            emit_expr(out, inside, test);
            let tested = begin_first(out, *place);
            emit_block(out, inside, first);
            let turned = begin_second(out, *place, tested);
            emit_block(out, inside, second);
            end_sides(out, *place, turned)
        }
    }
}

/// The code of several values, one after the other.
#[cycle(emission)]
fn emit_values(out: &mut Instructions, inside: &Inside, values: &Vec<Value>)
    ensures { Emits out.old out.new (λ at. values_listing (inside_of inside.now) at (values_of values.now.items)) }
{
    for i in 0..values.len() {
        emit_value(out, inside, &values[i]);
    }
}

/// The code of a statement that stands before others.
#[cycle(emission)]
fn emit_statement(out: &mut Instructions, inside: &Inside, statement: &Stmt)
    ensures { Emits out.old out.new (λ at. statement_listing (inside_of inside.now) at statement.now) }
{
    match statement {
        Stmt::Val(place, number, _, value) => {
            emit_value(out, inside, value);
            let slot = out.number(val_slot(inside, *number));
            put(out, *place, Instruction::Store(slot))
        }
        Stmt::Do(value) => {
            emit_value(out, inside, value);
            put(out, value_mark(value), Instruction::Drop)
        }
    }
}

/// The code of a block.
#[cycle(emission)]
pub(crate) fn emit_block(out: &mut Instructions, inside: &Inside, block: &Block)
    ensures { Emits out.old out.new (λ at. block_listing (inside_of inside.now) at (block_of block.now)) }
{
    for i in 0..block.statements.len() {
        emit_statement(out, inside, &block.statements[i]);
    }
    emit_value(out, inside, &block.last)
}

/// The code of the initialisers of fields, each of which is set as soon as its value is there.
pub(crate) fn emit_fields(out: &mut Instructions, inside: &Inside, values: &Vec<Value>)
    ensures { Emits out.old out.new (λ at. fields_listing (inside_of inside.now) at 0 (values_of values.now.items)) }
{
    for i in 0..values.len() {
        let value = &values[i];
        emit_value(out, inside, value);
        let field = out.number(field_value(inside, i));
        put(out, value_mark(value), Instruction::Set(field));
    }
}
