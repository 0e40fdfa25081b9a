//! Expressions with their names resolved (docs/LANGUAGE.md, "Names").

ghost use Rattle.std.specs.Prelude.{◌≡◌, IfOk, OnOk};
ghost use Rattle.wy_types.specs.View.{expr_of, value_of, values_of, block_of};
ghost use Rattle.wy_types.specs.Code as plain;
ghost use Rattle.wy_syntax.specs.Trees as t;
ghost use Rattle.wy_syntax.specs.Views.{expr_tree, expr_trees};
ghost use Rattle.wy_symbols.specs.Least.{noted};
ghost use Rattle.wy_bodies.specs.Lending.{lent_within};
ghost use Rattle.wy_bodies.specs.InSight.{sight_of};
ghost use Rattle.wy_bodies.specs.Bodies.{bound, operand, operator_of, expr_value, expr_values};
ghost use Rattle.wy_bodies.specs.BodyRefusals.{value_refusals, this_refusals, expr_refusals, exprs_refusals};
ghost use Rattle.wy_bodies.specs.ValueRows.{values_then};

use crate::bodies::Within;
use crate::sight::{Frame, Variables, binding_of};
use crate::values::{boxed, boxed_operand, call, choice, last, operator_of, quoted, text_call};
use std::alloc::Global;
use wy_symbols::{Cause, Refusal, add, note_at, read_type};
use wy_syntax::expressions::{Expr, Operator};
use wy_syntax::types::{Name, TypeUse};
use wy_text::fault::Place;
use wy_text::text::Memory;
use wy_types::code::{self, Binding, Block, TextOperator, UnaryOperator, Value};

/// What a name stands for; Unknown is noted where it is nowhere in sight.
pub fn bound(
    within: &Within,
    frame: &Frame,
    variables: &Variables,
    least: &mut Option<Refusal>,
    name: &Name,
) -> Result<Binding, Memory>
    ensures value { IfOk result (λ b. b ≡ bound (lent_within within.now) (sight_of frame.now variables.now) name.now) }
    ensures noted { OnOk result (least.new ≡ noted least.old (value_refusals (lent_within within.now) (sight_of frame.now variables.now) name.now)) }
{
    match binding_of(within.own, frame, variables, &name.text)? {
        Some(bound) => Ok(bound),
        None => {
            note_at(least, name.place, Cause::Unknown);
            Ok(Binding::Own(0))
        }
    }
}

/// A name, as a value.
fn name_value(
    within: &Within,
    frame: &Frame,
    variables: &Variables,
    least: &mut Option<Refusal>,
    name: &Name,
) -> Result<Value, Memory>
    ensures value { IfOk result (λ v. value_of v ≡ plain.Plain (plain.Name name.now.place (bound (lent_within within.now) (sight_of frame.now variables.now) name.now))) }
    ensures noted { OnOk result (least.new ≡ noted least.old (value_refusals (lent_within within.now) (sight_of frame.now variables.now) name.now)) }
{
    let bound = bound(within, frame, variables, least, name)?;
    Ok(Value::Plain(code::Expr::Name(name.place, bound)))
}

/// Notes Unknown at a `this` that stands outside methods.
fn note_this(frame: &Frame, least: &mut Option<Refusal>, place: Place)
    ensures { least.new ≡ noted least.old (this_refusals place frame.now.in_method) }
{
    if !frame.in_method() {
        note_at(least, place, Cause::Unknown);
    }
}

/// An expression's value.
#[cycle(expressions)]
pub fn expr_value(
    alloc: Global,
    within: &Within,
    frame: &Frame,
    variables: &Variables,
    least: &mut Option<Refusal>,
    e: &Expr,
) -> Result<Value, Memory>
    ensures value { IfOk result (λ v. value_of v ≡ expr_value (lent_within within.now) (sight_of frame.now variables.now) (expr_tree e.now)) }
    ensures noted { OnOk result (least.new ≡ noted least.old (expr_refusals (lent_within within.now) (sight_of frame.now variables.now) (expr_tree e.now))) }
{
    match e {
        Expr::Number(number, place) => Ok(Value::Plain(code::Expr::Int(*place, *number))),
        Expr::Text(text, place) => quoted(*place, text),
        Expr::True(place) => Ok(Value::Plain(code::Expr::Bool(*place, true))),
        Expr::False(place) => Ok(Value::Plain(code::Expr::Bool(*place, false))),
        Expr::This(place) => {
            note_this(frame, least, *place);
            Ok(Value::Plain(code::Expr::This(*place)))
        }
        Expr::Name(name) => name_value(within, frame, variables, least, name),
        Expr::Unit(place) => Ok(Value::Plain(code::Expr::Unit(*place))),
        Expr::Negate(e, place) => unary_value(
            alloc,
            within,
            frame,
            variables,
            least,
            *place,
            UnaryOperator::Negate,
            e,
        ),
        Expr::Not(e, place) => unary_value(
            alloc,
            within,
            frame,
            variables,
            least,
            *place,
            UnaryOperator::Not,
            e,
        ),
        Expr::Binary(operator, left, right, place) => {
            let left = operand_value(alloc, within, frame, variables, least, left)?;
            binary_with(
                alloc, within, frame, variables, least, *place, *operator, right, left,
            )
        }
        Expr::Call(receiver, name, arguments) => {
            let receiver = operand_value(alloc, within, frame, variables, least, receiver)?;
            call_with(
                alloc, within, frame, variables, least, name, arguments, receiver,
            )
        }
        Expr::TextSize(e, place) => text_of_one(
            alloc,
            within,
            frame,
            variables,
            least,
            *place,
            TextOperator::Size,
            e,
        ),
        Expr::TextPart(e, from, to, place) => {
            let mut values = Vec::new(alloc);
            push_value(alloc, within, frame, variables, least, e, &mut values)?;
            push_value(alloc, within, frame, variables, least, from, &mut values)?;
            push_value(alloc, within, frame, variables, least, to, &mut values)?;
            Ok(text_call(*place, TextOperator::Part, values))
        }
        Expr::TextCode(e, at, place) => {
            let mut values = Vec::new(alloc);
            push_value(alloc, within, frame, variables, least, e, &mut values)?;
            push_value(alloc, within, frame, variables, least, at, &mut values)?;
            Ok(text_call(*place, TextOperator::Code, values))
        }
        Expr::TextByte(e, place) => text_of_one(
            alloc,
            within,
            frame,
            variables,
            least,
            *place,
            TextOperator::Byte,
            e,
        ),
        Expr::TextShow(e, place) => text_of_one(
            alloc,
            within,
            frame,
            variables,
            least,
            *place,
            TextOperator::Show,
            e,
        ),
        Expr::Ascribe(e, type_use, place) => typed_value(
            alloc, within, frame, variables, least, *place, e, type_use,
        ),
        Expr::Choice(test, first, second, place) => {
            let test = operand_value(alloc, within, frame, variables, least, test)?;
            let first = last_value(alloc, within, frame, variables, least, first)?;
            choice_with(
                alloc, within, frame, variables, least, *place, second, test, first,
            )
        }
    }
}

/// An operation on one operand.
#[cycle(expressions)]
fn unary_value(
    alloc: Global,
    within: &Within,
    frame: &Frame,
    variables: &Variables,
    least: &mut Option<Refusal>,
    place: Place,
    operator: UnaryOperator,
    e: &Expr,
) -> Result<Value, Memory>
    ensures value { IfOk result (λ v. value_of v ≡ plain.Plain (plain.Unary place operator (operand (expr_value (lent_within within.now) (sight_of frame.now variables.now) (expr_tree e.now))))) }
    ensures noted { OnOk result (least.new ≡ noted least.old (expr_refusals (lent_within within.now) (sight_of frame.now variables.now) (expr_tree e.now))) }
{
    let operand = operand_value(alloc, within, frame, variables, least, e)?;
    Ok(Value::Plain(code::Expr::Unary(place, operator, operand)))
}

/// An operation on two operands, the first of which is this.
#[cycle(expressions)]
fn binary_with(
    alloc: Global,
    within: &Within,
    frame: &Frame,
    variables: &Variables,
    least: &mut Option<Refusal>,
    place: Place,
    operator: Operator,
    right: &Expr,
    left: Box<code::Expr>,
) -> Result<Value, Memory>
    ensures value { IfOk result (λ v. value_of v ≡ plain.Plain (plain.Binary place (operator_of operator) (expr_of left.value) (operand (expr_value (lent_within within.now) (sight_of frame.now variables.now) (expr_tree right.now))))) }
    ensures noted { OnOk result (least.new ≡ noted least.old (expr_refusals (lent_within within.now) (sight_of frame.now variables.now) (expr_tree right.now))) }
{
    let right = operand_value(alloc, within, frame, variables, least, right)?;
    Ok(Value::Plain(code::Expr::Binary(place, operator_of(operator), left, right)))
}

/// A call of a method on this receiver.
#[cycle(expressions)]
fn call_with(
    alloc: Global,
    within: &Within,
    frame: &Frame,
    variables: &Variables,
    least: &mut Option<Refusal>,
    name: &Name,
    arguments: &[Expr],
    receiver: Box<code::Expr>,
) -> Result<Value, Memory>
    ensures value { IfOk result (λ v. value_of v ≡ plain.Plain (plain.Call name.now.place (expr_of receiver.value) name.now.text (expr_values (lent_within within.now) (sight_of frame.now variables.now) (expr_trees arguments.now)))) }
    ensures noted { OnOk result (least.new ≡ noted least.old (exprs_refusals (lent_within within.now) (sight_of frame.now variables.now) (expr_trees arguments.now))) }
{
    let arguments = expr_values(alloc, within, frame, variables, least, arguments)?;
    Ok(call(name.place, receiver, name.text.copy()?, arguments))
}

/// A value at a type that is written.
#[cycle(expressions)]
fn typed_value(
    alloc: Global,
    within: &Within,
    frame: &Frame,
    variables: &Variables,
    least: &mut Option<Refusal>,
    place: Place,
    e: &Expr,
    type_use: &TypeUse,
) -> Result<Value, Memory>
    ensures value { IfOk result (λ v. value_of v ≡ expr_value (lent_within within.now) (sight_of frame.now variables.now) (t.ascribe (expr_tree e.now) type_use.now place)) }
    ensures noted { OnOk result (least.new ≡ noted least.old (expr_refusals (lent_within within.now) (sight_of frame.now variables.now) (t.ascribe (expr_tree e.now) type_use.now place))) }
{
    let value = expr_value(alloc, within, frame, variables, least, e)?;
    let value = boxed(alloc, value)?;
    let typ = read_type(alloc, within.atoms, within.plain, type_use, least)?;
    Ok(Value::Plain(code::Expr::Ascribe(place, value, typ)))
}

/// An `if` with this condition and this first branch.
#[cycle(expressions)]
fn choice_with(
    alloc: Global,
    within: &Within,
    frame: &Frame,
    variables: &Variables,
    least: &mut Option<Refusal>,
    place: Place,
    second: &Expr,
    test: Box<code::Expr>,
    first: Block,
) -> Result<Value, Memory>
    ensures value { IfOk result (λ v. value_of v ≡ plain.If place (expr_of test.value) (block_of first) (plain.Last (expr_value (lent_within within.now) (sight_of frame.now variables.now) (expr_tree second.now)))) }
    ensures noted { OnOk result (least.new ≡ noted least.old (expr_refusals (lent_within within.now) (sight_of frame.now variables.now) (expr_tree second.now))) }
{
    let second = last_value(alloc, within, frame, variables, least, second)?;
    Ok(choice(place, test, first, second))
}

/// An expression's value as a receiver or an operand.
#[cycle(expressions)]
pub fn operand_value(
    alloc: Global,
    within: &Within,
    frame: &Frame,
    variables: &Variables,
    least: &mut Option<Refusal>,
    e: &Expr,
) -> Result<Box<code::Expr>, Memory>
    ensures value { IfOk result (λ b. expr_of b.value ≡ operand (expr_value (lent_within within.now) (sight_of frame.now variables.now) (expr_tree e.now))) }
    ensures noted { OnOk result (least.new ≡ noted least.old (expr_refusals (lent_within within.now) (sight_of frame.now variables.now) (expr_tree e.now))) }
{
    let value = expr_value(alloc, within, frame, variables, least, e)?;
    boxed_operand(alloc, value)
}

/// The values of a call's arguments.
#[cycle(expressions)]
fn expr_values(
    alloc: Global,
    within: &Within,
    frame: &Frame,
    variables: &Variables,
    least: &mut Option<Refusal>,
    es: &[Expr],
) -> Result<Vec<Value>, Memory>
    ensures value { IfOk result (λ vs. values_of vs.items ≡ expr_values (lent_within within.now) (sight_of frame.now variables.now) (expr_trees es.now)) }
    ensures noted { OnOk result (least.new ≡ noted least.old (exprs_refusals (lent_within within.now) (sight_of frame.now variables.now) (expr_trees es.now))) }
{
    let mut values = Vec::new(alloc);
    for e in es {
        push_value(alloc, within, frame, variables, least, e, &mut values)?;
    }
    Ok(values)
}

/// Adds the value of an expression.
#[cycle(expressions)]
fn push_value(
    alloc: Global,
    within: &Within,
    frame: &Frame,
    variables: &Variables,
    least: &mut Option<Refusal>,
    e: &Expr,
    values: &mut Vec<Value>,
) -> Result<(), Memory>
    ensures values { OnOk result ((rest : plain.Values) → values_then values.new.items rest ≡ values_then values.old.items (plain.more (expr_value (lent_within within.now) (sight_of frame.now variables.now) (expr_tree e.now)) rest)) }
    ensures noted { OnOk result (least.new ≡ noted least.old (expr_refusals (lent_within within.now) (sight_of frame.now variables.now) (expr_tree e.now))) }
{
    add(
        values,
        expr_value(alloc, within, frame, variables, least, e)?,
    )?;
    Ok(())
}

/// An operation on one text.
#[cycle(expressions)]
fn text_of_one(
    alloc: Global,
    within: &Within,
    frame: &Frame,
    variables: &Variables,
    least: &mut Option<Refusal>,
    place: Place,
    operator: TextOperator,
    e: &Expr,
) -> Result<Value, Memory>
    ensures value { IfOk result (λ v. value_of v ≡ plain.Plain (plain.TextCall place operator (plain.more (expr_value (lent_within within.now) (sight_of frame.now variables.now) (expr_tree e.now)) plain.none))) }
    ensures noted { OnOk result (least.new ≡ noted least.old (expr_refusals (lent_within within.now) (sight_of frame.now variables.now) (expr_tree e.now))) }
{
    let mut values = Vec::new(alloc);
    push_value(alloc, within, frame, variables, least, e, &mut values)?;
    Ok(text_call(place, operator, values))
}

/// A block of an expression alone.
#[cycle(expressions)]
fn last_value(
    alloc: Global,
    within: &Within,
    frame: &Frame,
    variables: &Variables,
    least: &mut Option<Refusal>,
    e: &Expr,
) -> Result<Block, Memory>
    ensures value { IfOk result (λ b. block_of b ≡ plain.Last (expr_value (lent_within within.now) (sight_of frame.now variables.now) (expr_tree e.now))) }
    ensures noted { OnOk result (least.new ≡ noted least.old (expr_refusals (lent_within within.now) (sight_of frame.now variables.now) (expr_tree e.now))) }
{
    let value = expr_value(alloc, within, frame, variables, least, e)?;
    last(alloc, value)
}
