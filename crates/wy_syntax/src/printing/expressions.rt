//! Expressions, with parentheses exactly where an operand's level is lower than its place asks for.
ghost use Rattle.std.specs.Prelude.{◌≡◌, ◌++◌, codes, map, not, nat_le};
ghost use Rattle.std.specs.Fmt.{signed_decimal};
ghost use Rattle.wy_text.specs.Quoted.{quoted_form};
ghost use Rattle.wy_text.specs.Spelling.{spelling_of};
ghost use Rattle.wy_syntax.specs.ExprGrammar.{left_level_of, level_of_op, right_level_of, symbol_of};
ghost use Rattle.wy_syntax.specs.Views.{expr_tree, expr_trees};
ghost use Rattle.wy_syntax.specs.Printing.{worded_text};
ghost use Rattle.wy_syntax.specs.Collected.{Adds};
ghost use Rattle.wy_syntax.specs.Canonical.{arguments_text, enclosed, expr_text, is_numbered, level_of, type_text};

use crate::expressions::{Expr, Operator};
use crate::printing::output::{Output, push};
use crate::printing::pieces::Printed;
use crate::printing::types::push_type;
use crate::types::{Name, TypeUse};
use wy_text::text::Text;

/// The level that the condition of an `if` asks for.
pub const CONDITION: u8 = 1;
/// The level that the operand of a prefix asks for.
const UNARY: u8 = 6;
/// The level that a call's receiver asks for.
const POST: u8 = 7;
/// The level of what stands alone.
const ATOMIC: u8 = 8;

/// An operator's symbol.
fn symbol(operator: Operator) -> &'static str
    ensures { result.now ≡ spelling_of (symbol_of operator) }
{
    match operator {
        Operator::Or => "||",
        Operator::And => "&&",
        Operator::Equal => "==",
        Operator::NotEqual => "!=",
        Operator::Less => "<",
        Operator::LessEqual => "<=",
        Operator::Greater => ">",
        Operator::GreaterEqual => ">=",
        Operator::Plus => "+",
        Operator::Minus => "-",
        Operator::Join => "++",
        Operator::Times => "*",
        Operator::Divide => "/",
        Operator::Remainder => "%",
    }
}

/// The level of what an operator makes.
fn operator_level(operator: Operator) -> u8
    ensures { result ≡ level_of_op operator }
{
    match operator {
        Operator::Or => 1,
        Operator::And => 2,
        Operator::Equal
        | Operator::NotEqual
        | Operator::Less
        | Operator::LessEqual
        | Operator::Greater
        | Operator::GreaterEqual => 3,
        Operator::Plus | Operator::Minus | Operator::Join => 4,
        Operator::Times | Operator::Divide | Operator::Remainder => 5,
    }
}

/// The level that an operator's left operand must have: comparisons do not group.
fn left_level(operator: Operator) -> u8
    ensures { result ≡ left_level_of operator }
{
    match operator {
        Operator::Or => 1,
        Operator::And => 2,
        Operator::Equal
        | Operator::NotEqual
        | Operator::Less
        | Operator::LessEqual
        | Operator::Greater
        | Operator::GreaterEqual
        | Operator::Plus
        | Operator::Minus
        | Operator::Join => 4,
        Operator::Times | Operator::Divide | Operator::Remainder => 5,
    }
}

/// The level that an operator's right operand must have.
fn right_level(operator: Operator) -> u8
    ensures { result ≡ right_level_of operator }
{
    match operator {
        Operator::Or => 2,
        Operator::And => 3,
        Operator::Equal
        | Operator::NotEqual
        | Operator::Less
        | Operator::LessEqual
        | Operator::Greater
        | Operator::GreaterEqual => 4,
        Operator::Plus | Operator::Minus | Operator::Join => 5,
        Operator::Times | Operator::Divide | Operator::Remainder => 6,
    }
}

/// The level of an expression as it is printed.
#[tactic(auto, using(crate::proofs::Numbers::number_rules))]
fn level(e: &Expr) -> u8
    ensures { result ≡ level_of (expr_tree e.now) }
{
    match e {
        Expr::Number(value, _) if *value < 0 => UNARY,
        Expr::Negate(_, _) | Expr::Not(_, _) => UNARY,
        Expr::Binary(operator, _, _, _) => operator_level(*operator),
        Expr::Call(_, _, _) => POST,
        Expr::Choice(_, _, _, _) => 0,
        _ => ATOMIC,
    }
}

/// Whether the level of an expression is lower than its place asks for.
pub fn is_lower(e: &Expr, asked: u8) -> bool
    ensures { result ≡ not (nat_le asked (level_of (expr_tree e.now))) }
{
    level(e) < asked
}

/// Whether the first token of a prefix's operand is a number.
#[tactic(auto, using(crate::proofs::Numbers::number_rules))]
fn is_numbered(e: &Expr) -> bool
    ensures { result ≡ is_numbered (expr_tree e.now) }
{
    match e {
        Expr::Number(value, _) => *value >= 0,
        Expr::Call(receiver, _, _) => !is_lower(receiver, POST) && is_numbered(receiver),
        _ => false,
    }
}

fn push_number(out: &mut Output, number: i64)
    ensures { Adds (signed_decimal number) out.old out.new }
{
    match format!(in out.alloc(); "{number}") {
        Ok(digits) => push(out, digits.as_bytes()),
        Err(_) => out.lose(),
    }
}

fn push_quoted(out: &mut Output, text: &Text)
    ensures { Adds (quoted_form text.now) out.old out.new }
{
    out.push_made(text.quoted())
}

/// Adds an operator's symbol with a space on each side.
fn push_operator(out: &mut Output, operator: Operator)
    ensures { Adds (codes " " ++ spelling_of (symbol_of operator) ++ codes " ") out.old out.new }
{
    push(out, b" ");
    push(out, symbol(operator).as_bytes());
    push(out, b" ")
}

/// Adds a dot, a method's name and the parenthesis that opens its arguments.
fn push_method(out: &mut Output, name: &Name)
    ensures { Adds (codes "." ++ name.now.text ++ codes "(") out.old out.new }
{
    push(out, b".");
    name.push_to(out);
    push(out, b"(")
}

/// Adds a colon, a type and the parenthesis that closes them.
fn push_ascribed(out: &mut Output, type_use: &TypeUse)
    ensures { Adds ((codes " : " ++ type_text type_use.now ++ codes ")")) out.old out.new }
{
    push(out, b" : ");
    push_type(out, type_use);
    push(out, b")")
}

/// Adds an expression.
#[cycle(printing)]
pub fn push_expr(out: &mut Output, e: &Expr)
    ensures { Adds (expr_text (expr_tree e.now)) out.old out.new }
{
    match e {
        Expr::Number(value, _) => push_number(out, *value),
        Expr::Text(text, _) => push_quoted(out, text),
        Expr::True(_) => push(out, b"true"),
        Expr::False(_) => push(out, b"false"),
        Expr::This(_) => push(out, b"this"),
        Expr::Name(name) => name.push_to(out),
        Expr::Unit(_) => push(out, b"()"),
        Expr::Negate(e, _) => {
            push(out, b"-");
            push_enclosed(out, e, is_lower(e, UNARY) || is_numbered(e))
        }
        Expr::Not(e, _) => {
            push(out, b"!");
            push_enclosed(out, e, is_lower(e, UNARY))
        }
        Expr::Binary(operator, left, right, _) => {
            push_enclosed(out, left, is_lower(left, left_level(*operator)));
            push_operator(out, *operator);
            push_enclosed(out, right, is_lower(right, right_level(*operator)))
        }
        Expr::Call(receiver, name, arguments) => {
            push_enclosed(out, receiver, is_lower(receiver, POST));
            push_method(out, name);
            push_arguments(out, arguments);
            push(out, b")")
        }
        Expr::TextSize(_, _)
        | Expr::TextPart(_, _, _, _)
        | Expr::TextCode(_, _, _)
        | Expr::TextByte(_, _)
        | Expr::TextShow(_, _)
        | Expr::Ascribe(_, _, _)
        | Expr::Choice(_, _, _, _) => push_worded(out, e),
    }
}

/// Adds an expression, in parentheses where that is asked for.
#[cycle(printing)]
pub fn push_enclosed(out: &mut Output, e: &Expr, enclose: bool)
    ensures { Adds (enclosed enclose (expr_text (expr_tree e.now))) out.old out.new }
{
    if enclose {
        push_last(out, b"(", e)
    } else {
        push_expr(out, e)
    }
}

/// Adds a call's arguments with commas between.
#[cycle(printing)]
fn push_arguments(out: &mut Output, arguments: &[Expr])
    ensures { Adds (arguments_text (expr_trees arguments.now)) out.old out.new }
{
    if let [first, others @ ..] = arguments {
        push_expr(out, first);
        for argument in others {
            push_behind(out, b", ", argument);
        }
    }
}

/// Adds an expression whose operands stand behind words and signs of its own; nothing for another one.
#[cycle(printing)]
fn push_worded(out: &mut Output, e: &Expr)
    ensures { Adds (worded_text (expr_tree e.now)) out.old out.new }
{
    match e {
        Expr::TextSize(e, _) => push_last(out, b"text_size(", e),
        Expr::TextPart(e, from, to, _) => {
            push_behind(out, b"text_part(", e);
            push_behind(out, b", ", from);
            push_last(out, b", ", to)
        }
        Expr::TextCode(e, at, _) => {
            push_behind(out, b"text_code(", e);
            push_last(out, b", ", at)
        }
        Expr::TextByte(e, _) => push_last(out, b"text_byte(", e),
        Expr::TextShow(e, _) => push_last(out, b"text_show(", e),
        Expr::Ascribe(e, type_use, _) => {
            push_behind(out, b"(", e);
            push_ascribed(out, type_use)
        }
        Expr::Choice(condition, first, second, _) => {
            push(out, b"if ");
            push_enclosed(out, condition, is_lower(condition, CONDITION));
            push_behind(out, b" then ", first);
            push_behind(out, b" else ", second)
        }
        _ => {},
    }
}

/// Adds an operand behind what is before it.
#[cycle(printing)]
fn push_behind(out: &mut Output, before: &[u8], e: &Expr)
    ensures { Adds (before.now ++ expr_text (expr_tree e.now)) out.old out.new }
{
    push(out, before);
    push_expr(out, e)
}

/// Adds an operand behind what is before it, and a closing parenthesis.
#[cycle(printing)]
fn push_last(out: &mut Output, before: &[u8], e: &Expr)
    ensures { Adds ((before.now ++ expr_text (expr_tree e.now) ++ codes ")")) out.old out.new }
{
    push_behind(out, before, e);
    push(out, b")")
}
