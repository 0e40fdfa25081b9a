//! Marks: the places by which expressions and values are told.

ghost use Rattle.std.specs.Prelude.{◌≡◌};
ghost use Rattle.wy_types.specs.View.{value_of, expr_of};
ghost use Rattle.wy_rules.specs.Derivations.{mark, expr_mark};

use wy_text::fault::Place;
use wy_types::code::{Expr, Value};

/// The mark of an expression.
pub fn expr_mark(expr: &Expr) -> Place
    ensures { result ≡ expr_mark (expr_of expr.now) }
{
    match expr {
        Expr::Int(place, _) | Expr::Text(place, _) | Expr::Bool(place, _) => *place,
        Expr::Unit(place) | Expr::This(place) | Expr::Name(place, _) => *place,
        Expr::Unary(place, _, _) | Expr::Binary(place, _, _, _) => *place,
        Expr::TextCall(place, _, _) | Expr::Call(place, _, _, _) | Expr::New(place, _, _) => *place,
        Expr::Ascribe(place, _, _) | Expr::Assign(place, _, _) => *place,
    }
}

/// The mark of a value.
pub fn mark(value: &Value) -> Place
    ensures { result ≡ mark (value_of value.now) }
{
    match value {
        Value::Plain(expr) => expr_mark(expr),
        Value::If(place, _, _, _) => *place,
    }
}
