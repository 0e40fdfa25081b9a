//! V-Type of operators: their operands are of base types, and only a base type itself fits it.

ghost use Rattle.std.specs.Prelude.{◌≡◌, ◌↔◌, ◌≤◌, ◌∷◌, [], length, take, IsTrue};
ghost use Rattle.wy_code.specs.Operations.{operand_count};
ghost use Rattle.wy_verified.specs.Rules.{IsCompared, reversed};
ghost use Rattle.wy_verify.specs.Sites.{Site as Value_site};
ghost use Rattle.wy_verify.specs.Turns.{HasOperands, HasSame, IsOperated};

use crate::knowing::Knowing;
use crate::pairs::is_same;
use wy_code::instruction::Operator;
use wy_verified::Kind;

/// Whether a type is a base type that can be compared.
fn is_compared(kind: Kind) -> bool
    ensures { IsTrue result ↔ IsCompared kind }
{
    matches!(kind, Kind::Ints | Kind::Truths | Kind::Texts)
}

/// Whether the topmost operand is of a type.
fn has_one(known: &Knowing, kind: Kind) -> bool
    requires { 1 ≤ length known.now.operands }
    ensures { IsTrue result ↔ (reversed (take 1 known.now.operands) [] ≡ kind ∷ []) }
{
    is_same(known.operand(0), kind)
}

/// Whether the two topmost operands are of these types, the topmost last.
fn has_two(known: &Knowing, first: Kind, second: Kind) -> bool
    requires { 2 ≤ length known.now.operands }
    ensures { IsTrue result ↔ (reversed (take 2 known.now.operands) [] ≡ first ∷ second ∷ []) }
{
    if !is_same(known.operand(1), first) {
        return false;
    }
    has_one(known, second)
}

/// Whether the three topmost operands are of these types, the topmost last.
fn has_three(known: &Knowing, first: Kind, second: Kind, third: Kind) -> bool
    requires { 3 ≤ length known.now.operands }
    ensures { IsTrue result ↔ (reversed (take 3 known.now.operands) [] ≡ first ∷ second ∷ third ∷ []) }
{
    if !is_same(known.operand(2), first) {
        return false;
    }
    has_two(known, second, third)
}

/// Whether the two topmost operands are of one type that can be compared.
fn has_same(known: &Knowing) -> bool
    requires { 2 ≤ length known.now.operands }
    ensures { IsTrue result ↔ HasSame (reversed (take 2 known.now.operands) []) }
{
    let kind = known.operand(0);
    is_compared(kind) && has_two(known, kind, kind)
}

/// Whether the operands of an operator are of its types.
fn has_operands(known: &Knowing, operator: Operator) -> bool
    requires { operand_count operator ≤ length known.now.operands }
    ensures { IsTrue result ↔ HasOperands operator (reversed (take (operand_count operator) known.now.operands) []) }
{
    match operator {
        Operator::Not => has_one(known, Kind::Truths),
        Operator::Size => has_one(known, Kind::Texts),
        Operator::Negate | Operator::Byte | Operator::Show => has_one(known, Kind::Ints),
        Operator::Join => has_two(known, Kind::Texts, Kind::Texts),
        Operator::Code => has_two(known, Kind::Texts, Kind::Ints),
        Operator::Part => has_three(known, Kind::Texts, Kind::Ints, Kind::Ints),
        Operator::Equal | Operator::NotEqual => has_same(known),
        _ => has_two(known, Kind::Ints, Kind::Ints),
    }
}

/// Returns whether the operands of an operator fit its types. Takes no memory.
pub(crate) fn operator_fits(known: &Knowing, operator: Operator) -> bool
    requires { operand_count operator ≤ length known.now.operands }
    ensures { (s : Value_site) → (IsTrue result ↔ IsOperated s known.now operator) }
{
    has_operands(known, operator)
}
