//! The rows of operators: what the operands are asked to be, and what comes of it (docs/LANGUAGE.md, "Operators").

ghost use Rattle.std.specs.Prelude.{◌≡◌, ◌∷◌, []};
ghost use Rattle.wy_types.specs.declared.code.BinaryOperator.TheVariants.{Equal, NotEqual};
ghost use Rattle.wy_types.specs.declared.types.TypeRef.TheVariants.{Bool};
ghost use Rattle.wy_rules.specs.Operators.{row, unary_rows};
ghost use Rattle.wy_rules.specs.Canonical.{first_row};
ghost use Rattle.wy_certify.specs.Written.{Context, operand_typ, result_typ};

use wy_types::code::{BinaryOperator, UnaryOperator};
use wy_types::types::TypeRef;

/// The type that is asked of each operand, and the type of the result.
#[derive(Drop)]
pub struct Row {
    pub operand: TypeRef,
    pub result: TypeRef,
}

/// The row of an operator of one operand.
pub fn unary_row(operator: UnaryOperator) -> Row
    ensures { first_row (unary_rows operator) ≡ row (result.operand ∷ []) result.result }
{
    match operator {
        UnaryOperator::Negate => Row {
            operand: TypeRef::Int,
            result: TypeRef::Int,
        },
        UnaryOperator::Not => Row {
            operand: TypeRef::Bool,
            result: TypeRef::Bool,
        },
    }
}

/// The row of an equality: it is asked of the type of the first operand, or else of text.
#[tactic(auto, unfolding(crate::specs::Written::operand_typ))]
fn equality_row(typ: &TypeRef) -> Row
    ensures equal { (c : Context) → result.operand ≡ operand_typ c Equal typ.now }
    ensures not_equal { (c : Context) → result.operand ≡ operand_typ c NotEqual typ.now }
    ensures result { result.result ≡ Bool }
{
    let operand = match typ {
        TypeRef::Int => TypeRef::Int,
        TypeRef::Bool => TypeRef::Bool,
        TypeRef::Text | TypeRef::Unit => TypeRef::Text,
        TypeRef::Named { .. } | TypeRef::At { .. } | TypeRef::Own { .. } => TypeRef::Text,
    };
    Row {
        operand,
        result: TypeRef::Bool,
    }
}

/// The row of an operator of two operands, the first of which has this type.
#[tactic(auto, unfolding(crate::specs::Written::operand_typ, crate::specs::Written::result_typ))]
pub fn binary_row(operator: BinaryOperator, typ: &TypeRef) -> Row
    ensures operand { (c : Context) → result.operand ≡ operand_typ c operator typ.now }
    ensures result { (c : Context) → result.result ≡ result_typ c operator typ.now }
{
    match operator {
        BinaryOperator::Add
        | BinaryOperator::Subtract
        | BinaryOperator::Multiply
        | BinaryOperator::Divide
        | BinaryOperator::Remainder => Row {
            operand: TypeRef::Int,
            result: TypeRef::Int,
        },
        BinaryOperator::Join => Row {
            operand: TypeRef::Text,
            result: TypeRef::Text,
        },
        BinaryOperator::Less
        | BinaryOperator::LessOrEqual
        | BinaryOperator::Greater
        | BinaryOperator::GreaterOrEqual => Row {
            operand: TypeRef::Int,
            result: TypeRef::Bool,
        },
        BinaryOperator::Equal => equality_row(typ),
        BinaryOperator::NotEqual => equality_row(typ),
        BinaryOperator::And | BinaryOperator::Or => Row {
            operand: TypeRef::Bool,
            result: TypeRef::Bool,
        },
    }
}
