//! Operators: the types that they take and give, and the effect of what is done one after the other.

ghost use Rattle.std.specs.Prelude.{◌≡◌, ◌∷◌, ◌++◌, [], IfOk, OnOk};
ghost use Rattle.wy_effects.specs.EffSet.{union};
ghost use Rattle.wy_types.specs.declared.types.TypeRef.TheVariants as base;
ghost use Rattle.wy_rules.specs.Operators.{row, equality_rows};
ghost use Rattle.wy_premises.specs.Operators.{result_in, unary_result, binary_result, text_operands, text_result};

use std::alloc::Global;
use wy_effects::set::EffSet;
use wy_text::list::Items;
use wy_text::text::Memory;
use wy_types::code::{BinaryOperator, TextOperator, UnaryOperator};
use wy_types::types::{TypeList, TypeRef};

/// The atoms of both sets.
pub fn united(first: EffSet, mut second: EffSet) -> Result<EffSet, Memory>
    ensures { IfOk result (λ e. e ≡ union first second) }
{
    first.union_into(&mut second)?;
    Ok(second)
}

/// The atoms of three sets.
pub fn joined(first: EffSet, second: EffSet, third: EffSet) -> Result<EffSet, Memory>
    ensures { IfOk result (λ e. e ≡ union first (union second third)) }
{
    united(first, united(second, third)?)
}

fn if_int(typ: &TypeRef, given: TypeRef) -> Option<TypeRef>
    ensures { result ≡ result_in (row (base.Int ∷ []) given ∷ []) typ.now }
{
    match typ {
        TypeRef::Int => Some(given),
        TypeRef::Bool | TypeRef::Text | TypeRef::Unit => None,
        TypeRef::Named { .. } | TypeRef::At { .. } | TypeRef::Own { .. } => None,
    }
}

fn if_bool(typ: &TypeRef, given: TypeRef) -> Option<TypeRef>
    ensures { result ≡ result_in (row (base.Bool ∷ []) given ∷ []) typ.now }
{
    match typ {
        TypeRef::Bool => Some(given),
        TypeRef::Int | TypeRef::Text | TypeRef::Unit => None,
        TypeRef::Named { .. } | TypeRef::At { .. } | TypeRef::Own { .. } => None,
    }
}

fn if_text(typ: &TypeRef, given: TypeRef) -> Option<TypeRef>
    ensures { result ≡ result_in (row (base.Text ∷ []) given ∷ []) typ.now }
{
    match typ {
        TypeRef::Text => Some(given),
        TypeRef::Int | TypeRef::Bool | TypeRef::Unit => None,
        TypeRef::Named { .. } | TypeRef::At { .. } | TypeRef::Own { .. } => None,
    }
}

fn if_equated(typ: &TypeRef) -> Option<TypeRef>
    ensures { result ≡ result_in equality_rows typ.now }
{
    match typ {
        TypeRef::Int | TypeRef::Bool | TypeRef::Text => Some(TypeRef::Bool),
        TypeRef::Unit | TypeRef::Named { .. } | TypeRef::At { .. } | TypeRef::Own { .. } => None,
    }
}

/// The result's type, where the operator takes an operand of this type.
pub fn unary_result(operator: UnaryOperator, typ: &TypeRef) -> Option<TypeRef>
    ensures { result ≡ unary_result operator typ.now }
{
    match operator {
        UnaryOperator::Negate => if_int(typ, TypeRef::Int),
        UnaryOperator::Not => if_bool(typ, TypeRef::Bool),
    }
}

/// The result's type, where the operator takes a first operand of this type.
pub fn binary_result(operator: BinaryOperator, typ: &TypeRef) -> Option<TypeRef>
    ensures { result ≡ binary_result operator typ.now }
{
    match operator {
        BinaryOperator::Add
        | BinaryOperator::Subtract
        | BinaryOperator::Multiply
        | BinaryOperator::Divide
        | BinaryOperator::Remainder => if_int(typ, TypeRef::Int),
        BinaryOperator::Join => if_text(typ, TypeRef::Text),
        BinaryOperator::Less
        | BinaryOperator::LessOrEqual
        | BinaryOperator::Greater
        | BinaryOperator::GreaterOrEqual => if_int(typ, TypeRef::Bool),
        BinaryOperator::Equal | BinaryOperator::NotEqual => if_equated(typ),
        BinaryOperator::And | BinaryOperator::Or => if_bool(typ, TypeRef::Bool),
    }
}

/// Adds the types of the operands of an operation on texts.
fn add_text_operands(types: &mut TypeList, operator: TextOperator) -> Result<(), Memory>
    ensures { OnOk result (types.new ≡ types.old ++ text_operands operator) }
{
    match operator {
        TextOperator::Size => types.push(TypeRef::Text),
        TextOperator::Part => {
            types.push(TypeRef::Text)?;
            types.push(TypeRef::Int)?;
            types.push(TypeRef::Int)
        }
        TextOperator::Code => {
            types.push(TypeRef::Text)?;
            types.push(TypeRef::Int)
        }
        TextOperator::Byte | TextOperator::Show => types.push(TypeRef::Int),
    }
}

/// The types of the operands of an operation on texts.
pub fn text_operands(alloc: Global, operator: TextOperator) -> Result<TypeList, Memory>
    ensures { IfOk result (λ ts. ts ≡ text_operands operator) }
{
    let mut types = Items::new(alloc);
    add_text_operands(&mut types, operator)?;
    Ok(types)
}

/// The type of the result of an operation on texts.
pub fn text_result(operator: TextOperator) -> TypeRef
    ensures { result ≡ text_result operator }
{
    match operator {
        TextOperator::Size | TextOperator::Code => TypeRef::Int,
        TextOperator::Part | TextOperator::Byte | TextOperator::Show => TypeRef::Text,
    }
}
