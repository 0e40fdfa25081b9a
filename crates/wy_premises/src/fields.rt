//! Fields of the current object, and the types that are declared for what a name stands for.

ghost use Rattle.std.specs.Prelude.{◌≡◌, IfOk, slice_get};
ghost use Rattle.std.specs.Option.{option_copied};
ghost use Rattle.wy_types.specs.Program.{scope_of};
ghost use Rattle.wy_rules.specs.Typing.{field_types, field_at, var_field, parameter_type, fields_of};
ghost use Rattle.wy_premises.specs.Names.{declared_type};

use std::alloc::Global;
use wy_text::list::Items;
use wy_text::text::Memory;
use wy_types::code::{Binding, Variable};
use wy_types::resolved::{Field, Scope};
use wy_types::types::{TypeList, TypeRef};

/// The fields of the module, by 0, or of a literal.
pub fn fields_of(scope: &Scope, literal: u32) -> &[Field]
    ensures { result.now ≡ fields_of (scope_of scope.now) literal }
{
    match scope.literals.get(literal as usize) {
        Some(l) => l.fields.as_slice(),
        None => &[],
    }
}

/// The types of the fields of the module, by 0, or of a literal.
pub fn field_types(alloc: Global, scope: &Scope, literal: u32) -> Result<TypeList, Memory>
    ensures { IfOk result (λ ts. ts ≡ field_types (scope_of scope.now) literal) }
{
    let mut types = Items::new(alloc);
    for field in fields_of(scope, literal) {
        types.push(field.typ.copy(alloc)?)?;
    }
    Ok(types)
}

/// A field of the current object.
fn field_at(scope: &Scope, owner: Option<u32>, number: u16) -> Option<&Field>
    ensures { option_copied result ≡ field_at (scope_of scope.now) owner number }
{
    match owner {
        Some(literal) => fields_of(scope, literal).get(number as usize),
        None => None,
    }
}

/// The `var` field of the current object that a name stands for.
pub fn var_field(scope: &Scope, owner: Option<u32>, binding: Binding) -> Option<&Field>
    ensures { option_copied result ≡ var_field (scope_of scope.now) owner binding }
{
    match binding {
        Binding::Field(number) => match field_at(scope, owner, number) {
            Some(field) => {
                if field.mutable {
                    return Some(field);
                }
                None
            }
            None => None,
        },
        Binding::Variable(_) | Binding::Own(_) => None,
    }
}

/// The type of a parameter of the scope's body of a number.
fn parameter_type(scope: &Scope, body: u32, index: u16) -> Option<&TypeRef>
    ensures { option_copied result ≡ parameter_type (slice_get (scope_of scope.now).bodies body) index }
{
    match scope.bodies.get(body as usize) {
        Some(b) => b.signature.params.get(index as usize),
        None => None,
    }
}

/// The type that is declared for what a name stands for: a parameter, a field or an own name. A `val` has none here: its type
/// is found where it is judged, or listed.
pub fn declared_type(scope: &Scope, owner: Option<u32>, binding: Binding) -> Option<&TypeRef>
    ensures { option_copied result ≡ declared_type (scope_of scope.now) owner binding }
{
    match binding {
        Binding::Variable(Variable::Parameter { body, index }) => {
            parameter_type(scope, body, index)
        }
        Binding::Variable(Variable::Local(_)) => None,
        Binding::Field(number) => match field_at(scope, owner, number) {
            Some(field) => Some(&field.typ),
            None => None,
        },
        Binding::Own(number) => match scope.names.get(number as usize) {
            Some(name) => Some(&name.typ),
            None => None,
        },
    }
}
