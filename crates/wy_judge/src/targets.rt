//! What is looked up where a part of a body is judged: types of names, and the methods that calls name.

ghost use Rattle.std.specs.Prelude.{◌≡◌, IfOk, slice_get};
ghost use Rattle.std.specs.Option.{option_copied};
ghost use Rattle.wy_types.specs.Program.{program_of, scope_of};
ghost use Rattle.wy_types.specs.Types.{is_plain};
ghost use Rattle.wy_types.specs.Fitting.{IsTypeOf};
ghost use Rattle.wy_judge.specs.Inference as Inference;
ghost use Rattle.wy_judge.specs.Results.{fit_of};
ghost use Rattle.wy_judge.specs.Targets.{mode_of, known, type_of_binding, IsTargetOf, IsFittedIn};

use crate::outcomes::{Fit, Least};
use std::alloc::Global;
use wy_effects::set::EffSet;
use wy_premises::declared_type;
use wy_subtype::{Mode, PairTable};
use wy_text::text::{Memory, Text};
use wy_types::code::{Binding, Variable};
use wy_types::methods::find_method;
use wy_types::resolved::{Core, Scope, ScopeKind};
use wy_types::types::{Method, TypeRef};

/// What a receiver offers by a name.
#[derive(Drop)]
pub enum Target {
    /// The premise of the call that is false: no object type, no such method, another number of parameters.
    Without(u8),
    /// The receiver's effect, and the method.
    Found(EffSet, Method),
}

/// How a scope is judged: a plain module without effects.
pub fn mode_of(scope: &Scope) -> Mode
    ensures { result ≡ mode_of (is_plain scope.now.kind) }
{
    match scope.kind {
        ScopeKind::Plain => Mode::Plain,
        ScopeKind::Pure | ScopeKind::Resource | ScopeKind::Program => Mode::Annotated,
    }
}

/// The type of a `val`, where it is known.
fn local_type(table: &[Option<TypeRef>], number: u32) -> Option<&TypeRef>
    ensures { option_copied result ≡ known (slice_get table.now number) }
{
    match table.get(number as usize) {
        Some(Some(typ)) => Some(typ),
        Some(None) | None => None,
    }
}

/// The type of what a name stands for, over the types that are known.
pub fn type_of_binding<'a>(
    scope: &'a Scope,
    table: &'a [Option<TypeRef>],
    owner: Option<u32>,
    binding: Binding,
) -> Option<&'a TypeRef>
    ensures { option_copied result ≡ type_of_binding (scope_of scope.now) table.now owner binding }
{
    match binding {
        Binding::Variable(Variable::Local(number)) => local_type(table, number),
        Binding::Variable(Variable::Parameter { .. }) | Binding::Field(_) | Binding::Own(_) => {
            declared_type(scope, owner, binding)
        }
    }
}

// ----------------------------------------------------------------------------
// Calls

/// What a receiver offers by a name, for so many arguments.
pub fn target_of(
    alloc: Global,
    core: &Core,
    number: u16,
    receiver: Least,
    name: &Text,
    arity: usize,
) -> Result<Target, Memory>
    ensures { IfOk result (λ t. IsTargetOf (program_of core.now) number (Inference.Least receiver.typ receiver.effect) name.now arity t) }
{
    if !receiver.typ.is_object() {
        return Ok(Target::Without(1));
    }
    match find_method(alloc, core, number, &receiver.typ, name)? {
        None => Ok(Target::Without(2)),
        Some(method) => {
            if method.params.len() != arity {
                return Ok(Target::Without(3));
            }
            Ok(Target::Found(receiver.effect, method))
        }
    }
}

// ----------------------------------------------------------------------------
// Types at a place

/// An expression at a type: whether its least type is a subtype, in the scope and the mode of a table of pairs.
pub fn fitted(pairs: &mut PairTable<'_>, expr: Least, typ: &TypeRef) -> Result<Fit, Memory>
    requires least { IsTypeOf pairs.old.about.program pairs.old.about.scope expr.typ }
    requires expected { IsTypeOf pairs.old.about.program pairs.old.about.scope typ.now }
    ensures outcome { IfOk result (λ u. IsFittedIn pairs.old.about.program pairs.old.about.scope pairs.old.about.mode (Inference.Least expr.typ expr.effect) typ.now (fit_of u)) }
    ensures same { pairs.new.about ≡ pairs.old.about }
{
    if pairs.holds(&expr.typ, typ)? {
        return Ok(Fit::Has(expr.effect));
    }
    Ok(Fit::Misfit)
}
