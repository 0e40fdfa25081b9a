//! Types read in another way: with atoms replaced, at a bound, or bare.

ghost use Rattle.std.specs.Prelude.{◌≡◌, [], map, IfOk};
ghost use Rattle.wy_types.specs.Types.{substituted, annotated, erased};
ghost use Rattle.wy_types.specs.Readings.{type_read, effect_read};

use crate::types::{TypeList, TypeRef};
use std::alloc::Global;
use wy_effects::set::{EffSet, substitute_sets};
use wy_text::list::Items;
use wy_text::text::Memory;

/// How types and effects are read.
#[derive(Clone, Copy)]
pub(crate) enum Reading<'a> {
    /// As they are.
    Same,
    /// With each atom replaced by the set at its number.
    Replaced(&'a [EffSet]),
    /// Every declared type bare, and no effect.
    Bare,
    /// Every declared type and every effect at the bound.
    Bound(&'a EffSet),
}

/// The type with each atom replaced by the set at its number in `by`. An own type stays as it is
/// (docs/LANGUAGE.md, "Effects and types").
pub fn substitute(alloc: Global, t: &TypeRef, by: &[EffSet]) -> Result<TypeRef, Memory>
    ensures { IfOk result (λ u. u ≡ substituted by.now t.now) }
{
    match t {
        TypeRef::Named { decl, members } => Ok(TypeRef::Named {
            decl: *decl,
            members: substitute_sets(alloc, members.as_slice(), by)?,
        }),
        TypeRef::At { decl, bound } => Ok(TypeRef::At {
            decl: *decl,
            bound: bound.substitute(by)?,
        }),
        TypeRef::Int | TypeRef::Bool | TypeRef::Text | TypeRef::Unit | TypeRef::Own { .. } =>
            t.copy(alloc),
    }
}

/// The type with every declared type at the bound.
pub fn annotate(alloc: Global, t: &TypeRef, bound: &EffSet) -> Result<TypeRef, Memory>
    ensures { IfOk result (λ u. u ≡ annotated bound.now t.now) }
{
    match t {
        TypeRef::Named { decl, .. } | TypeRef::At { decl, .. } => Ok(TypeRef::At {
            decl: *decl,
            bound: bound.copy()?,
        }),
        TypeRef::Int | TypeRef::Bool | TypeRef::Text | TypeRef::Unit | TypeRef::Own { .. } =>
            t.copy(alloc),
    }
}

/// The type with every declared type bare.
pub fn erase(alloc: Global, t: &TypeRef) -> Result<TypeRef, Memory>
    ensures { IfOk result (λ u. u ≡ erased t.now) }
{
    match t {
        TypeRef::Named { decl, .. } | TypeRef::At { decl, .. } => Ok(TypeRef::Named {
            decl: *decl,
            members: Items::new(alloc),
        }),
        TypeRef::Int | TypeRef::Bool | TypeRef::Text | TypeRef::Unit | TypeRef::Own { .. } =>
            t.copy(alloc),
    }
}

/// The type, read so.
pub(crate) fn read_type(alloc: Global, t: &TypeRef, reading: Reading) -> Result<TypeRef, Memory>
    ensures { IfOk result (λ u. u ≡ type_read reading.entry t.now) }
{
    match reading {
        Reading::Same => t.copy(alloc),
        Reading::Replaced(by) => substitute(alloc, t, by),
        Reading::Bare => erase(alloc, t),
        Reading::Bound(bound) => annotate(alloc, t, bound),
    }
}

/// The effect, read so.
pub(crate) fn read_effect(
    alloc: Global,
    effect: &EffSet,
    reading: Reading,
) -> Result<EffSet, Memory>
    ensures { IfOk result (λ e. e ≡ effect_read reading.entry effect.now) }
{
    match reading {
        Reading::Same => effect.copy(),
        Reading::Replaced(by) => effect.substitute(by),
        Reading::Bare => Ok(EffSet::empty(alloc)),
        Reading::Bound(bound) => bound.copy(),
    }
}

/// The types, read so.
pub(crate) fn read_types(
    alloc: Global,
    types: &[TypeRef],
    reading: Reading,
) -> Result<TypeList, Memory>
    ensures { IfOk result (λ l. l ≡ map (type_read reading.entry) types.now) }
{
    let mut out = Items::new(alloc);
    for t in types {
        out.push(read_type(alloc, t, reading)?)?;
    }
    Ok(out)
}

/// The types with every declared type bare.
pub fn erase_types(alloc: Global, types: &[TypeRef]) -> Result<TypeList, Memory>
    ensures { IfOk result (λ l. l ≡ map erased types.now) }
{
    read_types(alloc, types, Reading::Bare)
}
