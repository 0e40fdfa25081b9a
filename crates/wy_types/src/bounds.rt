//! The upper bounds of members and of atoms, and effect sets over them.

ghost use Rattle.std.specs.Prelude.{◌≡◌, slice_get};
ghost use Rattle.wy_effects.specs.Bounds.{IsWidened};
ghost use Rattle.wy_effects.specs.Widened.{widened_set};
ghost use Rattle.wy_types.specs.Program.{program_of};
ghost use Rattle.wy_types.specs.Bounds.{bounds_of, declared_bounds, type_bounds};
ghost use Rattle.wy_types.specs.InRange.{IsInRange};

use crate::resolved::Core;
use crate::types::TypeRef;
use wy_effects::set::EffSet;

/// The upper bounds of a scope's atoms; none where there is no such scope.
fn bounds(core: &Core, scope: u16) -> &[Option<EffSet>]
    ensures { result.now ≡ bounds_of (program_of core.now) scope }
{
    match core.scopes.get(scope as usize) {
        Some(s) => s.bounds.as_slice(),
        None => &[],
    }
}

/// The upper bounds of the abstract members of a declaration, by its number. It takes no memory.
pub fn declared_bounds(core: &Core, decl: u16) -> &[Option<EffSet>]
    ensures { result.now ≡ declared_bounds (program_of core.now) decl }
{
    match core.declarations.get(decl as usize) {
        Some(d) => d.bounds.as_slice(),
        None => &[],
    }
}

/// The upper bounds of the abstract members of a declared type; other types have none. It takes no memory.
pub fn type_bounds<'a>(core: &'a Core, typ: &TypeRef) -> &'a [Option<EffSet>]
    ensures { result.now ≡ type_bounds (program_of core.now) typ.now }
{
    match typ {
        TypeRef::Int | TypeRef::Bool | TypeRef::Text | TypeRef::Unit | TypeRef::Own { .. } => &[],
        TypeRef::Named { decl, .. } | TypeRef::At { decl, .. } => declared_bounds(core, *decl),
    }
}

/// The atoms of a scope that are within a set: its own, and each whose upper bound is within it; the set itself where there
/// is no such scope (docs/LANGUAGE.md, "Effects"). It takes no memory.
pub fn widened(core: &Core, scope: u16, set: &EffSet) -> EffSet
    requires { IsInRange (program_of core.now) }
    ensures set { result ≡ widened_set (bounds_of (program_of core.now) scope) set.now }
    ensures exact { IsWidened (bounds_of (program_of core.now) scope) set.now result }
{
    set.widened(bounds(core, scope))
}
