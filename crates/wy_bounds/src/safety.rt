//! Whether a type is safe, and higher-order safe, for a set.

ghost use Rattle.std.specs.Prelude.{◌↔◌, IfOk, true, false};
ghost use Rattle.wy_effects.specs.Bounds.{IsUnder};
ghost use Rattle.wy_types.specs.declared.types.TypeRef.{TypeRef};
ghost use Rattle.wy_types.specs.Program.{program_of};
ghost use Rattle.wy_types.specs.Bounds.{bounds_of};
ghost use Rattle.wy_types.specs.Types.{methods_of};
ghost use Rattle.wy_types.specs.Fitting.{IsTypeOf};
ghost use Rattle.wy_types.specs.InRange.{IsInRange};
ghost use Rattle.wy_types.specs.Paths.{IsSafe};
ghost use Rattle.wy_bounds.specs.Matrix.{IsMatrix};
ghost use Rattle.wy_bounds.specs.Safety.{IsAnswer, IsYes};

use crate::least::least_lack;
use crate::matrix::Matrix;
use crate::reaching::path_to;
use std::alloc::Global;
use wy_effects::atom::Atom;
use wy_effects::set::EffSet;
use wy_text::text::Memory;
use wy_types::path::Path;
use wy_types::resolved::Core;
use wy_types::types::TypeRef;

/// What the tests of safety answer.
#[derive(Drop, PartialEq, Eq)]
pub enum Safety {
    Yes,
    /// The path leads from the type to one that has a method whose effect lacks the atom, the least
    /// one of the set that any such method lacks.
    No { path: Path, atom: Atom },
}

/// The answer by the matrix of a type.
fn answer_by(
    alloc: Global,
    core: &Core,
    scope: u16,
    matrix: &Matrix,
    e: &EffSet,
    positive: bool,
) -> Result<Safety, Memory>
    requires core { IsInRange (program_of core.now) }
    requires built { (t : TypeRef) × IsMatrix (program_of core.now) scope t matrix.now }
    ensures { IfOk result (λ v. (t : TypeRef) → IsMatrix (program_of core.now) scope t matrix.now → IsAnswer (program_of core.now) scope t positive e.now v) }
{
    e.is_set();
    if matrix.is_safe_at(positive, e) {
        return Ok(Safety::Yes);
    }
    match least_lack(alloc, core, scope, matrix.entries(), positive, e)? {
        None => Ok(Safety::Yes),
        Some(lack) => {
            let path = path_to(alloc, matrix.entries(), lack.at)?;
            Ok(Safety::No {
                path,
                atom: lack.atom,
            })
        }
    }
}

/// Whether the set is in the effect of each method of what the type reaches at a polarity.
fn is_safe(
    alloc: Global,
    core: &Core,
    scope: u16,
    t: &TypeRef,
    e: &EffSet,
    positive: bool,
) -> Result<Safety, Memory>
    requires core { IsInRange (program_of core.now) }
    requires typ { IsTypeOf (program_of core.now) scope t.now }
    ensures { IfOk result (λ v. IsAnswer (program_of core.now) scope t.now positive e.now v) }
{
    let matrix = Matrix::build(alloc, core, scope, t)?;
    answer_by(alloc, core, scope, &matrix, e, positive)
}

/// Whether a type is safe for a set: whether the set is in the effect of every method of the types
/// that it reaches positively, itself among them (docs/LANGUAGE.md, "Paths and polarity"). A base type
/// is safe. `No` comes exactly where the type is not; its path is positive and leads to a type that has
/// a method which lacks the atom, the least one of the set that any such method lacks. The conditions
/// are those of `effects`.
pub fn safe(
    alloc: Global,
    core: &Core,
    scope: u16,
    t: &TypeRef,
    e: &EffSet,
) -> Result<Safety, Memory>
    requires core { IsInRange (program_of core.now) }
    requires typ { IsTypeOf (program_of core.now) scope t.now }
    ensures exact { IfOk result (λ v. IsYes v ↔ IsSafe TypeRef (methods_of (program_of core.now) scope) (IsUnder (bounds_of (program_of core.now) scope)) t.now true e.now) }
    ensures answer { IfOk result (λ v. IsAnswer (program_of core.now) scope t.now true e.now v) }
{
    is_safe(alloc, core, scope, t, e, true)
}

/// Whether a type is higher-order safe for a set: as `safe`, over what it reaches negatively, and by a
/// negative path.
pub fn ho_safe(
    alloc: Global,
    core: &Core,
    scope: u16,
    t: &TypeRef,
    e: &EffSet,
) -> Result<Safety, Memory>
    requires core { IsInRange (program_of core.now) }
    requires typ { IsTypeOf (program_of core.now) scope t.now }
    ensures exact { IfOk result (λ v. IsYes v ↔ IsSafe TypeRef (methods_of (program_of core.now) scope) (IsUnder (bounds_of (program_of core.now) scope)) t.now false e.now) }
    ensures answer { IfOk result (λ v. IsAnswer (program_of core.now) scope t.now false e.now v) }
{
    is_safe(alloc, core, scope, t, e, false)
}
