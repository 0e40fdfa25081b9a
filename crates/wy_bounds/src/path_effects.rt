//! The effects and the higher-order effects of a type.

ghost use Rattle.std.specs.Prelude.{◌↔◌, ℕ, IfOk, true, false};
ghost use Rattle.wy_text.specs.Members.{In as IsIn};
ghost use Rattle.wy_types.specs.Program.{program_of};
ghost use Rattle.wy_types.specs.Types.{methods_of};
ghost use Rattle.wy_types.specs.Fitting.{IsTypeOf};
ghost use Rattle.wy_types.specs.InRange.{IsInRange};
ghost use Rattle.wy_types.specs.Paths.{IsEffect};

use crate::matrix::Matrix;
use std::alloc::Global;
use wy_effects::set::EffSet;
use wy_text::text::Memory;
use wy_types::resolved::Core;
use wy_types::types::TypeRef;

/// A type's effects: those of all methods of the types that it reaches positively, itself among them
/// (docs/LANGUAGE.md, "Paths and polarity"). A base type has none. The core's signatures are in range,
/// as those of every resolved program are, and so are the numbers in the type; a declared type has a
/// set for each abstract member, or is bare.
pub fn effects(alloc: Global, core: &Core, scope: u16, t: &TypeRef) -> Result<EffSet, Memory>
    requires core { IsInRange (program_of core.now) }
    requires typ { IsTypeOf (program_of core.now) scope t.now }
    ensures { IfOk result (λ s. (a : ℕ) → IsIn a s ↔ IsEffect TypeRef (methods_of (program_of core.now) scope) t.now true a) }
{
    let matrix = Matrix::build(alloc, core, scope, t)?;
    Ok(matrix.effects())
}

/// A type's higher-order effects: those of all methods of the types that it reaches negatively
/// (docs/LANGUAGE.md, "Paths and polarity"). The conditions are those of `effects`.
pub fn ho_effects(alloc: Global, core: &Core, scope: u16, t: &TypeRef) -> Result<EffSet, Memory>
    requires core { IsInRange (program_of core.now) }
    requires typ { IsTypeOf (program_of core.now) scope t.now }
    ensures { IfOk result (λ s. (a : ℕ) → IsIn a s ↔ IsEffect TypeRef (methods_of (program_of core.now) scope) t.now false a) }
{
    let matrix = Matrix::build(alloc, core, scope, t)?;
    Ok(matrix.ho_effects())
}
