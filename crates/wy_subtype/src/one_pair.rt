ghost use Rattle.std.specs.Prelude.{◌↔◌, IfOk};
ghost use Rattle.wy_types.specs.Program.{program_of};
ghost use Rattle.wy_types.specs.Fitting.{IsTypeOf};
ghost use Rattle.wy_types.specs.InRange.{IsInRange};
ghost use Rattle.wy_subtype.specs.Verdict.{IsVerdict, IsYes, IsSubtypeIn};

use crate::pair_table::PairTable;
use crate::verdict::{Mode, Verdict};
use std::alloc::Global;
use wy_text::text::Memory;
use wy_types::resolved::Core;
use wy_types::types::TypeRef;

/// Whether the first type is a subtype of the second in a scope, in a mode (docs/LANGUAGE.md,
/// "Subtyping"). `No` comes exactly where it is not; its path leads from the two types,
/// with the sides exchanged at each parameter, to a pair that fails by itself by the cause. The
/// core's signatures are in range, as those of every resolved program are. The numbers in both types
/// are in range in the scope, and a declared type has a set for each abstract member, or is bare.
/// Whoever asks many pairs asks a `PairTable`, which this makes anew.
pub fn subtype(
    alloc: Global,
    core: &Core,
    scope: u16,
    s: &TypeRef,
    t: &TypeRef,
    mode: Mode,
) -> Result<Verdict, Memory>
    requires core { IsInRange (program_of core.now) }
    requires left { IsTypeOf (program_of core.now) scope s.now }
    requires right { IsTypeOf (program_of core.now) scope t.now }
    ensures exact { IfOk result (λ v. IsYes v ↔ IsSubtypeIn (program_of core.now) scope mode s.now t.now) }
    ensures verdict { IfOk result (λ v. IsVerdict (program_of core.now) scope mode (s.now, t.now) v) }
{
    let mut table = PairTable::new(alloc, core, scope, mode);
    table.verdict(s, t)
}
