//! The walk through a body.

ghost use Rattle.std.specs.Prelude.{IfOk, OnOk};
ghost use Rattle.wy_verify.specs.Closing.{AreClosed};
ghost use Rattle.wy_verify.specs.Turns.{IsVerdict};

use crate::costs::cost_at;
use crate::pairs::Pairs;
use crate::site::Site;
use crate::tables::word;
use crate::verdict::Verdict;
use crate::visit::Visit;
use std::alloc::Global;
use wy_text::text::Memory;

/// Tests the rules at each instruction of a body, and returns the first one that fails, with its place. Fails only if
/// memory runs out.
pub fn walk(alloc: Global, site: &Site<'_>, pairs: &mut Pairs) -> Result<Verdict, Memory>
    requires { AreClosed site.now.image pairs.old }
    ensures verdict { IfOk result (IsVerdict site.now) }
    ensures kept { OnOk result (AreClosed site.now.image pairs.new) }
{
    let mut visit = Visit::new(alloc, site.len())?;
    for at in 0..site.len() {
        pairs.spend(cost_at(site, at))?;
        if let Some(rule) = visit.turn(site, pairs, at)? {
            return Ok(Verdict::Fails(rule, word(at)?));
        }
    }
    Ok(Verdict::Passes)
}
