//! Which modules are reached from a module by lines and uses.

ghost use Rattle.std.specs.Prelude.{◌≡◌, ◌<◌, ◌↔◌, ℕ, false, length, slice_index_or, IfOk, IsTrue};
ghost use Rattle.wy_heads.specs.Leading.{next_from, Reached, LeadsInside};

use crate::marked::{Marked, Marks};
use std::alloc::Global;
use wy_text::list::Items;
use wy_text::text::Memory;

/// The modules that a module leads to.
fn next_from<'a>(edges: &'a [Items<usize>], k: usize) -> &'a [usize]
    ensures { result.now ≡ next_from edges.now k }
{
    match edges.get(k) {
        Some(targets) => targets.as_slice(),
        None => &[],
    }
}

/// The marks of the modules that are reached from a module, itself among them.
pub fn reached_from(alloc: Global, edges: &[Items<usize>], start: usize) -> Result<Marks, Memory>
    requires there { start < length edges.now }
    requires inside { LeadsInside edges.now }
    ensures { IfOk result (λ ms. (k : ℕ) → IsTrue (slice_index_or ms k false) ↔ Reached edges.now start k) }
{
    let mut seen = Marked::new(alloc, edges.len())?;
    seen.add(start)?;
    let mut next = 0;
    while next < seen.as_slice().len() {
        let from = seen.as_slice()[next];
        seen.add_all(next_from(edges, from))?;
        next += 1;
    }
    Ok(seen.into_marks())
}
