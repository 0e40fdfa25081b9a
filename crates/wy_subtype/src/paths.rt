//! Paths from the first pair of a list to a later one.

ghost use Rattle.std.specs.Prelude.{◌≡◌, ◌<◌, IfOk, length, reverse};
ghost use Rattle.wy_types.specs.Program.{program_of};
ghost use Rattle.wy_types.specs.InRange.{IsInRange};
ghost use Rattle.wy_subtype.specs.Graph.{mets_in, AreNumbers};
ghost use Rattle.wy_subtype.specs.Worklist.{IsSeen, Traces, IsPathTo};

use crate::entry::{Entry, entry_at};
use crate::graph::Graph;
use std::alloc::Global;
use wy_text::text::Memory;
use wy_types::path::{Path, Step, reversed};

/// The steps from a place back to the first.
fn steps_back(graph: &Graph<'_>, work: &[Entry], at: usize) -> Result<Vec<Step>, Memory>
    requires core { IsInRange (program_of graph.now.core.now) }
    requires numbers { AreNumbers graph.now work.now }
    requires seen { IsSeen (program_of graph.now.core.now) graph.now.scope graph.now.mode (mets_in graph.now work.now) }
    requires within { at < length work.now }
    ensures { IfOk result (λ steps. Traces (program_of graph.now.core.now) graph.now.scope graph.now.mode (mets_in graph.now work.now) at steps.items) }
{
    let mut steps = Vec::new(graph.alloc);
    let mut k = at;
    while k > 0 {
        let entry = entry_at(work, k);
        let parent = entry_at(work, entry.parent);
        let step = graph.step_between(parent.node, entry.node)?;
        steps.push(step)?;
        k = entry.parent;
    }
    Ok(steps)
}

/// The path from the first pair of a list to the one at a place.
pub fn path_to(graph: &Graph<'_>, work: &[Entry], at: usize) -> Result<Path, Memory>
    requires core { IsInRange (program_of graph.now.core.now) }
    requires numbers { AreNumbers graph.now work.now }
    requires seen { IsSeen (program_of graph.now.core.now) graph.now.scope graph.now.mode (mets_in graph.now work.now) }
    requires within { at < length work.now }
    ensures { IfOk result (IsPathTo (program_of graph.now.core.now) graph.now.scope graph.now.mode (mets_in graph.now work.now) at) }
{
    let steps = steps_back(graph, work, at)?;
    reversed(graph.alloc, steps)
}
