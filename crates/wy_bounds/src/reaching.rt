//! All that a type reaches, each type at each polarity once.

ghost use Rattle.std.specs.Prelude.{◌≡◌, ◌++◌, ◌≤◌, ◌<◌, [], true, IfOk, OnOk, map, length, reverse, List};
ghost use Rattle.wy_text.specs.Members.{In as IsIn};
ghost use Rattle.wy_types.specs.Program.{program_of};
ghost use Rattle.wy_types.specs.Types.{signature};
ghost use Rattle.wy_types.specs.Fitting.{IsTypeOf};
ghost use Rattle.wy_types.specs.InRange.{IsInRange};
ghost use Rattle.wy_bounds.specs.Table.{IsAdded};
ghost use Rattle.wy_bounds.specs.Worklist.{param_entries, method_entries, all_entries, IsSeen, Advances, IsWhole, Traces, GoesBack};

use crate::entry::Entry;
use crate::table::Table;
use std::alloc::Global;
use wy_text::text::{Memory, Text, from_bytes};
use wy_types::methods::methods;
use wy_types::path::{Part, Path, Step, reversed};
use wy_types::resolved::Core;
use wy_types::types::{Method, TypeRef};

/// Adds the types of a method's parameters, at the other polarity.
fn add_parameters(
    alloc: Global,
    into: &mut Vec<Entry>,
    name: &Text,
    params: &[TypeRef],
    at: usize,
    positive: bool,
) -> Result<(), Memory>
    requires { length params.now ≤ 16 }
    ensures { OnOk result (into.new.items ≡ into.old.items ++ param_entries at positive name.now 0 params.now) }
{
    for (i, t) in params.iter().enumerate() {
        into.push(Entry {
            typ: t.copy(alloc)?,
            positive: !positive,
            parent: at,
            step: Step {
                method: name.copy()?,
                part: Part::Parameter(i as u16),
            },
        })?;
    }
    Ok(())
}

/// Adds the types in a method's signature.
fn add_method(
    alloc: Global,
    into: &mut Vec<Entry>,
    m: &Method,
    at: usize,
    positive: bool,
) -> Result<(), Memory>
    requires { length m.now.params ≤ 16 }
    ensures { OnOk result (into.new.items ≡ into.old.items ++ method_entries at positive (signature m.now)) }
{
    add_parameters(alloc, into, &m.name, m.params.as_slice(), at, positive)?;
    into.push(Entry {
        typ: m.result.copy(alloc)?,
        positive,
        parent: at,
        step: Step {
            method: m.name.copy()?,
            part: Part::Result,
        },
    })?;
    Ok(())
}

/// The types in the signatures of the methods of the entry at a place, which has this polarity.
fn parts(alloc: Global, methods: &[Method], at: usize, positive: bool) -> Result<Vec<Entry>, Memory>
    requires { (m : Method) → IsIn m methods.now → length m.params ≤ 16 }
    ensures { IfOk result (λ v. v.items ≡ all_entries at positive (map signature methods.now)) }
{
    let mut out = Vec::new(alloc);
    for m in methods {
        add_method(alloc, &mut out, m, at, positive)?;
    }
    Ok(out)
}

/// Adds what the entry at a place goes to.
fn advance(
    alloc: Global,
    core: &Core,
    scope: u16,
    table: &mut Table,
    at: usize,
) -> Result<(), Memory>
    requires core { IsInRange (program_of core.now) }
    requires within { at < length table.old }
    ensures { OnOk result ((t : TypeRef) → IsSeen (program_of core.now) scope t table.old → Advances (program_of core.now) scope t table.old table.new at) }
{
    let entry = &table.as_slice()[at];
    let found = methods(alloc, core, scope, &entry.typ)?;
    let next = parts(alloc, found.as_slice(), at, entry.positive)?;
    table.add_all(next)?;
    Ok(())
}

/// The table of a type alone.
fn alone(alloc: Global, t: &TypeRef) -> Result<Table, Memory>
    ensures { IfOk result (λ table. (e : Entry) × (e.typ ≡ t.now) × (e.positive ≡ true) × IsAdded [] e table) }
{
    let typ = t.copy(alloc)?;
    let first = Entry {
        typ,
        positive: true,
        parent: 0,
        step: Step {
            method: from_bytes(alloc, b"")?,
            part: Part::Result,
        },
    };
    let mut table = Table::new(alloc);
    table.add(first)?;
    Ok(table)
}

/// All that a type reaches, and itself, each type at each polarity once.
pub fn all_reached(alloc: Global, core: &Core, scope: u16, t: &TypeRef) -> Result<Table, Memory>
    requires core { IsInRange (program_of core.now) }
    requires typ { IsTypeOf (program_of core.now) scope t.now }
    ensures { IfOk result (λ table. IsWhole (program_of core.now) scope t.now table) }
{
    let mut table = alone(alloc, t)?;
    let mut next = 0;
    while next < table.len() {
        advance(alloc, core, scope, &mut table, next)?;
        next += 1;
    }
    Ok(table)
}

/// The steps from a place back to the first.
fn steps_back(alloc: Global, entries: &[Entry], at: usize) -> Result<Vec<Step>, Memory>
    requires within { at < length entries.now }
    requires back { GoesBack entries.now }
    ensures { IfOk result (λ steps. Traces entries.now at steps.items) }
{
    let mut steps = Vec::new(alloc);
    let mut k = at;
    while k > 0 {
        let entry = &entries[k];
        steps.push(Step {
            method: entry.step.method.copy()?,
            part: entry.step.part,
        })?;
        k = entry.parent;
    }
    Ok(steps)
}

/// The path from the first entry to the one at a place.
pub fn path_to(alloc: Global, entries: &[Entry], at: usize) -> Result<Path, Memory>
    requires within { at < length entries.now }
    requires back { GoesBack entries.now }
    ensures { IfOk result (λ path. (steps : List Step) × Traces entries.now at steps × (path ≡ reverse steps)) }
{
    let steps = steps_back(alloc, entries, at)?;
    reversed(alloc, steps)
}
