//! Checking: a scope within the limit on its types, and the modules of a program in their order.

ghost use Rattle.std.specs.Prelude.{◌≡◌, ◌<◌, length, slice_set, OnOk, IfOk, IfErr};
ghost use Rattle.wy_types.specs.Program.{program_of};
ghost use Rattle.wy_rules.specs.Refusals.{turn_of, is_its_turn, scopes_of};
ghost use Rattle.wy_rules.specs.Ends.{ReachesTooMany, AllGoOn};
ghost use Rattle.wy_rules.specs.Resolved.{CoreKeeps};
ghost use Rattle.wy_judge.specs.Checking.{IsChecked, IsLimitRefusal, IsCheckRefusal, module_turn, IsFirstRefusal, PutsLists};

use crate::scopes::{Judged, judge_scope};
use std::alloc::Global;
use wy_text::fault::Fault;
use wy_text::limit::LimitName;
use wy_text::text::Memory;
use wy_types::reach::{ReachRefusal, reach};
use wy_types::resolved::{Core, ScopeKind};
use wy_types::types::TypeList;

/// A scope every node of which has a derivation.
#[derive(Drop)]
pub struct Checked {
    /// The scope's number among the scopes of the program.
    pub scope: u16,
    /// The types of its `val`s, one for each, by their numbers.
    pub locals: TypeList,
}

/// Why a scope, or a program, is not accepted.
#[derive(Drop)]
pub enum CheckRefusal {
    /// The first failing node.
    Fails(Fault),
    /// A scope reaches more than 1,024 types.
    Limit(LimitName),
    /// Memory was wanting.
    Memory,
}

/// The limit on the types that a scope reaches: `Limit` comes exactly where it reaches more than 1,024 object types
/// (docs/LANGUAGE.md, "Limits").
pub fn keep_limit(alloc: Global, core: &Core, scope: u16) -> Result<(), CheckRefusal>
    ensures within { OnOk result (ReachesTooMany (program_of core.now) scope → ⊥) }
    ensures refusal { IfErr result (λ r. IsLimitRefusal (program_of core.now) scope r) }
{
    match reach(alloc, core, scope) {
        Ok(_) => Ok(()),
        Err(ReachRefusal::Limit(name)) => Err(CheckRefusal::Limit(name)),
        Err(ReachRefusal::Memory) => Err(CheckRefusal::Memory),
    }
}

/// Checks the scope of a number, a module or the program's own block, but for its lines. `Limit` comes exactly where
/// it reaches more than 1,024 object types, and before `Fails`, which comes exactly where some node has no derivation
/// and carries the first such node (docs/LANGUAGE.md, "First failing node" and "Limits").
pub fn check_scope(alloc: Global, core: &Core, scope: u16) -> Result<Checked, CheckRefusal>
    requires keeps { CoreKeeps (program_of core.now) }
    requires there { scope < length core.now.scopes }
    ensures passes { IfOk result (λ c. IsChecked (program_of core.now) scope c) }
    ensures refusal { IfErr result (λ r. IsCheckRefusal (program_of core.now) scope r) }
{
    keep_limit(alloc, core, scope)?;
    match judge_scope(alloc, core, scope) {
        Ok(Judged::Passes(locals)) => Ok(Checked { scope, locals }),
        Ok(Judged::Fails(fault)) => Err(CheckRefusal::Fails(fault)),
        Err(_) => Err(CheckRefusal::Memory),
    }
}

/// Whether a scope of this kind is a plain module, or else an annotated one.
fn is_its_turn(kind: ScopeKind, plain: bool) -> bool
    ensures { result ≡ is_its_turn (module_turn plain) (turn_of kind) }
{
    match kind {
        ScopeKind::Pure | ScopeKind::Resource => !plain,
        ScopeKind::Plain => plain,
        ScopeKind::Program => false,
    }
}

/// Puts the types of a scope's `val`s at its number.
fn put_list(lists: &mut [TypeList], number: usize, checked: Checked)
    requires { number < length lists.old }
    ensures { lists.new ≡ slice_set lists.old number checked.locals }
{
    lists[number] = checked.locals;
}

/// Checks the plain modules, or the annotated ones, in file order, and puts the types of each one's `val`s at its number
/// among these lists, of which there is one for each scope; the other lists stay. The refusal is that of the first which is
/// refused; the limit on a module's types comes before its faults (docs/LANGUAGE.md, "First failing node" and "Limits").
pub fn check_modules(
    alloc: Global,
    core: &Core,
    plain: bool,
    lists: &mut [TypeList],
) -> Result<(), CheckRefusal>
    requires keeps { CoreKeeps (program_of core.now) }
    requires lists { length lists.old ≡ length core.now.scopes }
    ensures all { OnOk result (AllGoOn (program_of core.now) (scopes_of (module_turn plain) 0 (program_of core.now).scopes)) }
    ensures first { IfErr result (λ r. IsFirstRefusal (program_of core.now) (scopes_of (module_turn plain) 0 (program_of core.now).scopes) r) }
    ensures puts { OnOk result (PutsLists (program_of core.now) (module_turn plain) lists.old lists.new) }
{
    let scopes = core.scopes.as_slice();
    for number in 0..scopes.len() {
        if is_its_turn(scopes[number].kind, plain) {
            let checked = check_scope(alloc, core, number as u16)?;
            put_list(lists, number, checked);
        }
    }
    Ok(())
}
