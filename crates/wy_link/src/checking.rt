//! Checking a whole program: its modules, its limits, its lines and its own block, in this order (docs/LANGUAGE.md,
//! "First failing node" and "Limits").

ghost use Rattle.std.specs.Prelude.{◌≡◌, ◌-◌, length, OnOk, IfOk, IfErr};
ghost use Rattle.wy_types.specs.Program.{program_of};
ghost use Rattle.wy_rules.specs.Refusals.{the_program};
ghost use Rattle.wy_rules.specs.Resolved.{CoreKeeps};
ghost use Rattle.wy_rules.specs.Ends.{IsAccepted};
ghost use Rattle.wy_judge.specs.Checking.{IsRefusalOf, AreLocalsOf, PutsLists};
ghost use Rattle.wy_link.specs.Checking.{IsBeforeLines, IsCheckedProgram};

use crate::lines::judge_lines;
use crate::linking::{LinkRefusal, Links, link};
use crate::lists::listed;
use std::alloc::Global;
use wy_judge::{CheckRefusal, Judged, check_modules, judge_scope, keep_limit};
use wy_text::list::Items;
use wy_text::text::Memory;
use wy_types::linked::LocalsList;
use wy_types::resolved::Core;
use wy_types::types::TypeList;

/// What checking gives of a program that is accepted.
#[derive(Drop)]
pub struct CheckedProgram {
    pub links: Links,
    /// For each scope, by its number, the types of its `val`s, one for each, by their numbers.
    pub locals: LocalsList,
}

// ----------------------------------------------------------------------------
// Lists of types, one for each scope

/// An empty list for each of so many scopes.
fn empty_lists(alloc: Global, scopes: usize) -> Result<Vec<TypeList>, Memory>
    ensures { IfOk result (λ l. length l.items ≡ scopes) }
{
    let mut lists = Vec::new(alloc);
    for scope in 0..scopes {
        lists.push(Items::new(alloc))?;
    }
    Ok(lists)
}

// ----------------------------------------------------------------------------
// A whole program

/// Checks all lines and then the program's own block, and puts the types of the block's `val`s at its number.
fn check_rest(
    alloc: Global,
    core: &Core,
    last: u16,
    lists: &mut [TypeList],
) -> Result<(), CheckRefusal>
    requires keeps { CoreKeeps (program_of core.now) }
    requires before { IsBeforeLines (program_of core.now) }
    requires last { last ≡ length core.now.scopes - 1 }
    requires lists { length lists.old ≡ length core.now.scopes }
    ensures accepted { OnOk result (IsAccepted (program_of core.now)) }
    ensures refusal { IfErr result (λ r. IsRefusalOf (program_of core.now) r) }
    ensures puts { OnOk result (PutsLists (program_of core.now) the_program lists.old lists.new) }
{
    match judge_lines(alloc, core) {
        Ok(None) => (),
        Ok(Some(fault)) => return Err(CheckRefusal::Fails(fault)),
        Err(_) => return Err(CheckRefusal::Memory),
    }
    match judge_scope(alloc, core, last) {
        Ok(Judged::Passes(types)) => {
            lists[last as usize] = types;
            Ok(())
        }
        Ok(Judged::Fails(fault)) => Err(CheckRefusal::Fails(fault)),
        Err(_) => Err(CheckRefusal::Memory),
    }
}

/// Checks a program, and puts the types of each scope's `val`s at its number among these lists, of which there is one for
/// each scope.
fn check_into(alloc: Global, core: &Core, lists: &mut [TypeList]) -> Result<Links, CheckRefusal>
    requires keeps { CoreKeeps (program_of core.now) }
    requires lists { length lists.old ≡ length core.now.scopes }
    ensures accepted { IfOk result (λ l. IsCheckedProgram (program_of core.now) l) }
    ensures refusal { IfErr result (λ r. IsRefusalOf (program_of core.now) r) }
    ensures locals { OnOk result (AreLocalsOf (program_of core.now) lists.new) }
{
    check_modules(alloc, core, true, lists)?;
    check_modules(alloc, core, false, lists)?;
    let last = (core.scopes.len() - 1) as u16;
    keep_limit(alloc, core, last)?;
    let links = match link(alloc, core) {
        Ok(links) => links,
        Err(LinkRefusal::Limit(name)) => return Err(CheckRefusal::Limit(name)),
        Err(LinkRefusal::Memory) => return Err(CheckRefusal::Memory),
    };
    check_rest(alloc, core, last, lists)?;
    Ok(links)
}

/// Checks a program: its plain modules and its annotated ones, each in file order, the limits on the program's types and
/// on instances, all lines, and then its own block. It is accepted exactly where each of these is, and then its links
/// and the types of all its `val`s are given, over which each scope passes; else the refusal is the first one's, `Fails`
/// with a fault or `Limit` (docs/LANGUAGE.md, "First failing node" and "Limits").
pub fn check(alloc: Global, core: &Core) -> Result<CheckedProgram, CheckRefusal>
    requires { CoreKeeps (program_of core.now) }
    ensures accepted { IfOk result (λ c. IsCheckedProgram (program_of core.now) c.links) }
    ensures locals { IfOk result (λ c. AreLocalsOf (program_of core.now) c.locals) }
    ensures refusal { IfErr result (λ r. IsRefusalOf (program_of core.now) r) }
{
    let Ok(mut lists) = empty_lists(alloc, core.scopes.len()) else {
        return Err(CheckRefusal::Memory);
    };
    let links = check_into(alloc, core, lists.as_mut_slice())?;
    let Ok(locals) = listed(alloc, lists) else {
        return Err(CheckRefusal::Memory);
    };
    Ok(CheckedProgram { links, locals })
}
