ghost use Rattle.std.specs.Prelude.{◌≡◌, map, IfOk, IfErr};
ghost use Rattle.std.specs.Option.{IfSome};
ghost use Rattle.wy_authority.specs.Authority.{authority_of};
ghost use Rattle.wy_syntax.specs.Views.{file_tree};
ghost use Rattle.wy_types.specs.Program.{program_of};
ghost use Rattle.wy_symbols.specs.Declarations.{all_items};
ghost use Rattle.wy_names.specs.Names.{Resolves};
ghost use Rattle.wy_link.specs.Checking.{IsCheckedProgram};
ghost use Rattle.wy_engine.specs.Answering.{ChecksTrees, FailsCheck, check_status};
ghost use Rattle.wy_engine.specs.Judgement.{accepted_text, authority_text, body_lines};

use crate::judging::names_status;
use crate::status::Status;
use crate::writing::{write_out, write_report_out};
use std::alloc::Global;
use wy_authority::{Authority, InstanceRow, authority};
use wy_judge::CheckRefusal;
use wy_link::{Links, check};
use wy_names::resolve;
use wy_syntax::items::Tree;
use wy_text::sink::Sink;
use wy_text::text::Memory;
use wy_types::resolved::Core;
use wy_well_formed::resolved_is_kept;

/// An accepted program with its links.
#[derive(Drop)]
pub struct Accepted {
    pub core: Core,
    pub links: Links,
}

/// Returns the status of a call whose program is not accepted. It takes no memory.
fn check_status(why: CheckRefusal) -> Status
    ensures { result ≡ check_status why }
{
    match why {
        CheckRefusal::Fails(fault) => Status::Refused(fault),
        CheckRefusal::Limit(name) => Status::Limit(name),
        CheckRefusal::Memory => Status::Memory,
    }
}

/// Resolves the names in the trees of texts and checks their program. Returns the program with its links if it is accepted.
///
/// # Errors
///
/// The status that ends the call: Refused or Limit if the names or the program are refused, Memory if memory ran out
/// (docs/LANGUAGE.md, "Names" and "What is checked").
pub fn judge_trees(alloc: Global, trees: &[Tree]) -> Result<Accepted, Status>
    ensures resolved { IfOk result (λ a. Resolves (all_items (map file_tree trees.now)) (program_of a.core)) }
    ensures accepted { IfOk result (λ a. IsCheckedProgram (program_of a.core) a.links) }
    ensures fails { IfErr result (λ end. FailsCheck (map file_tree trees.now) end) }
{
    resolved_is_kept();
    let core = match resolve(alloc, trees) {
        Ok(core) => core,
        Err(why) => return Err(names_status(why)),
    };
    match check(alloc, &core) {
        Ok(checked) => Ok(Accepted {
            core,
            links: checked.links,
        }),
        Err(why) => Err(check_status(why)),
    }
}

/// Checks trees. If their program is accepted, says so on `out`.
pub fn check_trees<O: Sink>(alloc: Global, trees: &[Tree], out: &mut O) -> Status
    ensures { ChecksTrees (λ program. accepted_text) (map file_tree trees.now) (O.state out.old) (O.state out.new) result }
{
    match judge_trees(alloc, trees) {
        Ok(_) => write_out(out, b"accepted\n"),
        Err(end) => end,
    }
}

/// Returns the authority of an accepted program.
pub fn authority_of(alloc: Global, accepted: &Accepted) -> Result<Authority, Memory>
    requires { IsCheckedProgram (program_of accepted.now.core) accepted.now.links }
    ensures { IfOk result (λ a. a ≡ authority_of (program_of accepted.now.core)) }
{
    let links = &accepted.links;
    authority(
        alloc,
        &accepted.core,
        links.instances.as_slice(),
        links.sets.as_slice(),
    )
}

/// Returns how many lines of bodies these rows have; `None` if there are more than 2 ^ 64 - 1, which no memory holds.
pub fn body_lines(rows: &[InstanceRow]) -> Option<u64>
    ensures { IfSome result (λ n. n ≡ body_lines rows.now) }
{
    let Some((row, rest)) = rows.split_first() else {
        return Some(0);
    };
    body_lines(rest)?.checked_add(row.bodies.len() as u64)
}

/// Checks trees. If their program is accepted, writes the report of its authority to `out` (docs/LANGUAGE.md, "Authority and
/// report").
pub fn report_trees<O: Sink>(alloc: Global, trees: &[Tree], out: &mut O) -> Status
    ensures { ChecksTrees authority_text (map file_tree trees.now) (O.state out.old) (O.state out.new) result }
{
    let accepted = match judge_trees(alloc, trees) {
        Ok(accepted) => accepted,
        Err(end) => return end,
    };
    let Ok(authority) = authority_of(alloc, &accepted) else {
        return Status::Memory;
    };
    write_report_out(alloc, out, &authority)
}
