//! Checks an accepted program against a policy.

ghost use Rattle.std.specs.Prelude.{◌≡◌, map};
ghost use Rattle.wy_link.specs.Checking.{IsCheckedProgram};
ghost use Rattle.wy_syntax.specs.Views.{file_tree};
ghost use Rattle.wy_types.specs.Program.{program_of};
ghost use Rattle.wy_engine.specs.Answering.{JudgesByPolicy, JudgesTreesByPolicy, policy_status};

use crate::checking::{Accepted, authority_of, judge_trees};
use crate::status::Status;
use crate::writing::write_out;
use std::alloc::Global;
use wy_policy::{Judgement, PolicyRefusal, judge, read_policy};
use wy_syntax::items::Tree;
use wy_text::sink::Sink;

/// Returns the status of a call whose policy is refused. It takes no memory.
fn policy_status(why: PolicyRefusal) -> Status
    ensures { result ≡ policy_status why }
{
    match why {
        PolicyRefusal::Limit(name) => Status::Limit(name),
        PolicyRefusal::BadPolicy(line) => Status::BadPolicy { line },
        PolicyRefusal::Memory => Status::Memory,
    }
}

/// Checks an accepted program against the policy in these bytes. If it keeps to the policy, says so on `out`.
fn permit_accepted<O: Sink>(alloc: Global, accepted: &Accepted, bytes: &[u8], out: &mut O) -> Status
    requires { IsCheckedProgram (program_of accepted.now.core) accepted.now.links }
    ensures { JudgesByPolicy bytes.now (program_of accepted.now.core) (O.state out.old) (O.state out.new) result }
{
    let policy = match read_policy(alloc, bytes) {
        Ok(policy) => policy,
        Err(why) => return policy_status(why),
    };
    let Ok(authority) = authority_of(alloc, accepted) else {
        return Status::Memory;
    };
    match judge(alloc, &policy, &authority) {
        Ok(Judgement::Allowed) => write_out(out, b"allowed\n"),
        Ok(
            Judgement::Denied {
                line,
                instance,
                atom,
            },
        ) => Status::Denied {
            line,
            instance,
            atom,
        },
        Err(_) => Status::Memory,
    }
}

/// Checks trees. If their program is accepted, checks it against the policy in these bytes (docs/LANGUAGE.md, "Policies").
pub fn permit_trees<O: Sink>(alloc: Global, trees: &[Tree], bytes: &[u8], out: &mut O) -> Status
    ensures { JudgesTreesByPolicy bytes.now (map file_tree trees.now) (O.state out.old) (O.state out.new) result }
{
    match judge_trees(alloc, trees) {
        Ok(accepted) => permit_accepted(alloc, &accepted, bytes, out),
        Err(end) => end,
    }
}
