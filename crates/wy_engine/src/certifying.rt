//! Certificates: writes one of an accepted program, and checks whether one proves a program.

ghost use Rattle.std.specs.Prelude.{◌≡◌, map};
ghost use Rattle.wy_syntax.specs.Views.{file_tree};
ghost use Rattle.wy_engine.specs.Answering.{CertifiesTrees, RechecksTrees, certify_status, recheck_status};

use crate::checking::judge_trees;
use crate::judging::names_status;
use crate::status::Status;
use crate::writing::write_out;
use std::alloc::Global;
use wy_certify::{CertifyRefusal, certify};
use wy_names::resolve;
use wy_recheck::{CertRefusal, recheck};
use wy_syntax::items::Tree;
use wy_text::sink::Sink;
use wy_well_formed::resolved_is_core;

/// Returns the status of a call that writes no certificate. It takes no memory.
fn certify_status(why: CertifyRefusal) -> Status
    ensures { result ≡ certify_status why }
{
    match why {
        CertifyRefusal::Limit(name) => Status::Limit(name),
        CertifyRefusal::Memory => Status::Memory,
    }
}

/// Checks trees. If their program is accepted, writes a certificate of it to `out` (docs/LANGUAGE.md, "Certificates").
pub fn certify_trees<O: Sink>(alloc: Global, trees: &[Tree], out: &mut O) -> Status
    ensures { CertifiesTrees (map file_tree trees.now) (O.state out.old) (O.state out.new) result }
{
    resolved_is_core();
    let accepted = match judge_trees(alloc, trees) {
        Ok(accepted) => accepted,
        Err(end) => return end,
    };
    match certify(alloc, &accepted.core) {
        Ok(text) => write_out(out, text.as_bytes()),
        Err(why) => certify_status(why),
    }
}

/// Returns the status of a call whose certificate does not prove the program. It takes no memory.
fn recheck_status(why: CertRefusal) -> Status
    ensures { result ≡ recheck_status why }
{
    match why {
        CertRefusal::BadCert(at) => Status::BadCert { at },
        CertRefusal::Unproved { scope, test, index } => Status::Unproved { scope, test, index },
        CertRefusal::Memory => Status::Memory,
    }
}

/// Resolves the names in trees. If the bytes are a certificate that proves their program, says so on `out`. Nothing else is checked
/// of the program (docs/LANGUAGE.md, "Certificates").
pub fn recheck_trees<O: Sink>(alloc: Global, trees: &[Tree], bytes: &[u8], out: &mut O) -> Status
    ensures { RechecksTrees bytes.now (map file_tree trees.now) (O.state out.old) (O.state out.new) result }
{
    resolved_is_core();
    let core = match resolve(alloc, trees) {
        Ok(core) => core,
        Err(why) => return names_status(why),
    };
    match recheck(alloc, &core, bytes) {
        Ok(()) => write_out(out, b"proved\n"),
        Err(why) => recheck_status(why),
    }
}
