//! V-Flow at an instruction.

ghost use Rattle.std.specs.Prelude.{◌≡◌, ◌↔◌, ◌<◌, List, length, IsTrue};
ghost use Rattle.wy_verified.specs.declared.known.Jumped.{Jumped};
ghost use Rattle.wy_verify.specs.Sites.{AreNoted};
ghost use Rattle.wy_verify.specs.Turns.{IsForward, IsEnd, StaysInside, TellsFlow};

use crate::jumps::Jumps;
use crate::site::Site;
use wy_code::instruction::Instruction;

/// Whether a jump goes forward to a stated target.
fn goes_forward(site: &Site<'_>, at: usize, to: usize) -> bool
    ensures { IsTrue result ↔ IsForward site.now at to }
{
    at < to && to < site.len() && site.target(to).is_some()
}

/// Whether what comes after an instruction that does not go on to it is the end, or a jump has led there.
fn ends(site: &Site<'_>, jumps: &Jumps, at: usize) -> bool
    requires { at < length site.now.body.instructions }
    ensures { (js : List Jumped) → AreNoted jumps.now js → (IsTrue result ↔ IsEnd site.now at js) }
{
    let len = site.len();
    at + 1 == len || jumps.has(at + 1)
}

/// Whether V-Flow holds at an instruction.
pub fn flow_passes(site: &Site<'_>, jumps: &Jumps, at: usize, instruction: Instruction) -> bool
    requires { at < length site.now.body.instructions }
    ensures decided { TellsFlow site.now jumps.now at instruction result }
    ensures inside { IsTrue result → StaysInside site.now instruction }
{
    let len = site.len();
    match instruction {
        Instruction::Jump(to) => {
            goes_forward(site, at, to as usize) && (to as usize == at + 1 || ends(site, jumps, at))
        }
        Instruction::JumpFalse(to) => goes_forward(site, at, to as usize) && at + 1 < len,
        Instruction::Return => site.owner().is_some() && ends(site, jumps, at),
        Instruction::Finish => site.owner().is_none() && ends(site, jumps, at),
        _ => at + 1 < len,
    }
}
