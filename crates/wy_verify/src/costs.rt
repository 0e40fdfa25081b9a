//! What it costs to test the rules at an instruction, in units of work.

ghost use Rattle.std.specs.Prelude.{◌<◌, length};

use crate::site::Site;
use wy_code::instruction::Instruction;
use wy_image::Target;

/// What each instruction costs.
const TURN: usize = 16;

/// What a target costs: a unit for each operand and each stored slot.
fn target_cost(target: Option<&Target>) -> usize {
    match target {
        Some(target) => target.operands.len().saturating_add(target.stored.len()),
        None => 0,
    }
}

/// What a jump to an address costs.
fn jump_cost(site: &Site<'_>, to: usize) -> usize {
    if to < site.len() {
        target_cost(site.target(to))
    } else {
        0
    }
}

/// What the captured values of a literal cost: a unit for each.
fn literal_cost(site: &Site<'_>, literal: u32) -> usize {
    match site.literal(literal) {
        Some(found) => found.captures.len(),
        None => 0,
    }
}

/// Returns what the instruction at an address costs, and the target there.
pub(crate) fn cost_at(site: &Site<'_>, at: usize) -> usize
    requires { at < length site.now.body.instructions }
{
    let more = match site.instruction(at) {
        Instruction::Jump(to) | Instruction::JumpFalse(to) => jump_cost(site, to as usize),
        Instruction::New(literal) => literal_cost(site, literal),
        _ => 0,
    };
    TURN.saturating_add(jump_cost(site, at))
        .saturating_add(more)
}
