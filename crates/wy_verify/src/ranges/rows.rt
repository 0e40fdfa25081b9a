//! The rows of bodies.

ghost use Rattle.std.specs.Prelude.{◌≡◌, ◌↔◌, ◌+◌, ◌≤◌, IsTrue, slice_get};
ghost use Rattle.wy_text.specs.Members.{In};
ghost use Rattle.wy_image.specs.declared.file.Row.{Row};
ghost use Rattle.wy_verified.specs.Ranges.{ConstantInRange, InstructionInRange, MadeInRange, RowInRange, value_count};
ghost use Rattle.wy_verify.specs.RangeParts.{IsFileNumber, IsNeedThere, needs_of};

use crate::ranges::needs::Need;
use wy_device::operation::LONGEST_TEXT;
use wy_image::{Body, Constant, ImageFile, Instruction, Row, Scope};

/// A body as it stands in a scope, with what the scope's literals need.
#[derive(Clone, Copy)]
pub(super) struct Standing<'a> {
    pub file: &'a ImageFile,
    pub scope: &'a Scope,
    pub needs: &'a [Need],
    pub owner: Option<usize>,
    pub body: &'a Body,
}

/// Whether a number is at most the sum of two numbers.
fn is_within_sum(count: usize, before: usize, fields: u32) -> bool
    ensures { IsTrue result ↔ (count ≤ before + fields) }
{
    count <= before || count - before <= fields as usize
}

/// Whether the object whose body it is has so many values.
fn has_values(scope: &Scope, owner: Option<usize>, count: usize) -> bool
    ensures { IsTrue result ↔ (count ≤ value_count scope.now owner) }
{
    match owner {
        None | Some(0) => is_within_sum(count, scope.arguments as usize, scope.fields),
        Some(l) => match scope.literals.get(l - 1) {
            Some(literal) => is_within_sum(count, literal.captures.len(), literal.fields),
            None => count == 0,
        },
    }
}

/// Whether a constant names what is there.
fn is_constant(file: &ImageFile, constant: &Constant) -> bool
    ensures { IsTrue result ↔ ConstantInRange file.now constant.now }
{
    match constant {
        Constant::Text(text) => text.as_bytes().len() <= LONGEST_TEXT,
        Constant::Grant(grant) => (*grant as usize) < file.grants.len(),
        Constant::Instance(instance) => (*instance as usize) < file.instances.len(),
        _ => true,
    }
}

/// Whether the body and its object have what a literal needs.
fn is_needed_there(standing: &Standing<'_>, need: Need) -> bool
    ensures { IsTrue result ↔ IsNeedThere standing.now.scope.now standing.now.owner standing.now.body.now need }
{
    need.slots <= standing.body.slots as usize
        && has_values(standing.scope, standing.owner, need.values)
}

/// Returns what the literal of a number needs.
fn need_at(needs: &[Need], literal: u32) -> Option<Need>
    ensures { result ≡ slice_get needs.now literal }
{
    needs.get(literal as usize).copied()
}

/// Whether a literal is there, with all that it captures.
fn is_made(standing: &Standing<'_>, literal: u32) -> bool
    requires { standing.now.needs.now ≡ needs_of standing.now.scope.now.literals }
    ensures { IsTrue result ↔ MadeInRange standing.now.file.now standing.now.scope.now standing.now.owner standing.now.body.now (slice_get standing.now.scope.now.literals literal) }
{
    match need_at(standing.needs, literal) {
        Some(need) => is_needed_there(standing, need),
        None => false,
    }
}

/// Whether an instruction names what is there.
fn is_instruction(standing: &Standing<'_>, instruction: &Instruction) -> bool
    requires { standing.now.needs.now ≡ needs_of standing.now.scope.now.literals }
    ensures { IsTrue result ↔ InstructionInRange standing.now.file.now standing.now.scope.now standing.now.owner standing.now.body.now instruction.now }
{
    match instruction {
        Instruction::Push(constant) => is_constant(standing.file, constant),
        Instruction::Load(slot) | Instruction::Store(slot) => *slot < standing.body.slots,
        Instruction::Get(value) | Instruction::Set(value) => {
            has_values(standing.scope, standing.owner, *value as usize + 1)
        }
        Instruction::Jump(to) | Instruction::JumpFalse(to) => {
            (*to as usize) < standing.body.rows.len()
        }
        Instruction::New(literal) => is_made(standing, *literal),
        Instruction::Call(method, _) => (*method as usize) < standing.file.methods.len(),
        _ => true,
    }
}

/// Whether a number is that of a file of the image, which count from 1.
fn is_file(file: &ImageFile, number: u32) -> bool
    ensures { IsTrue result ↔ IsFileNumber file.now number }
{
    number >= 1 && number as usize <= file.files.len()
}

/// Whether a row names a file of the image, and its instruction what is there.
fn is_row(standing: &Standing<'_>, row: &Row) -> bool
    requires { standing.now.needs.now ≡ needs_of standing.now.scope.now.literals }
    ensures { IsTrue result ↔ RowInRange standing.now.file.now standing.now.scope.now standing.now.owner standing.now.body.now row.now }
{
    if !is_file(standing.file, row.file) {
        return false;
    }
    is_instruction(standing, &row.instruction)
}

/// Whether all rows do.
pub(super) fn are_rows(standing: &Standing<'_>, rows: &[Row]) -> bool
    requires { standing.now.needs.now ≡ needs_of standing.now.scope.now.literals }
    ensures { IsTrue result ↔ ((r : Row) → In r rows.now → RowInRange standing.now.file.now standing.now.scope.now standing.now.owner standing.now.body.now r) }
{
    for row in rows {
        if !is_row(standing, row) {
            return false;
        }
    }
    true
}
