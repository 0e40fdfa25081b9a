//! What literals need where they are made.

ghost use Rattle.std.specs.Prelude.{◌≡◌, max, IfOk};
ghost use Rattle.wy_verify.specs.RangeParts.{need_of, needs_of, slot_needed, value_needed};

use std::alloc::Global;
use wy_image::{Capture, Literal};
use wy_text::text::Memory;

/// How many slots of the body and how many values of the current object the captured values of a literal need.
#[derive(Clone, Copy)]
pub(super) struct Need {
    pub slots: usize,
    pub values: usize,
}

/// Returns how many slots a captured value needs.
fn slot_needed(capture: Capture) -> usize
    ensures { result ≡ slot_needed capture }
{
    match capture {
        Capture::Slot(slot) => slot as usize + 1,
        Capture::Value(_) => 0,
    }
}

/// Returns how many values of the current object a captured value needs.
fn value_needed(capture: Capture) -> usize
    ensures { result ≡ value_needed capture }
{
    match capture {
        Capture::Slot(_) => 0,
        Capture::Value(value) => value as usize + 1,
    }
}

/// Returns the greater of two numbers.
fn greater(first: usize, second: usize) -> usize
    ensures { result ≡ max first second }
{
    if first < second { second } else { first }
}

/// Returns what captured values need.
fn need_of(captures: &[Capture]) -> Need
    ensures { result ≡ need_of captures.now }
{
    let mut slots = 0;
    let mut values = 0;
    for capture in captures {
        slots = greater(slot_needed(*capture), slots);
        values = greater(value_needed(*capture), values);
    }
    Need { slots, values }
}

/// Returns what literals need where they are made.
pub(super) fn needs_of(alloc: Global, literals: &[Literal]) -> Result<Vec<Need>, Memory>
    ensures { IfOk result (λ v. v.items ≡ needs_of literals.now) }
{
    let mut needs = Vec::new(alloc);
    for literal in literals {
        needs.push(need_of(literal.captures.as_slice()))?;
    }
    Ok(needs)
}
