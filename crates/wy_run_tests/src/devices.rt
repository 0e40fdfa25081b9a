//! What devices do, with expected answers from docs/LANGUAGE.md.

mod consoles;
mod folders;
mod numbers;
mod operations;

use std::alloc::Global;
use wy_device::deed::DeedList;
use wy_text::list::{CallList, Items};
use wy_text::text::Memory;

/// The list of one call that is to fail.
fn failing_at(alloc: Global, call: u64) -> Result<CallList, Memory> {
    let mut fails = Items::new(alloc);
    fails.push(call)?;
    Ok(fails)
}

/// Whether so many deeds are told, and the one with this number, counted from 0, as one that failed.
fn are_told(deeds: Option<&DeedList>, count: usize, failed: usize) -> bool {
    let Some(deeds) = deeds else {
        return false;
    };
    match deeds.get(failed) {
        Some(deed) => deeds.len() == count && deed.answer.is_none(),
        None => false,
    }
}
