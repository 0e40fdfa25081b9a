//! What walks come to.

use wy_verified::VerifyRule;

/// What a walk through a body comes to: every rule holds, or the first one that does not and the place of its
/// instruction.
#[derive(Clone, Copy, PartialEq, Eq)]
pub enum Verdict {
    Passes,
    Fails(VerifyRule, u32),
}
