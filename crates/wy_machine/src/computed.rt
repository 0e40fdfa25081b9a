//! What an operator gives.

use crate::run_end::TrapKind;
use wy_text::text::Text;

/// What an operator gives: a number, a truth value or a new text; a trap; or that its operands are of a
/// wrong kind.
#[derive(Drop)]
pub enum Computed {
    Number(i64),
    Truth(bool),
    Text(Text),
    Trap(TrapKind),
    Misfit,
}
