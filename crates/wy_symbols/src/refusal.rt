//! Refusals that stand at a place.

use wy_text::fault::Place;

/// The causes of a refusal that stands at a place (docs/LANGUAGE.md, "Names").
#[derive(Clone, Copy, PartialEq, Eq)]
pub enum Cause {
    Unknown,
    Twice,
    Cycle,
    TwoPrograms,
    MemberUndefined,
    MemberUnknown,
}

/// A refusal that stands at a place.
#[derive(Clone, Copy, PartialEq, Eq)]
pub struct Refusal {
    pub place: Place,
    pub cause: Cause,
}
