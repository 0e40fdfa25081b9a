//! Why the names of a program are not resolved.

use wy_text::fault::Place;
use wy_text::limit::LimitName;

/// Why names are not resolved. A limit comes before the others; of the others comes the one with the
/// least place, and at one place the one that stands first here; `NoProgram` comes only where there is
/// no other.
#[derive(Drop, PartialEq, Eq)]
pub enum NameRefusal {
    Unknown(Place),
    Twice(Place),
    Cycle(Place),
    NoProgram,
    TwoPrograms(Place),
    MemberUndefined(Place),
    MemberUnknown(Place),
    Limit(LimitName),
    Memory,
}
