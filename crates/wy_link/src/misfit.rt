//! A premise of a rule for lines that is false.

use wy_effects::atom::Atom;

/// A premise that is false, with the atom that is missing where it is about effects.
#[derive(Clone, Copy)]
pub struct Misfit {
    pub premise: u8,
    pub missing: Option<Atom>,
}
