//! Effects: atoms and their tables, and finite sets of atoms.
#![tactic(auto)]

pub mod atom;
pub mod laws;
pub mod rows;
pub mod set;
