//! Laws of the rules of types. No function here does anything: what it says is its clause.
#![tactic(auto)]

pub mod laws;
