//! When a certificate proves a program: its tests, in order, and the first that fails (docs/LANGUAGE.md, "Certificates").
//! No function here does anything: what it says is its clause.
#![tactic(auto)]

pub mod laws;
mod proof;

pub use proof::CertTest;
