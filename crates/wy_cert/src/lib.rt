//! Certificates: what is said of each scope of a program for its judgement to be checked again, as data and as bytes
//! (docs/LANGUAGE.md, "Certificates").
#![tactic(auto)]

mod certificate;
pub mod laws;
mod nodes;
mod pairs;
mod reading;
mod rules;
mod scopes;
mod types;
mod writing;

pub use certificate::{CertNode, CertPair, CertScope, CertType, Certificate, NumberList, Rule};
pub use reading::{ReadRefusal, read_certificate};
pub use writing::write_certificate;
pub use wy_spelling::WriteRefusal;
