//! Certificates of accepted programs, as bytes: for each scope the steps of its canonical derivation, which its nodes say, and the pairs
//! and types that these and the rules for the scope ask (docs/LANGUAGE.md, "Certificates" and "Typing of bodies").
#![tactic(auto)]

mod asking;
mod canonical;
mod certifying;
mod closing;
mod finding;
mod listing;
mod numbering;
mod output;
mod pair;
mod rows;
mod sets;
mod settling;
mod step;
mod typed;
mod typing;
mod writer;
mod writing;

pub use certifying::{CertifyRefusal, certificates_have_one_size, certificates_prove, certify};
