//! When an image is verified, as definitions, and what is known of runs of a verified one (docs/PROMISES.md, "Images").
#![tactic(auto)]

mod known;
pub mod laws;

pub use known::{Jumped, Kind, Known, VerifyRule};
