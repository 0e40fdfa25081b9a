//! Decides whether an image is verified, and why not (docs/PROMISES.md, "Images").
#![tactic(auto)]

mod arguments;
mod authority;
mod coding;
mod costs;
mod effects;
mod flow;
mod granted;
mod judged;
mod jumps;
mod kinds;
mod knowing;
mod methods;
mod pairs;
mod ranges;
mod site;
mod states;
mod steps;
mod stored;
mod subject;
mod subjects;
mod tables;
mod targets;
mod types;
mod verdict;
mod verifying;
mod visit;
mod walking;

pub use verifying::{Verified, VerifyRefusal, verify};
pub use wy_verified::VerifyRule;
