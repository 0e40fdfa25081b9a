//! Policies: text that says what the instances of some names may do, and whether a program's instances keep to it
//! (docs/LANGUAGE.md, "Policies"); and the text of what a run used of each instance ("Observation").
#![tactic(auto)]

mod cutting;
mod judging;
pub mod laws;
mod policy;
mod reading;
mod rows;
mod ruling;
mod used;

pub use judging::judge;
pub use policy::{Entry, Judgement, Member, Pattern, Policy, PolicyRefusal, PolicyRow};
pub use reading::read_policy;
pub use used::used_text;
