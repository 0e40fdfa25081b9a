//! Whole programs: whether their uses, instances and imports are as the rules ask, the instances in start order, and
//! checking all of a program (docs/LANGUAGE.md, "Modules and lines" and "Start order and ground sets").
#![tactic(auto)]

mod checking;
mod imports;
mod instances;
pub mod laws;
mod lines;
mod linking;
mod lists;
mod misfit;
mod started;

pub use checking::{CheckedProgram, check};
pub use lines::judge_lines;
pub use linking::{LinkRefusal, Links, link};
