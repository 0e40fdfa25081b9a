//! Trees of a file's items, what spells them, and how they are printed.
#![tactic(auto)]

pub mod expressions;
pub mod items;
pub mod printing;
pub mod statements;
pub mod types;
