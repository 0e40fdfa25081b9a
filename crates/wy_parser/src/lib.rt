//! The parser: from a file's tokens to its tree, or to the first token that fits nothing.
#![tactic(auto)]

mod copying;
mod cursor;
mod expressions;
mod items;
pub mod laws;
mod lines;
mod lists;
mod operators;
mod parsing;
mod sort;
mod statements;
mod stop;
mod types;

pub use parsing::{ParseRefusal, parse};
