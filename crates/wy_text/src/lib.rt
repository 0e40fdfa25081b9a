//! What every layer shares: texts, places, tokens, limits and faults, and the outside as the
//! engine meets it, a shelf of files and sinks for output.
#![tactic(auto)]

pub mod fault;
pub mod limit;
pub mod list;
pub mod list_equality;
pub mod quoting;
pub mod shelf;
pub mod sink;
pub mod text;
pub mod token;
pub mod writing;
