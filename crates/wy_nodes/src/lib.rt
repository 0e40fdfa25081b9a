//! How many expression nodes of a file's tree stand before a place (docs/LANGUAGE.md, "Marks").
#![tactic(auto)]

mod counting;

pub use counting::nodes_before;
