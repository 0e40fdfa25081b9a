//! The names inside the bodies of a scope: what is in sight there, what methods use of the bodies round them, and expressions,
//! statements and object literals with their names resolved.
#![tactic(auto)]

mod bodies;
mod captures;
mod expressions;
mod literals;
mod sight;
mod statements;
mod values;

pub use bodies::{Resolved, Within, module_parts, program_block};
