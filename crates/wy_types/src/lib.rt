//! Programs with resolved names: their types and the methods of types, and the numbers that
//! everything in a program goes by.
#![tactic(auto)]

pub mod bodies;
pub mod bounds;
pub mod code;
pub mod key;
pub mod laws;
pub mod linked;
pub mod methods;
pub mod path;
pub mod primitive;
pub mod reach;
pub mod reading;
pub mod resolved;
mod type_set;
pub mod types;
pub mod written;
