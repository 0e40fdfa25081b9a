//! Lowering: the code that a program with its instances in start order has. The definitions are in
//! specs/, and the laws about them in proofs/.
#![tactic(auto)]

mod emitting;
mod entries;
mod expressions;
mod gathering;
mod indexes;
mod instructions;
mod kinds;
pub mod laws;
mod limits;
mod lowering;
mod names;
mod operands;
mod scopes;
mod starting;

pub use lowering::{LowerRefusal, lower};
