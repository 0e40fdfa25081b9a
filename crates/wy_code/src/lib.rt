//! The code that programs are lowered to, and what running it means: one step, and a run of at most
//! so many steps. The definitions are in specs/.
#![tactic(auto)]

pub mod code;
pub mod instruction;
pub mod laws;
