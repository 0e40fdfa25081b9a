//! Soundness: an accepted program meets no wrong value in a run, and each operation that it does is in the
//! authority of every call that is open. The definitions are in specs/, and the laws about them in proofs/.
#![tactic(auto)]

pub mod laws;
pub mod linking;
pub mod telling;
