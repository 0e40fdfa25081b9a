//! What a program means: its events over the answers of the devices, how it ends, and what it is to keep
//! within an authority. The definitions are in specs/, and the laws about them in proofs/. The line of
//! an event is code too, and so is what a run uses of its instances.
#![tactic(auto)]

mod event_lines;
pub mod laws;
mod used;

pub use event_lines::event_line;
pub use used::Used;
