//! The top call. It reads the files that the arguments name and does with them what the command asks: checks them, prints the
//! authority of their program, runs it on the devices that were handed in, checks it against a policy or a certificate, or writes a
//! certificate or a file's canonical form.
#![tactic(auto)]

pub mod answering;
pub mod certifying;
pub mod checking;
pub mod folders;
pub mod formatting;
pub mod judging;
pub mod last_line;
pub mod laws;
pub mod parsing;
pub mod permitting;
pub mod reading;
pub mod running;
pub mod status;
pub mod top;
pub mod writing;

pub use wy_machine::devices;
pub use wy_machine::devices::handing_in;
