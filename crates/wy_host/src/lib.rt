//! The machine that the program runs on: its files, streams and devices. They are the edge that is trusted: they meet the
//! traits of the outside, and tell nothing of what a file, a stream or a clock holds.
#![tactic(auto)]

pub mod clock;
pub mod console;
mod fault;
pub mod files;
pub mod folder;
pub mod grant_folder;
mod listing;
mod plain_file;
pub mod random;
mod replacing;
pub mod stream;
