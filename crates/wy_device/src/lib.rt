//! Operations, answers, deeds and events; devices, handed in or shut.
#![tactic(auto)]

pub mod deed;
pub mod device;
pub mod file_name;
pub mod handed;
pub mod operation;
pub mod primitive;
pub mod shut;
