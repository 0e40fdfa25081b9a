//! Resolving names: what each name and each effect of a program's files stands for, and the refusals of
//! names.
#![tactic(auto)]

pub mod laws;
mod refusal;
mod resolving;
mod scopes;

pub use refusal::NameRefusal;
pub use resolving::resolve;
