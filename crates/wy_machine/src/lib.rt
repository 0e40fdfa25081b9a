//! The machine that runs code: its words, its stack and its store, each step, and whole runs.
#![tactic(auto)]

mod arithmetic;
mod building;
mod calls;
mod computed;
mod deeds;
pub mod devices;
mod instances;
mod lookup;
mod machine;
mod making;
mod object;
mod observed_run;
mod observing;
mod operators;
mod outcome;
mod performing;
mod requests;
pub mod run;
pub mod run_end;
mod stack;
mod starting;
mod step;
mod store;
mod texts;
mod tracing;
mod using;
mod word;
