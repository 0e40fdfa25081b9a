//! Programs that are made from a number, so that a large one can be tried with no file at hand.
#![tactic(auto)]

mod making;

pub use making::{sample, summary};
