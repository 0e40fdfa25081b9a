//! Judging a scope: whether each node of a module or of the program's body has a derivation, and else the first that
//! has none (docs/LANGUAGE.md, "First failing node").
#![tactic(auto)]

mod checking;
mod faults;
mod judging;
pub mod laws;
mod outcomes;
mod scopes;
mod targets;
mod walk;

pub use checking::{CheckRefusal, Checked, check_modules, check_scope, keep_limit};
pub use faults::atom_name;
pub use outcomes::fault_at;
pub use scopes::{Judged, judge_scope};
