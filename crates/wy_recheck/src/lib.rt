//! Rechecking a certificate: its bytes, and what it says of each scope: its types, which can stand in the scope, its pairs, which are
//! closed, the rules of its lines, and its nodes, which are those of derivations of the scope's bodies (docs/LANGUAGE.md,
//! "Certificates").
#![tactic(auto)]

mod failure;
mod forms;
mod lines;
mod nodes;
mod pair_set;
mod pairs;
mod reader;
mod rechecking;
mod types;
mod vals;

pub use failure::Failure;
pub use lines::{LineRule, rules_of, standing_lines};
pub use nodes::read_nodes;
pub use pair_set::PairSet;
pub use pairs::{closed_pairs, closed_plain_pairs};
pub use rechecking::{CertRefusal, recheck};
pub use types::standing_types;
