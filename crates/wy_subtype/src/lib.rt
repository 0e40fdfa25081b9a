//! When a type is a subtype of another: annotated and plain subtyping, with a path to a pair that
//! fails where it is not.
#![tactic(auto)]

mod asked;
mod entry;
mod graph;
mod node;
mod nodes;
mod one_pair;
mod pair_table;
mod paths;
mod steps;
mod unfolding;
mod verdict;
mod work;

pub use one_pair::subtype;
pub use pair_table::PairTable;
pub use steps::Steps;
pub use unfolding::{PairList, UnfoldedPair, Unfolding, unfold};
pub use verdict::{Cause, Mode, Verdict};
pub use wy_types::path::{Part, Path, Step};
