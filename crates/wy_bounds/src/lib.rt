//! The effects and the higher-order effects of types, and the sets for which types are safe and
//! higher-order safe.
#![tactic(auto)]

mod entry;
mod least;
mod matrix;
mod path_effects;
mod reaching;
mod safety;
mod table;

pub use matrix::Matrix;
pub use path_effects::{effects, ho_effects};
pub use safety::{Safety, ho_safe, safe};
pub use wy_types::path::{Part, Path, Step};
