//! Values as bytes: numbers, texts, pairs and lists, and where bytes that spell nothing go wrong (docs/LANGUAGE.md,
//! "Certificates").
#![tactic(auto)]

mod ints;
mod list;
mod number;
mod pair;
mod spelled;
mod texts;
mod truths;
mod whole;

pub use spelled::{ReadError, Spelled, WriteRefusal};
pub use whole::{WholeError, read_whole};
