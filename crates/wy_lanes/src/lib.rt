//! Kernels over words and bytes, by `std::simd`: each equals its plain definition at every length.
#![tactic(auto)]

pub mod classes;
pub mod number_rows;
pub mod number_set;
pub mod runs;
pub mod words;
