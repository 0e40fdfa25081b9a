//! Tests of texts, kernels, tokens, trees and their printing: of the crates below names. A crate with tests is proved
//! once with them and once without, so tests stand here, over the libraries.
#![tactic(auto)]

#[cfg(test)]
mod lanes;
#[cfg(test)]
mod layout;
#[cfg(test)]
mod parsing;
#[cfg(test)]
mod printing;
#[cfg(test)]
mod texts;
#[cfg(test)]
mod three_files;
