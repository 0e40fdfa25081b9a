//! Tests of names, effects, types, subtyping and bounds. A crate with tests is proved once with them and once
//! without, so tests stand here, over the libraries.
#![tactic(auto)]

#[cfg(test)]
mod bodies;
#[cfg(test)]
mod bounds;
#[cfg(test)]
mod effects;
#[cfg(test)]
mod naming;
#[cfg(test)]
mod ranges;
#[cfg(test)]
mod subtyping;
#[cfg(test)]
mod texts;
#[cfg(test)]
mod types;
