//! Tests of devices, in memory and real, the machine's hand-in, event lines, reports, policies, the words of a call and
//! samples. A crate with tests is proved once with them and once without, so tests stand here, over the libraries.
#![tactic(auto)]

#[cfg(test)]
mod asking;
#[cfg(test)]
mod authorities;
#[cfg(test)]
mod devices;
#[cfg(test)]
mod event_lines;
#[cfg(test)]
mod handing_in;
#[cfg(test)]
mod host;
#[cfg(test)]
mod policies;
#[cfg(test)]
mod reports;
#[cfg(test)]
mod samples;
#[cfg(test)]
mod settings;
