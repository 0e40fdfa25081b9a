//! Calls of `wyvern` with the outside in memory, over its library, so that the calls are proved apart from it. The
//! expected reports, lines and statuses are those of docs/LANGUAGE.md.
#![tactic(auto)]

#[cfg(test)]
mod certificates;
#[cfg(test)]
mod certificates_table;
#[cfg(test)]
mod checking;
#[cfg(test)]
mod checking_table;
#[cfg(test)]
mod devices;
#[cfg(test)]
mod examples;
#[cfg(test)]
mod examples_table;
#[cfg(test)]
mod files;
#[cfg(test)]
mod hostile;
#[cfg(test)]
mod limits;
#[cfg(test)]
mod names;
#[cfg(test)]
mod observing;
#[cfg(test)]
mod observing_table;
#[cfg(test)]
mod outside;
#[cfg(test)]
mod policies;
#[cfg(test)]
mod policies_table;
#[cfg(test)]
mod primitive;
#[cfg(test)]
mod primitive_table;
#[cfg(test)]
mod programs;
#[cfg(test)]
mod programs_table;
#[cfg(test)]
mod running;
#[cfg(test)]
mod running_table;
#[cfg(test)]
mod samples;
#[cfg(test)]
mod samples_table;
#[cfg(test)]
mod support;
#[cfg(test)]
mod syntax;
#[cfg(test)]
mod three_files;
#[cfg(test)]
mod three_files_table;
#[cfg(test)]
mod tracing;
#[cfg(test)]
mod tracing_table;
#[cfg(test)]
mod words;
