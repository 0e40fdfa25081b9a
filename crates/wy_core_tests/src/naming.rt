//! Programs whose names are resolved, and those whose names are refused.

mod programs;
mod refusals;
mod scopes;
