//! What each body of each instance may do, and the report of it (docs/LANGUAGE.md, "Authority and report"). The definitions stand
//! in `specs/`; the types here are those that they speak of.
#![tactic(auto)]

mod body_rows;
mod report_text;
mod rows;

pub use body_rows::{authority, bound};
pub use report_text::{push_set, report, whole_set, write_report};
pub use rows::{Authority, BodyRow, InstanceRow};
