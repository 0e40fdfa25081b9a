use crate::devices::all_come_so;
use crate::tracing_table::{CUT, TRACES};
use std::test::Fail;

#[test]
fn a_trace_has_a_line_for_each_event(rt: HostRuntime) -> Result<(), Fail> {
    all_come_so(rt.alloc(), &TRACES)
}

#[test]
fn a_run_whose_line_is_not_written_ends_there(rt: HostRuntime) -> Result<(), Fail> {
    all_come_so(rt.alloc(), &CUT)
}
