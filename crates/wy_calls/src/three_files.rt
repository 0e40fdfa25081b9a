use crate::devices::all_come_so;
use crate::three_files_table::{FAILING, RUNS, WIDER};
use std::test::Fail;

#[test]
fn three_files_are_one_program(rt: HostRuntime) -> Result<(), Fail> {
    all_come_so(rt.alloc(), &RUNS)
}

#[test]
fn a_bound_is_wider_where_the_folder_can_do_more(rt: HostRuntime) -> Result<(), Fail> {
    all_come_so(rt.alloc(), &WIDER)
}

#[test]
fn a_call_on_the_outside_that_fails_ends_the_run(rt: HostRuntime) -> Result<(), Fail> {
    all_come_so(rt.alloc(), &FAILING)
}
