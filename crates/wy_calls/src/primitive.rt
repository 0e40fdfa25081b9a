use crate::devices::all_come_so;
use crate::primitive_table::{CLOCKS, CONSOLES, FULL_FOLDERS, NAMES, ORDERS, RANDOM_SOURCES};
use std::test::Fail;

#[test]
fn a_line_that_is_not_read_ends_the_run(rt: HostRuntime) -> Result<(), Fail> {
    all_come_so(rt.alloc(), &CONSOLES)
}

#[test]
fn a_full_folder_removes_what_it_keeps(rt: HostRuntime) -> Result<(), Fail> {
    all_come_so(rt.alloc(), &FULL_FOLDERS)
}

#[test]
fn a_name_that_is_none_traps_before_the_folder_is_asked(rt: HostRuntime) -> Result<(), Fail> {
    all_come_so(rt.alloc(), &NAMES)
}

#[test]
fn the_receiver_comes_before_the_argument(rt: HostRuntime) -> Result<(), Fail> {
    all_come_so(rt.alloc(), &ORDERS)
}

#[test]
fn a_clock_gives_whole_seconds(rt: HostRuntime) -> Result<(), Fail> {
    all_come_so(rt.alloc(), &CLOCKS)
}

#[test]
fn a_random_source_gives_any_number(rt: HostRuntime) -> Result<(), Fail> {
    all_come_so(rt.alloc(), &RANDOM_SOURCES)
}
