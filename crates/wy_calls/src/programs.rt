use crate::devices::all_come_so;
use crate::programs_table::{LOGGERS, OBJECTS, REFUSED};
use std::test::Fail;

#[test]
fn a_logger_appends_to_the_folder_that_it_is_handed(rt: HostRuntime) -> Result<(), Fail> {
    all_come_so(rt.alloc(), &LOGGERS)
}

#[test]
fn objects_do_what_their_bodies_say(rt: HostRuntime) -> Result<(), Fail> {
    all_come_so(rt.alloc(), &OBJECTS)
}

#[test]
fn what_is_refused_asks_no_device(rt: HostRuntime) -> Result<(), Fail> {
    all_come_so(rt.alloc(), &REFUSED)
}
