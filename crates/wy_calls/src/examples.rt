use crate::devices::all_come_so;
use crate::examples_table::EXAMPLES;
use std::test::Fail;

#[test]
fn examples_do_what_they_say(rt: HostRuntime) -> Result<(), Fail> {
    all_come_so(rt.alloc(), &EXAMPLES)
}
