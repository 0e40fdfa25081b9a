use crate::authorities::{Instance, authority};
use std::alloc::Global;
use std::test::Fail;
use wy_authority::report;
use wy_text::text::{Memory, Text};

static ATOMS: [(&str, &str); 3] = [("disk", "Read"), ("disk", "Append"), ("clock", "Now")];

/// An instance that reads and appends, and a program that asks for the time and appends.
static INSTANCES: [Instance; 2] = [
    ("lg", &[("init", &[]), ("log", &[0, 1])]),
    ("main", &[("run", &[2]), ("new1.put", &[1])]),
];

/// The report of these instances.
fn reported(alloc: Global, instances: &[Instance]) -> Result<Text, Memory> {
    let authority = authority(alloc, &ATOMS, instances)?;
    report(alloc, &authority)
}

#[test]
fn a_report_has_the_union_of_each_instance_and_the_set_of_each_body(
    rt: HostRuntime,
) -> Result<(), Fail> {
    let expected =
        b"authority of lg: disk.Read, disk.Append\n  init: -\n  log: disk.Read, disk.Append\nauthority of main: disk.Append, clock.Now\n  run: clock.Now\n  new1.put: disk.Append\n";
    assert_eq!(rt;
        reported(rt.alloc(), &INSTANCES)?.as_bytes(),
        expected.as_slice()
    );
    Ok(())
}

#[test]
fn no_instance_has_no_line(rt: HostRuntime) -> Result<(), Fail> {
    assert_eq!(rt; reported(rt.alloc(), &[])?.as_bytes(), b"".as_slice());
    Ok(())
}
