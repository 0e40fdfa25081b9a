use crate::devices::all_come_so;
use crate::observing_table::{FAILING, OBSERVED};
use crate::outside::cut_at;
use std::alloc::Global;
use std::test::Fail;

#[test]
fn a_run_says_what_it_used_of_each_instance(rt: HostRuntime) -> Result<(), Fail> {
    all_come_so(rt.alloc(), &OBSERVED)
}

#[test]
fn an_observed_run_ends_at_each_call_on_the_outside_that_fails(
    rt: HostRuntime,
) -> Result<(), Fail> {
    all_come_so(rt.alloc(), &FAILING)
}

const TWO_WRITES: &[u8] =
    b"program\n  grant console: Console\n  run: {console.Out}\n    console.write(\"a\")\n    console.write(\"b\")\n";

/// Whether an observed run, where `out` has room for so many bytes, ends so with both of its operations done.
fn is_cut(alloc: Global, room: usize, number: u8, last: &[u8]) -> Result<bool, Fail> {
    let done = cut_at(alloc, &["observe", "a.wy"], &[("a.wy", TWO_WRITES)], room)?;
    let whole = b"used of main: console.Out\n".as_slice();
    Ok(
        done.ended.number == number
            && done.ended.deeds == 2
            && done.taken.len() == room
            && whole.starts_with(done.taken.as_slice())
            && done.report.bytes().ends_with(last),
    )
}

#[test]
fn what_was_used_and_is_not_written_whole_is_a_prefix(rt: HostRuntime) -> Result<(), Fail> {
    let alloc = rt.alloc();
    for room in 0..26usize {
        assert!(rt; is_cut(alloc, room, 10, b"unwritten\n")?);
    }
    assert!(rt; is_cut(alloc, 26, 0, b"  run: console.Out\n")?);
    Ok(())
}
