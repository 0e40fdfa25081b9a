use crate::support::{outcome_of, wrong_row};
use std::alloc::Global;
use std::test::Fail;

/// Invalid command lines. The last is one because its program has no folder `disk`.
static FAULTY: [&[&str]; 44] = [
    &[],
    &["check"],
    &["check", "-b.wy"],
    &["run"],
    &["b.wy"],
    &["walk", "b.wy"],
    &["format"],
    &["format", "b.wy", "b.wy"],
    &["format", "-b.wy"],
    &["run", "b.wy", "-c.wy"],
    &["run", "-b.wy"],
    &["--help", "b.wy"],
    &["run", "--steps", "b.wy"],
    &["run", "--steps", "9"],
    &["run", "--steps", "", "b.wy"],
    &["run", "--steps", "+9", "b.wy"],
    &["run", "--steps", "1000000000001", "b.wy"],
    &["run", "--steps", "00000000000009", "b.wy"],
    &["run", "--depth", "100001", "b.wy"],
    &["check", "--depth", "x", "b.wy"],
    &["run", "--steps", "9", "--steps", "9", "b.wy"],
    &["sample"],
    &["sample", "0"],
    &["sample", "201"],
    &["sample", "b.wy"],
    &["sample", "1", "2"],
    &["policy"],
    &["policy", "b.wy"],
    &["policy", "--steps", "9", "b.wy"],
    &["observe"],
    &["observe", "--depth", "9"],
    &["certify"],
    &["certify", "--steps", "9"],
    &["recheck"],
    &["recheck", "b.wy"],
    &["run", "b.wy", "--folder"],
    &["check", "--folder", "disk", "b.wy"],
    &["check", "--folder", "disk=", "b.wy"],
    &["check", "--folder", "=x", "b.wy"],
    &["check", "--folder", "new=x", "b.wy"],
    &["check", "--folder", "a-b=x", "b.wy"],
    &["check", "--folder", "disk=x", "--folder=disk=x", "b.wy"],
    &["format", "--folder=disk=x", "--folder", "disk=y", "b.wy"],
    &["sample", "--folder", "disk=x", "1"],
];

/// Returns whether a call with these words, over a shelf with an empty `b.wy`, ends with the status of the number and the
/// line, and does nothing else.
fn ends_with(alloc: Global, words: &[&str], number: u8, line: &str) -> Result<bool, Fail> {
    Ok(outcome_of(alloc, words, &[("b.wy", b"")])?.says(number, "", line))
}

/// Fails with the number of the first words that do not get the usage line.
fn all_get_the_usage_line(alloc: Global, cases: &[&[&str]]) -> Result<(), Fail> {
    let usage = "usage: wyvern COMMAND [--steps N] [--depth N] [--folder GRANT=PATH]... FILE...\n";
    for (at, words) in cases.iter().enumerate() {
        if !ends_with(alloc, words, 1, usage)? {
            return Err(wrong_row(at));
        }
    }
    Ok(())
}

#[test]
fn words_that_are_no_command_line_get_the_usage_line(rt: HostRuntime) -> Result<(), Fail> {
    all_get_the_usage_line(rt.alloc(), &FAULTY)
}

#[test]
fn a_missing_file_is_named(rt: HostRuntime) -> Result<(), Fail> {
    assert!(rt; ends_with(rt.alloc(), &["run", "nope.wy"], 2, "nope.wy: unread\n")?);
    Ok(())
}
