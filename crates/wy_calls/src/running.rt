use crate::checking::ring;
use crate::running_table::{REFUSED, RUNS, Row};
use crate::support::{judged_so, outcome_of, wrong_row};
use std::alloc::Global;
use std::test::Fail;

/// Whether a call with the row's words and files ends as the row says, and writes nothing to `out`.
fn ends_so(alloc: Global, row: &Row) -> Result<bool, Fail> {
    let (words, files, number, report, deeds) = row;
    let mut texts: Vec<(&str, &[u8])> = Vec::new(alloc);
    for (name, text) in files.iter() {
        texts.push((*name, text.as_bytes()))?;
    }
    let done = outcome_of(alloc, words, texts.as_slice())?;
    Ok(
        done.number == *number
            && done.report.bytes() == report.as_bytes()
            && done.deeds == *deeds
            && done.out.bytes().is_empty(),
    )
}

/// Fails with the number of the first row that ends otherwise.
fn all_end_so(alloc: Global, rows: &[Row]) -> Result<(), Fail> {
    for (at, row) in rows.iter().enumerate() {
        if !ends_so(alloc, row)? {
            return Err(wrong_row(at));
        }
    }
    Ok(())
}

#[test]
fn what_is_accepted_is_reported_and_runs(rt: HostRuntime) -> Result<(), Fail> {
    all_end_so(rt.alloc(), &RUNS)
}

#[test]
fn what_is_refused_does_nothing(rt: HostRuntime) -> Result<(), Fail> {
    all_end_so(rt.alloc(), &REFUSED)
}

/// A program that writes `x` so many times.
fn writes(alloc: Global, count: u32) -> Result<Vec<u8>, Fail> {
    let mut source = Vec::from_slice(
        alloc,
        b"program\n  grant console: Console\n  run: {console.Out}\n",
    )?;
    for _ in 0..count {
        source.extend_from_slice(b"    console.write(\"x\")\n")?;
    }
    Ok(source)
}

#[test]
fn a_program_writes_as_often_as_it_says(rt: HostRuntime) -> Result<(), Fail> {
    let alloc = rt.alloc();
    let source = writes(alloc, 1001)?;
    let done = outcome_of(alloc, &["run", "b.wy"], &[("b.wy", source.as_slice())])?;
    assert!(rt; done.number == 0 && done.deeds == 1001);
    Ok(())
}

#[test]
fn a_program_that_reaches_no_more_types_than_the_limit_runs(rt: HostRuntime) -> Result<(), Fail> {
    let alloc = rt.alloc();
    let report = "authority of main: -\n  run: -\n";
    assert!(rt; judged_so(alloc, "run", ring(alloc, 1023)?.as_str(), 0, "", report)?);
    let last = "limit: reached types 1024\n";
    assert!(rt; judged_so(alloc, "run", ring(alloc, 1024)?.as_str(), 5, "", last)?);
    Ok(())
}
