ghost use Rattle.std.specs.Prelude.{Some};
ghost use Rattle.wy_text.specs.Outside.{SinkState};

use crate::devices::{BLANK, Part, Row, all_come_so};
use crate::support::{Ended, end_of};
use std::alloc::Global;
use std::test::Fail;
use wy_memory::MemSink;
use wy_text::list::Items;
use wy_text::sink::{Sink, WriteError};

const FOUR_WRITES: &str =
    "program\n  grant console: Console\n  run: {console.Out}\n    console.write(\"a\")\n    console.write(\"b\")\n    console.write(\"c\")\n    console.write(\"d\")\n";

const REPORT: &str = "authority of main: console.Out\n  run: console.Out\n";

/// A sink that takes a few bytes at a time, and no more than so many in all.
#[derive(Drop)]
struct Trickle {
    taken: Vec<u8>,
    room: usize,
    faults: u64,
}

impl Trickle {
    /// One with room for so many bytes.
    fn new(alloc: Global, room: usize) -> Trickle {
        Trickle {
            taken: Vec::new(alloc),
            room,
            faults: 0,
        }
    }
}

impl Sink for Trickle {
    ghost state = { λ s. record { taken = Some s.taken.items; faults = s.faults } };

    fn write(&mut self, bytes: &[u8]) -> Result<usize, WriteError> {
        let size = bytes.len().min(7).min(self.room);
        if size == 0 {
            self.faults = self.faults.saturating_add(1);
            return Err(WriteError::Failed);
        }
        match self.taken.extend_from_slice(&bytes[..size]) {
            Ok(()) => {
                self.room -= size;
                Ok(size)
            }
            Err(_) => Err(WriteError::Memory),
        }
    }
}

/// What came of a call whose `out` has room for a few bytes: its status's number, how many operations the console was asked
/// for, what `out` took, and the report.
#[derive(Drop)]
pub struct Cut {
    pub ended: Ended,
    pub taken: Vec<u8>,
    pub report: MemSink,
}

impl Cut {
    /// Whether the status has the number, these bytes were taken, and this was reported.
    pub fn says(&self, number: u8, taken: &[u8], report: &str) -> bool {
        self.ended.number == number
            && self.taken.as_slice() == taken
            && self.report.bytes() == report.as_bytes()
    }
}

/// Calls with these words and files, where `out` has room for so many bytes.
pub fn cut_at(
    alloc: Global,
    words: &[&str],
    files: &[(&str, &[u8])],
    room: usize,
) -> Result<Cut, Fail> {
    let mut out = Trickle::new(alloc, room);
    let mut report = MemSink::new(alloc, Items::new(alloc))?;
    let fails = Items::new(alloc);
    let ended = end_of(alloc, words, files, &mut out, &mut report, fails)?;
    Ok(Cut {
        ended,
        taken: out.taken,
        report,
    })
}

/// A program that writes four times, and what is reported of it.
const WRITES: Row = Row {
    words: &["run", "b.wy"],
    files: &[("b.wy", FOUR_WRITES)],
    report: REPORT,
    ..BLANK
};

/// Calls on the outside that fail: the third write is the last, and where the report is not written nothing runs.
static FAILING: [Row; 2] = [
    Row {
        failing: Some((Part::Console, 3)),
        number: 9,
        last: "console.write: failed\n",
        console: r#"deed console.write("a") = ()
deed console.write("b") = ()
deed console.write("c") = failed
"#,
        ..WRITES
    },
    Row {
        failing: Some((Part::Report, 1)),
        number: 10,
        report: "",
        last: "unwritten\n",
        ..WRITES
    },
];

#[test]
fn what_fails_outside_ends_the_run(rt: HostRuntime) -> Result<(), Fail> {
    all_come_so(rt.alloc(), &FAILING)
}

/// Whether a call of `run`, where the report has room for so many bytes, ends so after so many operations.
fn is_cut(alloc: Global, room: usize, number: u8, deeds: usize) -> Result<bool, Fail> {
    let mut out = MemSink::new(alloc, Items::new(alloc))?;
    let mut report = Trickle::new(alloc, room);
    let files = [("b.wy", FOUR_WRITES.as_bytes())];
    let fails = Items::new(alloc);
    let ended = end_of(
        alloc,
        &["run", "b.wy"],
        &files,
        &mut out,
        &mut report,
        fails,
    )?;
    Ok(
        ended.number == number
            && ended.deeds == deeds
            && REPORT.as_bytes().starts_with(report.taken.as_slice())
            && report.taken.len() == room
            && out.bytes().is_empty(),
    )
}

#[test]
fn a_report_that_is_cut_short_runs_nothing(rt: HostRuntime) -> Result<(), Fail> {
    let alloc = rt.alloc();
    assert!(rt; is_cut(alloc, 0, 10, 0)?);
    assert!(rt; is_cut(alloc, 20, 10, 0)?);
    assert!(rt; is_cut(alloc, 49, 10, 0)?);
    assert!(rt; is_cut(alloc, 50, 0, 4)?);
    Ok(())
}
