//! Runs with what they used of each instance.

use crate::devices::{BLANK, Part, Row};
use crate::primitive_table::ORDERED;
use crate::three_files_table::WHOLE;

/// The program of three files, with a used module and an object.
const THREE_FILES: Row = Row {
    words: &["observe", "types.wy", "parts.wy", "main.wy"],
    out: "used of pure clean: -
used of lg: logs.Append
used of rep: console.Out, data.Read, logs.Append
used of main: console.Out, data.Read, logs.Append
",
    ..WHOLE
};

/// A program of one operation before a trap, and of another behind it.
const TRAPPED: Row = Row {
    words: &["observe", "o.wy"],
    files: &[(
        "o.wy",
        r#"program
  grant console: Console
  grant clock: Clock
  run: {console.Out, clock.Tick}
    console.write("s")
    val q = 1 / (clock.now() - 7)
    console.write("t")
"#,
    )],
    time: 7,
    number: 6,
    out: "used of main: console.Out, clock.Tick\n",
    report: "authority of main: console.Out, clock.Tick\n  run: console.Out, clock.Tick\n",
    last: "o.wy:6:15: trap: ZeroDivisor\n",
    console: "deed console.write(\"s\") = ()\n",
    clock: "deed clock.now() = 7\n",
    ..BLANK
};

/// Runs that come to their ends: of three files, of code that is called through others, and trapped and not.
pub static OBSERVED: [Row; 4] = [
    THREE_FILES,
    Row {
        words: &["observe", "ord.wy"],
        out: "used of g: console.Out\nused of main: console.Out, clock.Tick\n",
        console: "deed console.write(\"1\") = ()\ndeed console.write(\"7\") = ()\n",
        clock: "deed clock.now() = 7\n",
        ..ORDERED
    },
    TRAPPED,
    Row {
        time: 8,
        number: 0,
        last: "",
        console: "deed console.write(\"s\") = ()\ndeed console.write(\"t\") = ()\n",
        clock: "deed clock.now() = 8\n",
        ..TRAPPED
    },
];

/// The call before anything was done.
const NOTHING: Row = Row {
    console: "",
    folder: "",
    after: &[("data", "in", "x"), ("logs", "log", "")],
    out: "",
    ..THREE_FILES
};

/// The program of three files with one call on the outside that fails: each file, the report, each operation, which counts as used,
/// and the lines behind the run.
pub static FAILING: [Row; 9] = [
    Row {
        failing: Some((Part::Shelf, 1)),
        number: 2,
        report: "",
        last: "types.wy: unread\n",
        ..NOTHING
    },
    Row {
        failing: Some((Part::Shelf, 2)),
        number: 2,
        report: "",
        last: "parts.wy: unread\n",
        ..NOTHING
    },
    Row {
        failing: Some((Part::Shelf, 3)),
        number: 2,
        report: "",
        last: "main.wy: unread\n",
        ..NOTHING
    },
    Row {
        failing: Some((Part::Report, 1)),
        number: 10,
        report: "",
        last: "unwritten\n",
        ..NOTHING
    },
    Row {
        failing: Some((Part::Folder, 1)),
        number: 9,
        out: "used of pure clean: -
used of lg: -
used of rep: data.Read
used of main: data.Read
",
        last: "data.read: failed\n",
        folder: "deed data.read(\"in\") = failed\n",
        ..NOTHING
    },
    Row {
        failing: Some((Part::Folder, 2)),
        number: 9,
        out: "used of pure clean: -
used of lg: logs.Append
used of rep: data.Read, logs.Append
used of main: data.Read, logs.Append
",
        last: "logs.append: failed\n",
        folder: r#"deed data.read("in") = "x"
deed logs.append("log", "x\n") = failed
"#,
        ..NOTHING
    },
    Row {
        failing: Some((Part::Console, 1)),
        number: 9,
        last: "console.write: failed\n",
        console: "deed console.write(\"x\") = failed\n",
        folder: r#"deed data.read("in") = "x"
deed logs.append("log", "x\n") = ()
"#,
        after: &[("data", "in", "x"), ("logs", "log", "x\n")],
        ..THREE_FILES
    },
    Row {
        failing: Some((Part::Folder, 3)),
        number: 9,
        last: "logs.append: failed\n",
        folder: r#"deed data.read("in") = "x"
deed logs.append("log", "x\n") = ()
deed logs.append("log", "done\n") = failed
"#,
        after: &[("data", "in", "x"), ("logs", "log", "x\n")],
        ..THREE_FILES
    },
    Row {
        failing: Some((Part::Out, 1)),
        number: 10,
        out: "",
        last: "unwritten\n",
        ..THREE_FILES
    },
];
