use crate::devices::{BLANK, Part, Row};
use crate::primitive_table::ORDERED;
use crate::running_table::HELLO;
use crate::three_files_table::WHOLE;

const WRITER: &str = "authority of main: console.Out\n  run: console.Out\n";

/// A program of one write.
const ONE_WRITE: Row = Row {
    words: &["trace", "b.wy"],
    files: HELLO,
    out: r#"enter main run
deed console.write("hello\n") = ()
leave
"#,
    report: WRITER,
    console: "deed console.write(\"hello\\n\") = ()\n",
    ..BLANK
};

/// A program of four writes.
const FOUR_WRITES: Row = Row {
    words: &["trace", "b.wy"],
    files: &[(
        "b.wy",
        r#"program
  grant console: Console
  run: {console.Out}
    console.write("a")
    console.write("b")
    console.write("c")
    console.write("d")
"#,
    )],
    report: WRITER,
    ..BLANK
};

/// A trace of three files, with a used module and an object.
pub const THREE_FILES: Row = Row {
    words: &["trace", "types.wy", "parts.wy", "main.wy"],
    out: r#"enter pure clean init
leave
enter lg init
leave
enter rep init
leave
enter main run
enter rep each
deed data.read("in") = "x"
enter lg log
enter pure clean safe
leave
deed logs.append("log", "x\n") = ()
leave
enter main new1.got
enter pure clean safe
leave
deed console.write("x") = ()
leave
leave
enter lg log
enter pure clean safe
leave
deed logs.append("log", "done\n") = ()
leave
leave
"#,
    ..WHOLE
};

/// Runs with a line for each event: of one body, of a write that fails, of three files with a used module and an object, and with
/// the receiver before the argument.
pub static TRACES: [Row; 4] = [
    ONE_WRITE,
    Row {
        failing: Some((Part::Console, 3)),
        number: 9,
        out: r#"enter main run
deed console.write("a") = ()
deed console.write("b") = ()
deed console.write("c") = failed
"#,
        last: "console.write: failed\n",
        console: r#"deed console.write("a") = ()
deed console.write("b") = ()
deed console.write("c") = failed
"#,
        ..FOUR_WRITES
    },
    THREE_FILES,
    Row {
        words: &["trace", "ord.wy"],
        out: r#"enter g init
leave
enter main run
enter g get
deed console.write("1") = ()
leave
deed clock.now() = 7
enter g new1.put
deed console.write("7") = ()
leave
leave
"#,
        console: "deed console.write(\"1\") = ()\ndeed console.write(\"7\") = ()\n",
        clock: "deed clock.now() = 7\n",
        ..ORDERED
    },
];

/// Runs of which a line, or the report, cannot be written.
pub static CUT: [Row; 4] = [
    Row {
        failing: Some((Part::Out, 1)),
        number: 10,
        last: "unwritten\n",
        ..FOUR_WRITES
    },
    Row {
        failing: Some((Part::Out, 3)),
        number: 10,
        out: "enter main run\ndeed console.write(\"a\") = ()\n",
        last: "unwritten\n",
        console: "deed console.write(\"a\") = ()\ndeed console.write(\"b\") = ()\n",
        ..FOUR_WRITES
    },
    Row {
        failing: Some((Part::Out, 6)),
        number: 10,
        out: r#"enter main run
deed console.write("a") = ()
deed console.write("b") = ()
deed console.write("c") = ()
deed console.write("d") = ()
"#,
        last: "unwritten\n",
        console: r#"deed console.write("a") = ()
deed console.write("b") = ()
deed console.write("c") = ()
deed console.write("d") = ()
"#,
        ..FOUR_WRITES
    },
    Row {
        failing: Some((Part::Report, 1)),
        number: 10,
        report: "",
        last: "unwritten\n",
        ..FOUR_WRITES
    },
];
