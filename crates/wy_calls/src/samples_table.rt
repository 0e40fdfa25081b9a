//! Calls of `sample` with small numbers.

use crate::devices::{BLANK, Part, Row};

/// The sample of 3.
const THREE: Row = Row {
    words: &["sample", "3"],
    out: "sample 3: instances 3, bodies 7\n",
    report: r#"authority of x1: console.Out
  init: -
  go: console.Out
authority of x2: console.Out
  init: -
  go: console.Out
authority of x3: console.Out
  init: -
  go: console.Out
authority of main: console.Out
  run: console.Out
"#,
    console: r#"deed console.write("m1\n") = ()
deed console.write("6\n") = ()
"#,
    ..BLANK
};

/// Samples that end, and samples that are cut short: by `out` behind the run, by the console, by the bound on steps, and by
/// the report.
pub static SAMPLES: [Row; 6] = [
    THREE,
    Row {
        words: &["sample", "1"],
        out: "sample 1: instances 1, bodies 3\n",
        report: r#"authority of x1: console.Out
  init: -
  go: console.Out
authority of main: console.Out
  run: console.Out
"#,
        console: r#"deed console.write("m1\n") = ()
deed console.write("1\n") = ()
"#,
        ..BLANK
    },
    Row {
        failing: Some((Part::Out, 1)),
        number: 10,
        out: "",
        last: "unwritten\n",
        ..THREE
    },
    Row {
        failing: Some((Part::Console, 2)),
        number: 9,
        out: "",
        last: "console.write: failed\n",
        console: r#"deed console.write("m1\n") = ()
deed console.write("6\n") = failed
"#,
        ..THREE
    },
    Row {
        words: &["sample", "--steps", "3", "3"],
        number: 8,
        out: "",
        last: "spent: 3\n",
        console: "",
        ..THREE
    },
    Row {
        failing: Some((Part::Report, 1)),
        number: 10,
        out: "",
        report: "",
        last: "unwritten\n",
        console: "",
        ..THREE
    },
];
