use crate::devices::{BLANK, Kept, Part, Row};

pub const TYPES: &str = r#"type Logger
  effect Log
  def log(t: String): {Log} Unit
type Names
  def safe(t: String): {} String
type Taker
  effect Got
  def got(t: String): {Got} Unit
type Report
  effect All
  def each(s: Taker[Got = {All}]): {All} Unit
"#;

pub const PARTS: &str = r#"module clean: Names
  def safe(t: String): {} String
    if text_size(t) == 0
      "empty"
    else
      t
resource module logger(disk: Folder): Logger
  use clean
  effect Log = {disk.Append}
  def log(t: String): {Log} Unit = disk.append("log", clean.safe(t) ++ "\n")
plain module report(l: Logger, d: Folder): Report
  var last: String = ""
  def each(s: Taker): Unit
    last = d.read("in")
    l.log(last)
    s.got(last)
"#;

pub const MAIN: &str = r#"program
  grant console: Console
  grant data: Folder
  grant logs: Folder
  use clean
  instance lg = logger(logs)
  import rep = report(lg, data) at {lg.Log, data.Read, data.Write, data.Append, data.List, console.Out}
  run: {lg.Log, data.Read, data.Write, data.Append, data.List, console.Out}
    val s = new
      def got(t: String): {console.Out} Unit = console.write(clean.safe(t))
    rep.each(s)
    lg.log("done")
"#;

/// The report of the program.
const REPORT: &str = "authority of pure clean: -
  init: -
  safe: -
authority of lg: logs.Append
  init: -
  log: logs.Append
authority of rep: console.Out, data.Read, data.Write, data.Append, data.List, logs.Append
  init: console.Out, data.Read, data.Write, data.Append, data.List, logs.Append
  each: console.Out, data.Read, data.Write, data.Append, data.List, logs.Append
authority of main: console.Out, data.Read, data.Write, data.Append, data.List, logs.Append
  run: console.Out, data.Read, data.Write, data.Append, data.List, logs.Append
  new1.got: console.Out
";

const IN: Kept = ("data", "in", "x");

/// The call with the file `in` in the folder `data`.
pub const WHOLE: Row = Row {
    words: &["run", "types.wy", "parts.wy", "main.wy"],
    files: &[("types.wy", TYPES), ("parts.wy", PARTS), ("main.wy", MAIN)],
    before: &[IN],
    report: REPORT,
    console: "deed console.write(\"x\") = ()\n",
    folder: r#"deed data.read("in") = "x"
deed logs.append("log", "x\n") = ()
deed logs.append("log", "done\n") = ()
"#,
    after: &[IN, ("logs", "log", "x\ndone\n")],
    ..BLANK
};

/// A program of three files, with the file that it reads and without it.
pub static RUNS: [Row; 2] = [
    WHOLE,
    Row {
        before: &[],
        console: "deed console.write(\"empty\") = ()\n",
        folder: r#"deed data.read("in") = ""
deed logs.append("log", "empty\n") = ()
deed logs.append("log", "done\n") = ()
"#,
        after: &[("data", "in", ""), ("logs", "log", "empty\ndone\n")],
        ..WHOLE
    },
];

/// The same, with a full folder where a folder was granted: the bound of the import lacks what it can do besides.
pub static WIDER: [Row; 1] = [Row {
    files: &[
        ("types.wy", TYPES),
        ("parts.wy", PARTS),
        (
            "main.wy",
            r#"program
  grant console: Console
  grant data: FullFolder
  grant logs: Folder
  use clean
  instance lg = logger(logs)
  import rep = report(lg, data) at {lg.Log, data.Read, data.Write, data.Append, data.List, console.Out}
  run: {lg.Log, data.Read, data.Write, data.Append, data.List, console.Out}
    val s = new
      def got(t: String): {console.Out} Unit = console.write(clean.safe(t))
    rep.each(s)
    lg.log("done")
"#,
        ),
    ],
    number: 4,
    report: "",
    last: "main.wy:7:10: refused: I-Import premise 1 lacks data.Remove\n",
    ..NOTHING
}];

/// The call before anything was done.
const NOTHING: Row = Row {
    console: "",
    folder: "",
    after: &[IN, ("logs", "log", "")],
    ..WHOLE
};

/// The same with one call on the outside that fails: each file, the report, and each operation.
pub static FAILING: [Row; 8] = [
    Row {
        failing: Some((Part::Shelf, 1)),
        number: 2,
        report: "",
        last: "types.wy: unread\n",
        ..NOTHING
    },
    Row {
        failing: Some((Part::Shelf, 2)),
        number: 2,
        report: "",
        last: "parts.wy: unread\n",
        ..NOTHING
    },
    Row {
        failing: Some((Part::Shelf, 3)),
        number: 2,
        report: "",
        last: "main.wy: unread\n",
        ..NOTHING
    },
    Row {
        failing: Some((Part::Report, 1)),
        number: 10,
        report: "",
        last: "unwritten\n",
        ..NOTHING
    },
    Row {
        failing: Some((Part::Folder, 1)),
        number: 9,
        last: "data.read: failed\n",
        folder: "deed data.read(\"in\") = failed\n",
        ..NOTHING
    },
    Row {
        failing: Some((Part::Folder, 2)),
        number: 9,
        last: "logs.append: failed\n",
        folder: r#"deed data.read("in") = "x"
deed logs.append("log", "x\n") = failed
"#,
        ..NOTHING
    },
    Row {
        failing: Some((Part::Console, 1)),
        number: 9,
        last: "console.write: failed\n",
        console: "deed console.write(\"x\") = failed\n",
        folder: r#"deed data.read("in") = "x"
deed logs.append("log", "x\n") = ()
"#,
        after: &[IN, ("logs", "log", "x\n")],
        ..WHOLE
    },
    Row {
        failing: Some((Part::Folder, 3)),
        number: 9,
        last: "logs.append: failed\n",
        folder: r#"deed data.read("in") = "x"
deed logs.append("log", "x\n") = ()
deed logs.append("log", "done\n") = failed
"#,
        after: &[IN, ("logs", "log", "x\n")],
        ..WHOLE
    },
];
