//! The programs of the folder `examples`, with their reports.

use crate::devices::{BLANK, Row};

/// Each program runs with its report, and does what its text says.
pub static EXAMPLES: [Row; 5] = [
    // A log in a folder, of which others can only add lines.
    Row {
        words: &["run", "log.wy", "main.wy"],
        files: &[
            (
                "log.wy",
                r#"// A log that is kept in a folder: who holds the logger can add lines, and do nothing else with the folder.
type Logger
  effect Log
  def log(line: String): {Log} Unit

resource module logger(disk: Folder): Logger
  effect Log = {disk.Append}
  def log(line: String): {Log} Unit = disk.append("log", line ++ "\n")
"#,
            ),
            (
                "main.wy",
                r#"program
  grant disk: Folder
  instance lg = logger(disk)
  run: {lg.Log}
    lg.log("started")
    lg.log("done")
"#,
            ),
        ],
        report: r#"authority of lg: disk.Append
  init: -
  log: disk.Append
authority of main: disk.Append
  run: disk.Append
"#,
        folder: r#"deed disk.append("log", "started\n") = ()
deed disk.append("log", "done\n") = ()
"#,
        ..BLANK
    },
    // A full folder, of which one module alone can remove files.
    Row {
        words: &["run", "cleaner.wy"],
        files: &[(
            "cleaner.wy",
            r#"// Drafts in a folder that a cleaner removes. The grant is a full folder. Only the cleaner is handed it as one: the writer
// is handed the same grant as a Folder, which has no `remove`.
type Writer
  effect Wrote
  def draft(name: String, text: String): {Wrote} Unit

type Cleaner
  effect Cleaned
  def clean(name: String): {Cleaned} Unit

resource module writer(d: Folder): Writer
  effect Wrote = {d.Write}
  def draft(name: String, text: String): {Wrote} Unit = d.write(name, text)

resource module cleaner(d: FullFolder): Cleaner
  effect Cleaned = {d.Remove}
  def clean(name: String): {Cleaned} Unit = d.remove(name)

program
  grant drafts: FullFolder
  instance w = writer(drafts)
  instance c = cleaner(drafts)
  run: {w.Wrote, c.Cleaned}
    w.draft("first", "one")
    w.draft("second", "two")
    c.clean("first")
"#,
        )],
        report: r#"authority of w: drafts.Write
  init: -
  draft: drafts.Write
authority of c: drafts.Remove
  init: -
  clean: drafts.Remove
authority of main: drafts.Write, drafts.Remove
  run: drafts.Write, drafts.Remove
"#,
        folder: r#"deed drafts.write("first", "one") = ()
deed drafts.write("second", "two") = ()
deed drafts.remove("first") = ()
"#,
        after: &[("drafts", "first", ""), ("drafts", "second", "two")],
        ..BLANK
    },
    // A folder that can only be read, in the place of one that a module would write.
    Row {
        words: &["run", "readonly.wy", "main.wy"],
        files: &[
            (
                "readonly.wy",
                r#"// A folder that can be read and listed: what would change it does nothing.
resource module readonly(d: Folder): Folder
  effect Read = {d.Read}
  effect Write = {}
  effect Append = {}
  effect List = {d.List}
  def read(n: String): {Read} String = d.read(n)
  def has(n: String): {Read} Bool = d.has(n)
  def write(n: String, t: String): {Write} Unit = ()
  def append(n: String, t: String): {Append} Unit = ()
  def names(): {List} String = d.names()
"#,
            ),
            (
                "main.wy",
                r#"// A module that asks for a whole folder is handed one that can only be read.
type Copier
  effect Copy
  def copy(from: String, to: String): {Copy} Unit

resource module copier(d: Folder): Copier
  effect Copy = {d.Read, d.Write}
  def copy(from: String, to: String): {Copy} Unit = d.write(to, d.read(from))

program
  grant disk: Folder
  instance ro = readonly(disk)
  instance c = copier(ro)
  run: {c.Copy}
    c.copy("a", "b")
"#,
            ),
        ],
        report: r#"authority of ro: disk.Read, disk.List
  init: -
  read: disk.Read
  has: disk.Read
  write: -
  append: -
  names: disk.List
authority of c: disk.Read
  init: -
  copy: disk.Read
authority of main: disk.Read
  run: disk.Read
"#,
        before: &[("disk", "a", "x")],
        after: &[("disk", "a", "x"), ("disk", "b", "")],
        folder: r#"deed disk.read("a") = "x"
"#,
        ..BLANK
    },
    // A plug-in without effects, which is imported under a bound.
    Row {
        words: &["run", "greeter.wy", "main.wy"],
        files: &[
            (
                "greeter.wy",
                r#"// A plug-in that declares no effects: an old module, or one by somebody else.
type Greeter
  effect Greet
  def greet(name: String): {Greet} Unit

plain module greeter(out: Printer): Greeter
  var count: Int = 0
  def greet(name: String): Unit
    count = count + 1
    out.print(text_show(count) ++ ": hello " ++ name)
"#,
            ),
            (
                "main.wy",
                r#"// The plug-in gets a printer, and not the console, so it cannot read; the bound says so before anything runs.
type Printer
  effect Print
  def print(line: String): {Print} Unit

resource module printer(console: Console): Printer
  effect Print = {console.Out}
  def print(line: String): {Print} Unit = console.write(line ++ "\n")

program
  grant console: Console
  instance out = printer(console)
  import plug = greeter(out) at {out.Print}
  run: {out.Print}
    plug.greet("Ada")
    plug.greet("Grace")
"#,
            ),
        ],
        report: r#"authority of out: console.Out
  init: -
  print: console.Out
authority of plug: console.Out
  init: console.Out
  greet: console.Out
authority of main: console.Out
  run: console.Out
"#,
        console: r#"deed console.write("1: hello Ada\n") = ()
deed console.write("2: hello Grace\n") = ()
"#,
        ..BLANK
    },
    // A module that keeps a sum.
    Row {
        words: &["run", "tally.wy"],
        files: &[(
            "tally.wy",
            r#"// A module that keeps a sum, and notes each amount in a folder that it is handed.
type Tally
  effect Note
  def add(amount: Int): {Note} Int

resource module tally(disk: Folder): Tally
  effect Note = {disk.Append}
  var sum: Int = 0
  def add(amount: Int): {Note} Int
    sum = sum + amount
    disk.append("tally", text_show(amount) ++ "\n")
    sum

program
  grant disk: Folder
  instance hours = tally(disk)
  run: {hours.Note}
    val first = hours.add(2)
    val second = hours.add(3)
    ()
"#,
        )],
        report: r#"authority of hours: disk.Append
  init: -
  add: disk.Append
authority of main: disk.Append
  run: disk.Append
"#,
        folder: r#"deed disk.append("tally", "2\n") = ()
deed disk.append("tally", "3\n") = ()
"#,
        ..BLANK
    },
];
