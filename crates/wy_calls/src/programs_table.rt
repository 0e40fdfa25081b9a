use crate::devices::{BLANK, Row};

const LOG: &str = r#"type Logger
  effect Log
  def log(t: String): {Log} Unit
resource module logger(disk: Folder): Logger
  effect Log = {disk.Append}
  def log(t: String): {Log} Unit = disk.append("log", t)
"#;

const MAIN: &str = r#"program
  grant disk: Folder
  instance lg = logger(disk)
  run: {lg.Log}
    lg.log("a")
"#;

/// A program that notes a text, in ten steps.
const LOGGER: Row = Row {
    words: &["run", "log.wy", "main.wy"],
    files: &[("log.wy", LOG), ("main.wy", MAIN)],
    report: "authority of lg: disk.Append
  init: -
  log: disk.Append
authority of main: disk.Append
  run: disk.Append
",
    folder: "deed disk.append(\"log\", \"a\") = ()\n",
    after: &[("disk", "log", "a")],
    ..BLANK
};

/// An object that leaves its module, and is called outside.
pub const ESCAPING: Row = Row {
    words: &["run", "fac.wy"],
    files: &[(
        "fac.wy",
        r#"type Item
  effect Put
  def put(t: String): {Put} Unit
type Maker
  effect Put
  def make(): {} Item[Put = {Put}]
resource module maker(disk: Folder): Maker
  effect Put = {disk.Append}
  def make(): {} Item[Put = {Put}]
    new
      def put(t: String): {Put} Unit = disk.append("i", t)
program
  grant disk: Folder
  instance m = maker(disk)
  run: {m.Put}
    m.make().put("z")
"#,
    )],
    report: "authority of m: disk.Append
  init: -
  make: -
  new1.put: disk.Append
authority of main: disk.Append
  run: disk.Append
",
    folder: "deed disk.append(\"i\", \"z\") = ()\n",
    after: &[("disk", "i", "z")],
    ..BLANK
};

/// Programs that log.
pub static LOGGERS: [Row; 4] = [
    LOGGER,
    Row {
        words: &["run", "--steps", "10", "log.wy", "main.wy"],
        ..LOGGER
    },
    Row {
        words: &["run", "--steps", "9", "log.wy", "main.wy"],
        number: 8,
        last: "spent: 9\n",
        ..LOGGER
    },
    Row {
        words: &["run", "m.wy"],
        files: &[(
            "m.wy",
            r#"type Logger
  effect Log
  def log(t: String): {Log} Unit
resource module logger(disk: Folder): Logger
  effect Log = {disk.Append}
  def log(t: String): {Log} Unit = disk.append("log", t)
program
  grant store: Folder
  instance lg = logger(store)
  run: {lg.Log}
    lg.log("a")
    lg.log("b")
"#,
        )],
        report: "authority of lg: store.Append
  init: -
  log: store.Append
authority of main: store.Append
  run: store.Append
",
        folder: r#"deed store.append("log", "a") = ()
deed store.append("log", "b") = ()
"#,
        after: &[("store", "log", "ab")],
        ..BLANK
    },
];

/// A folder that is handed on with less than it may do, an object that leaves its module, and a callback that code without
/// annotations keeps.
pub static OBJECTS: [Row; 3] = [
    Row {
        words: &["run", "ro.wy"],
        files: &[(
            "ro.wy",
            r#"resource module readonly(d: Folder): Folder
  effect Read = {d.Read}
  effect Write = {}
  effect Append = {}
  effect List = {d.List}
  def read(n: String): {Read} String = d.read(n)
  def has(n: String): {Read} Bool = d.has(n)
  def write(n: String, t: String): {} Unit = ()
  def append(n: String, t: String): {} Unit = ()
  def names(): {List} String = d.names()
program
  grant disk: Folder
  instance ro = readonly(disk)
  run: {ro.Write, ro.Read}
    ro.write("x", ro.read("y"))
"#,
        )],
        before: &[("disk", "y", "q")],
        report: "authority of ro: disk.Read, disk.List
  init: -
  read: disk.Read
  has: disk.Read
  write: -
  append: -
  names: disk.List
authority of main: disk.Read
  run: disk.Read
",
        folder: "deed disk.read(\"y\") = \"q\"\n",
        after: &[("disk", "y", "q"), ("disk", "x", "")],
        ..BLANK
    },
    ESCAPING,
    Row {
        words: &["run", "plug.wy"],
        files: &[(
            "plug.wy",
            r#"type Handler
  effect Fire
  def fire(t: String): {Fire} Unit
type Plug
  effect Use
  def keep(h: Handler[Fire = {Use}]): {Use} Unit
  def go(): {Use} Unit
resource module app(disk: Folder): Handler
  effect Fire = {disk.Append}
  def fire(t: String): {Fire} Unit = disk.append("f", t)
plain module plug(first: Handler): Plug
  var h: Handler = first
  def keep(n: Handler): Unit
    h = n
  def go(): Unit = h.fire("go")
program
  grant disk: Folder
  instance a = app(disk)
  import p = plug(a) at {a.Fire, disk.Append}
  run: {a.Fire, disk.Append}
    p.go()
    val n = new
      def fire(t: String): {disk.Append} Unit = disk.append("g", t)
    p.keep(n)
    p.go()
"#,
        )],
        report: "authority of a: disk.Append
  init: -
  fire: disk.Append
authority of p: disk.Append
  init: disk.Append
  keep: disk.Append
  go: disk.Append
authority of main: disk.Append
  run: disk.Append
  new1.fire: disk.Append
",
        folder: r#"deed disk.append("f", "go") = ()
deed disk.append("g", "go") = ()
"#,
        after: &[("disk", "f", "go"), ("disk", "g", "go")],
        ..BLANK
    },
];

/// A program that is refused.
const REFUSAL: Row = Row { number: 4, ..BLANK };

/// Programs that are refused: of each the last line alone is printed, and no device is asked.
pub static REFUSED: [Row; 6] = [
    Row {
        words: &["run", "log.wy", "main.wy"],
        files: &[
            (
                "log.wy",
                r#"type Logger
  effect Log
  def log(t: String): {Log} Unit
resource module logger(disk: Folder): Logger
  effect Log = {disk.Append}
  def log(t: String): {} Unit = disk.append("log", t)
"#,
            ),
            ("main.wy", MAIN),
        ],
        last: "log.wy:6:3: refused: T-Body premise 2 lacks disk.Append\n",
        ..REFUSAL
    },
    Row {
        words: &["run", "log.wy", "main.wy"],
        files: &[
            ("log.wy", LOG),
            (
                "main.wy",
                r#"program
  grant disk: Folder
  instance lg = logger(disk)
  run: {}
    lg.log("a")
"#,
            ),
        ],
        last: "main.wy:4:3: refused: T-Body premise 2 lacks lg.Log\n",
        ..REFUSAL
    },
    Row {
        words: &["run", "m.wy"],
        files: &[(
            "m.wy",
            r#"type Logger
  effect Log
  def log(t: String): {Log} Unit
resource module logger(disk: Folder): Logger
  effect Log = {disk.Append}
  def log(t: String): {} Unit = disk.append("log", t)
program
  grant store: Folder
  instance lg = logger(store)
  run: {lg.Log}
    lg.log("a")
    lg.log("b")
"#,
        )],
        last: "m.wy:6:3: refused: T-Body premise 2 lacks disk.Append\n",
        ..REFUSAL
    },
    Row {
        words: &["run", "m.wy"],
        files: &[(
            "m.wy",
            r#"type Logger
  effect Log
  def log(t: String): {Log} Unit
resource module logger(disk: Folder): Logger
  effect Log = {disk.Append}
  def log(t: String): {Log} Unit = disk.append("log", t)
program
  grant store: Folder
  instance lg = logger(store)
  run: {}
    lg.log("a")
    lg.log("b")
"#,
        )],
        last: "m.wy:10:3: refused: T-Body premise 2 lacks lg.Log\n",
        ..REFUSAL
    },
    Row {
        words: &["run", "plug.wy"],
        files: &[(
            "plug.wy",
            r#"type Handler
  effect Fire
  def fire(t: String): {Fire} Unit
type Plug
  effect Use
  def keep(h: Handler[Fire = {Use}]): {Use} Unit
  def go(): {Use} Unit
resource module app(disk: Folder): Handler
  effect Fire = {disk.Append}
  def fire(t: String): {Fire} Unit = disk.append("f", t)
plain module plug(first: Handler): Plug
  var h: Handler = first
  def keep(n: Handler): Unit
    h = n
  def go(): Unit = h.fire("go")
program
  grant disk: Folder
  instance a = app(disk)
  import p = plug(a) at {disk.Append}
  run: {a.Fire, disk.Append}
    p.go()
    val n = new
      def fire(t: String): {disk.Append} Unit = disk.append("g", t)
    p.keep(n)
    p.go()
"#,
        )],
        last: "plug.wy:19:10: refused: I-Import premise 1 lacks a.Fire\n",
        ..REFUSAL
    },
    Row {
        words: &["run", "cb.wy"],
        files: &[(
            "cb.wy",
            r#"type Handler
  effect Fire
  def fire(): {Fire} Unit
type Button
  effect Push
  def set(h: Handler[Fire = {}]): {Push} Unit
type Quiet
resource module button(): Button
  effect Push = {}
  def set(h: Handler[Fire = {}]): {Push} Unit = h.fire()
plain module wild(b: Button): Quiet
program
  grant disk: Folder
  instance b = button()
  import w = wild(b) at {b.Push, disk.Write}
  run: {}
    ()
"#,
        )],
        last: "cb.wy:15:10: refused: I-Import premise 2 lacks disk.Write\n",
        ..REFUSAL
    },
];
