//! The files of a program of three: its types, its parts, and the program.

/// The types.
pub const TYPES: &str = r#"type Logger
  effect Log
  def log(t: String): {Log} Unit
type Names
  def safe(t: String): {} String
type Taker
  effect Got
  def got(t: String): {Got} Unit
type Report
  effect All
  def each(s: Taker[Got = {All}]): {All} Unit
"#;

/// The modules.
pub const PARTS: &str = r#"module clean: Names
  def safe(t: String): {} String
    if text_size(t) == 0
      "empty"
    else
      t
resource module logger(disk: Folder): Logger
  use clean
  effect Log = {disk.Append}
  def log(t: String): {Log} Unit = disk.append("log", clean.safe(t) ++ "\n")
plain module report(l: Logger, d: Folder): Report
  var last: String = ""
  def each(s: Taker): Unit
    last = d.read("in")
    l.log(last)
    s.got(last)
"#;

/// The program.
pub const MAIN: &str = r#"program
  grant console: Console
  grant data: Folder
  grant logs: Folder
  use clean
  instance lg = logger(logs)
  import rep = report(lg, data) at {lg.Log, data.Read, data.Write, data.Append, data.List, console.Out}
  run: {lg.Log, data.Read, data.Write, data.Append, data.List, console.Out}
    val s = new
      def got(t: String): {console.Out} Unit = console.write(clean.safe(t))
    rep.each(s)
    lg.log("done")
"#;
