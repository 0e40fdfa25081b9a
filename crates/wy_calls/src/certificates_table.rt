//! Calls with the certificate of a logger, and what comes of each.

/// The words of a call, the number of the status, what is written to `out`, and the last line.
pub type Said = (&'static [&'static str], u8, &'static str, &'static str);

pub const LOG: &str = r#"type Logger
  effect Log
  def log(t: String): {Log} Unit
resource module logger(disk: Folder): Logger
  effect Log = {disk.Append}
  def log(t: String): {Log} Unit = disk.append("log", t)
"#;

pub const LOGS: &str = r#"program
  grant disk: Folder
  instance lg = logger(disk)
  run: {lg.Log}
    lg.log("a")
"#;

/// The same, but that it does not say so.
pub const UNSAID: &str = r#"program
  grant disk: Folder
  instance lg = logger(disk)
  run: {}
    lg.log("a")
"#;

/// Calls with the certificate of `log.wy` and `logs.wy` as `c`.
pub static SAID: [Said; 6] = [
    (&["recheck", "c", "log.wy", "logs.wy"], 0, "proved\n", ""),
    (
        &["recheck", "c", "log.wy", "unsaid.wy"],
        15,
        "",
        "c: unproved 1 C-Nodes 3\n",
    ),
    (
        &["recheck", "c", "logs.wy", "log.wy"],
        15,
        "",
        "c: unproved 0 C-Nodes 0\n",
    ),
    (
        &["recheck", "c", "greedy.wy"],
        15,
        "",
        "c: unproved 0 C-Scopes 0\n",
    ),
    (
        &["recheck", "c", "log.wy"],
        4,
        "",
        "log.wy:1:1: refused: N-NoProgram premise 1\n",
    ),
    (
        &["recheck", "c", "log.wy", "bad.wy"],
        3,
        "",
        "bad.wy:1:5: syntax: Unexpected\n",
    ),
];
