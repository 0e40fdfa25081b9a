//! Programs and files that ask too much, or end too early.

use crate::devices::{BLANK, Part, Row, all_come_so, ends_over, is_quiet, stops_so};
use crate::three_files_table::{MAIN, PARTS, RUNS, TYPES};
use crate::tracing_table::THREE_FILES;
use std::alloc::Global;
use std::test::Fail;
use wy_memory::{FolderFile, FolderList};
use wy_text::list::Items;
use wy_text::text::{Memory, from_bytes, from_vec};

/// A program that makes as many texts as a run may have, and then one more.
static BURN: [Row; 1] = [Row {
    words: &["run", "--steps", "1000000000", "burn.wy"],
    files: &[(
        "burn.wy",
        r#"type Burn
  def go(n: Int): {} Unit
resource module burn(): Burn
  def go(n: Int): {} Unit
    if n == 0
      val t = text_byte(0)
      ()
    else
      this.go(n - 1)
      this.go(n - 1)
program
  instance b = burn()
  run: {}
    b.go(22)
    val t = text_byte(0)
    ()
"#,
    )],
    number: 6,
    report: "authority of b: -\n  init: -\n  go: -\nauthority of main: -\n  run: -\n",
    last: "burn.wy:15:13: trap: Crowded\n",
    ..BLANK
}];

#[test]
fn texts_are_counted(rt: HostRuntime) -> Result<(), Fail> {
    all_come_so(rt.alloc(), &BURN)
}

/// A program that joins a text of its folder to itself, and then one byte to both.
const BIG: Row = Row {
    words: &["run", "big.wy"],
    files: &[(
        "big.wy",
        r#"program
  grant disk: Folder
  run: {disk.Read}
    val a = disk.read("big")
    val b = a ++ a
    val c = b ++ "x"
    ()
"#,
    )],
    report: "authority of main: disk.Read\n  run: disk.Read\n",
    ..BLANK
};

/// A folder with a text of so many bytes.
fn big_text(alloc: Global, size: usize) -> Result<FolderList, Memory> {
    let text = from_vec(vec![in alloc; b'x'; size]?);
    let mut files = Items::new(alloc);
    files.push(FolderFile {
        grant: from_bytes(alloc, b"disk")?,
        name: from_bytes(alloc, b"big")?,
        text,
    })?;
    Ok(files)
}

/// Its call, which ends with the status of the number and the last line.
fn joining(number: u8, last: &'static str) -> Row {
    Row {
        number,
        last,
        ..BIG
    }
}

/// Whether it ends so with a text of so many bytes.
fn is_joined(alloc: Global, size: usize, number: u8, last: &'static str) -> Result<bool, Fail> {
    ends_over(alloc, &joining(number, last), big_text(alloc, size)?, 1)
}

#[test]
fn a_text_is_as_long_as_a_run_may_have_it(rt: HostRuntime) -> Result<(), Fail> {
    let alloc = rt.alloc();
    for (size, number, last) in [
        (2_097_151, 0, ""),
        (2_097_152, 6, "big.wy:6:15: trap: LongText\n"),
        (2_097_153, 6, "big.wy:5:15: trap: LongText\n"),
    ] {
        assert!(rt; is_joined(alloc, size, number, last)?, "{size}");
    }
    Ok(())
}

#[test]
fn a_file_that_is_cut_anywhere_asks_no_device_unless_it_runs(rt: HostRuntime) -> Result<(), Fail> {
    let alloc = rt.alloc();
    let main = MAIN.as_bytes();
    for end in 0..main.len() {
        let files: [(&str, &[u8]); 3] = [
            ("types.wy", TYPES.as_bytes()),
            ("parts.wy", PARTS.as_bytes()),
            ("main.wy", &main[..end]),
        ];
        assert!(rt; is_quiet(alloc, &RUNS[0], &files)?);
    }
    Ok(())
}

/// The trace of three files, of which the line with this number is not written.
fn cut_at(call: u64) -> Row {
    Row {
        failing: Some((Part::Out, call)),
        number: 10,
        ..THREE_FILES
    }
}

#[test]
fn a_trace_that_is_cut_anywhere_did_what_comes_first(rt: HostRuntime) -> Result<(), Fail> {
    let alloc = rt.alloc();
    for call in 1..=26u64 {
        assert!(rt; stops_so(alloc, &cut_at(call))?);
    }
    Ok(())
}
