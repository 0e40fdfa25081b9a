use crate::limits::push_same;
use crate::support::{outcome_of, wrong_row};
use std::alloc::{AllocError, Global};
use std::test::Fail;

/// Whether a call of `run` with these words and files has the status of the number and the report, and does
/// nothing.
fn ends_so(
    alloc: Global,
    words: &[&str],
    files: &[(&str, &[u8])],
    number: u8,
    report: &str,
) -> Result<bool, Fail> {
    Ok(outcome_of(alloc, words, files)?.says(number, "", report))
}

const EMPTY: &[u8] = b"program\n  run: {}\n    ()\n";

const LOG: &[u8] =
    b"type Logger\n  effect Log\n  def log(t: String): {Log} Unit\nresource module logger(disk: Folder): Logger\n  effect Log = {disk.Append}\n  def log(t: String): {Log} Unit = disk.append(\"log\", t)\n";

const MAIN: &[u8] =
    b"program\n  grant disk: Folder\n  instance lg = logger(disk)\n  run: {lg.Log}\n    lg.log(\"a\")\n";

/// Words, the number of the status, and the report.
static ORDERS: [(&[&str], u8, &str); 3] = [
    (
        &["run", "a.wy", "a.wy"],
        4,
        "a.wy:1:1: refused: N-TwoPrograms premise 1\n",
    ),
    (
        &["run", "log.wy", "log.wy", "main.wy"],
        4,
        "log.wy:1:6: refused: N-Twice premise 1\n",
    ),
    (
        &["run", "log.wy"],
        4,
        "log.wy:1:1: refused: N-NoProgram premise 1\n",
    ),
];

/// Fails with the number of the first case that ends otherwise.
fn all_end_so(alloc: Global, cases: &[(&[&str], u8, &str)]) -> Result<(), Fail> {
    let files: [(&str, &[u8]); 3] = [("a.wy", EMPTY), ("log.wy", LOG), ("main.wy", MAIN)];
    for (at, (words, number, report)) in cases.iter().enumerate() {
        if !ends_so(alloc, words, &files, *number, report)? {
            return Err(wrong_row(at));
        }
    }
    Ok(())
}

#[test]
fn names_of_several_files_are_judged_together(rt: HostRuntime) -> Result<(), Fail> {
    all_end_so(rt.alloc(), &ORDERS)
}

/// A text that has a piece so many times between a front and an end.
fn built(
    alloc: Global,
    front: &str,
    piece: &str,
    end: &str,
    count: u32,
) -> Result<String, AllocError> {
    let mut text = String::from_str(alloc, front)?;
    push_same(&mut text, piece, count)?;
    text.push_str(end)?;
    Ok(text)
}

/// Whether this is reported of such a text.
fn is_said(
    alloc: Global,
    front: &str,
    piece: &str,
    end: &str,
    count: u32,
    report: &str,
) -> Result<bool, Fail> {
    let text = built(alloc, front, piece, end, count)?;
    let done = outcome_of(
        alloc,
        &["run", "b.wy"],
        &[("b.wy", text.as_str().as_bytes())],
    )?;
    Ok(done.report.bytes() == report.as_bytes())
}

/// A front, a piece and an end; how often the piece stands where a count is at its limit; what is refused there;
/// and the limit that one piece more passes.
type Limited = (
    &'static str,
    &'static str,
    &'static str,
    u32,
    &'static str,
    &'static str,
);

static LIMITS: [Limited; 15] = [
    (
        "",
        "type T\n",
        "",
        1024,
        "2:6: refused: N-Twice",
        "types 1024",
    ),
    (
        "",
        "module m: T\n",
        "",
        256,
        "1:11: refused: N-Unknown",
        "modules 256",
    ),
    (
        "program\n",
        "  grant g: Clock\n",
        "  run: {}\n    ()\n",
        64,
        "3:9: refused: N-Twice",
        "grants 64",
    ),
    (
        "program\n  run: {}\n    ()\nprogram\n",
        "  grant g: Clock\n",
        "  run: {}\n    ()\n",
        64,
        "4:1: refused: N-TwoPrograms",
        "grants 64",
    ),
    (
        "type T\n",
        "  def f(): {} Unit\n",
        "",
        128,
        "3:7: refused: N-Twice",
        "methods 128",
    ),
    (
        "type N\nmodule m: N\n",
        "  def f(): {} Unit = ()\n",
        "",
        128,
        "4:7: refused: N-Twice",
        "methods 128",
    ),
    (
        "program\n  run: {}\n    val x = new\n",
        "      def f(): {} Unit = ()\n",
        "    ()\n",
        128,
        "5:11: refused: N-Twice",
        "methods 128",
    ),
    (
        "type N\nmodule m: N\n",
        "  val f: Int = 1\n",
        "",
        128,
        "4:7: refused: N-Twice",
        "fields 128",
    ),
    (
        "program\n  run: {}\n    val x = new\n",
        "      val f: Int = 1\n",
        "    ()\n",
        128,
        "5:11: refused: N-Twice",
        "fields 128",
    ),
    (
        "type T\n  def f(",
        "a: Int, ",
        "a: Int): {} Unit\n",
        15,
        "2:17: refused: N-Twice",
        "parameters 16",
    ),
    (
        "resource module r(",
        "p: N, ",
        "p: N): N\n",
        15,
        "1:22: refused: N-Unknown",
        "parameters 16",
    ),
    (
        "program\n  run: {}\n    val x = new\n      def f(",
        "a: Int, ",
        "a: Int): {} Unit = ()\n    ()\n",
        15,
        "4:21: refused: N-Twice",
        "parameters 16",
    ),
    (
        "type T\n",
        "  effect A\n",
        "",
        512,
        "3:10: refused: N-Twice",
        "atoms 512",
    ),
    (
        "type E\n  effect A\nresource module r(): E\nresource module s(): E\n",
        "  instance x = r()\n",
        "",
        512,
        "3:17: refused: N-MemberUndefined",
        "atoms 512",
    ),
    (
        "type E\n  effect A\nresource module r(): E\nprogram\n",
        "  instance x = r()\n",
        "  run: {}\n    ()\n",
        512,
        "3:17: refused: N-MemberUndefined",
        "atoms 512",
    ),
];

/// Fails with the number of the first case in which the limit comes too early or too late.
fn all_limit_so(alloc: Global, cases: &[Limited]) -> Result<(), Fail> {
    for (at, (front, piece, end, most, refused, limit)) in cases.iter().enumerate() {
        let refusal = format!(in alloc; "b.wy:{refused} premise 1\n")?;
        let met = is_said(alloc, front, piece, end, *most, refusal.as_str())?;
        let last = format!(in alloc; "limit: {limit}\n")?;
        if !met
            || !is_said(
                alloc,
                front,
                piece,
                end,
                most.saturating_add(1),
                last.as_str(),
            )?
        {
            return Err(wrong_row(at));
        }
    }
    Ok(())
}

#[test]
fn a_limit_of_names_comes_before_all_refusals(rt: HostRuntime) -> Result<(), Fail> {
    all_limit_so(rt.alloc(), &LIMITS)
}

/// Of two limits that are passed the earlier in the table comes, whatever stands first in the text.
#[test]
fn limits_of_names_come_in_their_order(rt: HostRuntime) -> Result<(), Fail> {
    let alloc = rt.alloc();
    let front =
        "type T\n  def f(a: Int, a: Int, a: Int, a: Int, a: Int, a: Int, a: Int, a: Int, a: Int, a: Int, a: Int, a: Int, a: Int, a: Int, a: Int, a: Int, a: Int): {} Unit\nprogram\n";
    let grant = "  grant g: Clock\n";
    let end = "  run: {}\n    ()\n";
    assert!(rt; is_said(alloc, front, grant, end, 65, "limit: grants 64\n")?);
    assert!(rt; is_said(alloc, front, grant, end, 64, "limit: parameters 16\n")?);
    Ok(())
}
