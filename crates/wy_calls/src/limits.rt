//! Each limit is met at its number and passed by one more (docs/LANGUAGE.md, "Limits").

use crate::support::{judged_so, outcome_of, wrong_row};
use std::alloc::{AllocError, Global};
use std::test::Fail;

/// The least program.
const EMPTY: &str = "program\n  run: {}\n    ()\n";

/// Its report.
const NOTHING: &str = "authority of main: -\n  run: -\n";

/// What a text has once more for each one that is counted: the same, or a line with its number between two parts.
enum Piece {
    Same(&'static str),
    Numbered(&'static str, &'static str),
}

/// A text of a front, so many pieces and an end, which passes a limit with one piece more.
struct Limited {
    front: &'static str,
    piece: Piece,
    most: u32,
    end: &'static str,
    limit: &'static str,
}

/// The texts by which each limit of a file and of names is met, but for those whose pieces are nested.
static LIMITS: [Limited; 13] = [
    Limited {
        front: "program\n  run: {}\n    ()\n//",
        piece: Piece::Same("x"),
        most: 1_048_548,
        end: "\n",
        limit: "file bytes 1048576",
    },
    Limited {
        front: "program\n  grant ",
        piece: Piece::Same("g"),
        most: 64,
        end: ": Clock\n  run: {}\n    ()\n",
        limit: "name bytes 64",
    },
    Limited {
        front: "program\n  run: {}\n",
        piece: Piece::Same("    ()\n"),
        most: 87_375,
        end: "    ((()))\n",
        limit: "tokens 262144",
    },
    Limited {
        front: "program\n  run: {}\n    val t = 1",
        piece: Piece::Same(" + 1"),
        most: 128,
        end: "\n    ()\n",
        limit: "marks 128",
    },
    Limited {
        front: "",
        piece: Piece::Numbered("type T", "\n"),
        most: 1024,
        end: EMPTY,
        limit: "types 1024",
    },
    Limited {
        front: "type N\n",
        piece: Piece::Numbered("module m", ": N\n"),
        most: 256,
        end: EMPTY,
        limit: "modules 256",
    },
    Limited {
        front: "program\n",
        piece: Piece::Numbered("  grant g", ": Clock\n"),
        most: 64,
        end: "  run: {}\n    ()\n",
        limit: "grants 64",
    },
    Limited {
        front: "type T\n",
        piece: Piece::Numbered("  def f", "(): {} Unit\n"),
        most: 128,
        end: EMPTY,
        limit: "methods 128",
    },
    Limited {
        front: "type N\nmodule m: N\n",
        piece: Piece::Numbered("  val f", ": Int = 1\n"),
        most: 128,
        end: EMPTY,
        limit: "fields 128",
    },
    Limited {
        front: "type T\n  def f(a: Int",
        piece: Piece::Numbered(", b", ": Int"),
        most: 15,
        end: "): {} Unit\nprogram\n  run: {}\n    ()\n",
        limit: "parameters 16",
    },
    Limited {
        front: "type N\ntype T\n",
        piece: Piece::Numbered("  effect E", "\n"),
        most: 32,
        end: "resource module r(a: T, b: T, c: T, d: T, e: T, f: T, g: T, h: T, i: T, j: T, k: T, l: T, m: T, n: T, o: T, p: T): N\nprogram\n  run: {}\n    ()\n",
        limit: "atoms 512",
    },
    Limited {
        front: "program\n  run: {}\n",
        piece: Piece::Numbered("    val t", " = 1\n"),
        most: 254,
        end: "    ()\n",
        limit: "slots 256",
    },
    Limited {
        front: "type N\nresource module m(): N\nprogram\n",
        piece: Piece::Numbered("  instance x", " = m()\n"),
        most: 1024,
        end: "  run: {}\n    ()\n",
        limit: "instances 1024",
    },
];

/// Adds so many times two parts with the number between them, from 1.
pub fn push_numbered(
    alloc: Global,
    text: &mut String,
    before: &str,
    after: &str,
    count: u32,
) -> Result<(), Fail> {
    for at in 1..=count {
        text.push_str(format!(in alloc; "{before}{at}{after}")?.as_str())?;
    }
    Ok(())
}

/// Adds the same so many times.
pub fn push_same(text: &mut String, same: &str, count: u32) -> Result<(), AllocError> {
    for _ in 0..count {
        text.push_str(same)?;
    }
    Ok(())
}

/// Adds the pieces from 1 to a number.
fn push_pieces(alloc: Global, text: &mut String, piece: &Piece, count: u32) -> Result<(), Fail> {
    match piece {
        Piece::Same(same) => Ok(push_same(text, same, count)?),
        Piece::Numbered(before, after) => push_numbered(alloc, text, before, after, count),
    }
}

/// The text with so many pieces.
fn text_of(alloc: Global, limited: &Limited, count: u32) -> Result<String, Fail> {
    let mut text = String::from_str(alloc, limited.front)?;
    push_pieces(alloc, &mut text, &limited.piece, count)?;
    text.push_str(limited.end)?;
    Ok(text)
}

/// Whether the run of a text with as many pieces as the limit has room for ends, whatever its report.
fn ends(alloc: Global, limited: &Limited) -> Result<bool, Fail> {
    let text = text_of(alloc, limited, limited.most)?;
    let done = outcome_of(
        alloc,
        &["run", "b.wy"],
        &[("b.wy", text.as_str().as_bytes())],
    )?;
    Ok(done.number == 0 && done.deeds == 0 && done.report.bytes().ends_with(NOTHING.as_bytes()))
}

/// Whether the run of a text passes the limit, and nothing else comes of it.
fn passes(alloc: Global, text: &str, limit: &str) -> Result<bool, Fail> {
    let line = format!(in alloc; "limit: {limit}\n")?;
    judged_so(alloc, "run", text, 5, "", line.as_str())
}

/// Fails with the number of the first text that meets its limit too early or too late.
fn all_limit_so(alloc: Global, cases: &[Limited]) -> Result<(), Fail> {
    for (at, limited) in cases.iter().enumerate() {
        let passed = text_of(alloc, limited, limited.most.saturating_add(1))?;
        if !passes(alloc, passed.as_str(), limited.limit)? || !ends(alloc, limited)? {
            return Err(wrong_row(at));
        }
    }
    Ok(())
}

#[test]
fn a_limit_is_passed_by_one_more(rt: HostRuntime) -> Result<(), Fail> {
    all_limit_so(rt.alloc(), &LIMITS)
}

/// The words of a run of so many times one file, and then of the least program.
fn words_of(alloc: Global, count: u32) -> Result<Vec<&'static str>, Fail> {
    let mut words = Vec::new(alloc);
    words.push("run")?;
    for _ in 0..count {
        words.push("c.wy")?;
    }
    words.push("a.wy")?;
    Ok(words)
}

/// Whether a run of so many times one file, and of the least program, ends so.
fn runs_so(alloc: Global, count: u32, number: u8, report: &str) -> Result<bool, Fail> {
    let files: [(&str, &[u8]); 2] = [("a.wy", EMPTY.as_bytes()), ("c.wy", b"// a comment\n")];
    let words = words_of(alloc, count)?;
    Ok(outcome_of(alloc, words.as_slice(), &files)?.says(number, "", report))
}

#[test]
fn a_call_has_no_more_files_than_the_limit(rt: HostRuntime) -> Result<(), Fail> {
    let alloc = rt.alloc();
    assert!(rt; runs_so(alloc, 63, 0, NOTHING)?);
    assert!(rt; runs_so(alloc, 64, 5, "limit: files 64\n")?);
    Ok(())
}

/// Pushes so many spaces and a text.
fn push_line(text: &mut String, width: u32, line: &str) -> Result<(), Fail> {
    for _ in 0..width {
        text.push_str(" ")?;
    }
    text.push_str(line)?;
    Ok(())
}

/// A program of so many choices, each within the first branch of the one before.
fn choices(alloc: Global, count: u32) -> Result<String, Fail> {
    let mut text = String::from_str(alloc, "program\n  run: {}\n")?;
    for at in 0..count {
        push_line(
            &mut text,
            at.saturating_mul(2).saturating_add(4),
            "if true\n",
        )?;
    }
    push_line(&mut text, count.saturating_mul(2).saturating_add(4), "()\n")?;
    for at in 0..count {
        let width = count.saturating_sub(at).saturating_mul(2);
        push_line(&mut text, width.saturating_add(2), "else\n")?;
        push_line(&mut text, width.saturating_add(4), "()\n")?;
    }
    Ok(text)
}

#[test]
fn indents_go_to_sixty_four(rt: HostRuntime) -> Result<(), Fail> {
    let alloc = rt.alloc();
    assert!(rt; judged_so(alloc, "run", choices(alloc, 62)?.as_str(), 0, "", NOTHING)?);
    assert!(rt; passes(alloc, choices(alloc, 63)?.as_str(), "indents 64")?);
    Ok(())
}

/// 127 modules of 128 methods each, and the program: 16,384 bodies, since each module has the body of its fields too.
fn bodies(alloc: Global, more: &str) -> Result<String, Fail> {
    let mut text = String::from_str(alloc, "type N\n")?;
    for at in 1..=127u32 {
        text.push_str(format!(in alloc; "module m{at}: N\n")?.as_str())?;
        push_numbered(alloc, &mut text, "  def f", "(): {} Unit = ()\n", 128)?;
    }
    text.push_str(more)?;
    text.push_str(EMPTY)?;
    Ok(text)
}

#[test]
fn a_program_has_no_more_bodies_than_the_limit(rt: HostRuntime) -> Result<(), Fail> {
    let alloc = rt.alloc();
    assert!(rt; judged_so(alloc, "run", bodies(alloc, "")?.as_str(), 0, "", NOTHING)?);
    assert!(rt;
        passes(
            alloc,
            bodies(alloc, "module more: N\n")?.as_str(),
            "bodies 16384"
        )?
    );
    Ok(())
}
