use crate::outside::cut_at;
use crate::policies_table::{JUDGED, Judged};
use crate::support::{Outcome, outcome_of, wrong_row};
use crate::three_files_table::{MAIN, PARTS, TYPES};
use std::alloc::{AllocError, Global};
use std::test::Fail;

const EMPTY: &str = "program\n  run: {}\n    ()\n";

/// Calls with these words, and a shelf that has the policy as `p.pol` and the texts.
fn policed(alloc: Global, words: &[&str], policy: &[u8]) -> Result<Outcome, Fail> {
    let files: [(&str, &[u8]); 5] = [
        ("p.pol", policy),
        ("types.wy", TYPES.as_bytes()),
        ("parts.wy", PARTS.as_bytes()),
        ("main.wy", MAIN.as_bytes()),
        ("empty.wy", EMPTY.as_bytes()),
    ];
    outcome_of(alloc, words, &files)
}

/// Whether the program of these texts is judged so by a policy, and nothing else comes of the call.
fn is_judged(
    alloc: Global,
    policy: &[u8],
    texts: &[&str],
    number: u8,
    out: &str,
    last: &str,
) -> Result<bool, Fail> {
    let mut words = Vec::new(alloc);
    words.push("policy")?;
    words.push("p.pol")?;
    for text in texts {
        words.push(*text)?;
    }
    Ok(policed(alloc, words.as_slice(), policy)?.says(number, out, last))
}

/// Fails with the number of the first case that ends otherwise.
fn all_are_judged(alloc: Global, cases: &[Judged]) -> Result<(), Fail> {
    for (at, (policy, texts, number, out, last)) in cases.iter().enumerate() {
        if !is_judged(alloc, policy.as_bytes(), texts, *number, out, last)? {
            return Err(wrong_row(at));
        }
    }
    Ok(())
}

#[test]
fn a_program_is_judged_by_its_policy(rt: HostRuntime) -> Result<(), Fail> {
    all_are_judged(rt.alloc(), &JUDGED)
}

/// Bytes: a front, and so many times a line.
pub fn lines(alloc: Global, front: &[u8], line: &[u8], count: usize) -> Result<Vec<u8>, Fail> {
    let mut bytes = Vec::new(alloc);
    bytes.extend_from_slice(front)?;
    for _ in 0..count {
        bytes.extend_from_slice(line)?;
    }
    Ok(bytes)
}

/// Whether an empty program is judged so by a policy of a front and so many times a line.
fn are_judged(
    alloc: Global,
    front: &[u8],
    line: &[u8],
    count: usize,
    number: u8,
    out: &str,
    last: &str,
) -> Result<bool, Fail> {
    let policy = lines(alloc, front, line, count)?;
    is_judged(alloc, policy.as_slice(), &["empty.wy"], number, out, last)
}

#[test]
fn a_policy_has_limits_that_come_before_its_lines(rt: HostRuntime) -> Result<(), Fail> {
    let alloc = rt.alloc();
    let line: &[u8] = b"//345678901234\r\n";
    assert!(rt; are_judged(alloc, b"", line, 65_536, 0, "allowed\n", "")?);
    let bytes = "limit: file bytes 1048576\n";
    assert!(rt; are_judged(alloc, b"?", line, 65_536, 5, "", bytes)?);
    let row: &[u8] = b"a: -\n";
    assert!(rt; are_judged(alloc, b"?\n", row, 4_096, 17, "", "p.pol:1: bad policy\n")?);
    let rows = "limit: policy rows 4096\n";
    assert!(rt; are_judged(alloc, b"?\n", row, 4_097, 5, "", rows)?);
    Ok(())
}

/// The policy's file so many times, and the empty program's.
fn many(alloc: Global, count: usize) -> Result<Vec<&'static str>, AllocError> {
    let mut texts = Vec::new(alloc);
    for _ in 0..count {
        texts.push("p.pol")?;
    }
    texts.push("empty.wy")?;
    Ok(texts)
}

#[test]
fn all_file_words_count_the_policy_too(rt: HostRuntime) -> Result<(), Fail> {
    let alloc = rt.alloc();
    let comment: &[u8] = b"// a comment\n";
    assert!(rt;
        is_judged(
            alloc,
            comment,
            many(alloc, 62)?.as_slice(),
            0,
            "allowed\n",
            ""
        )?
    );
    let last = "limit: files 64\n";
    assert!(rt; is_judged(alloc, comment, many(alloc, 63)?.as_slice(), 5, "", last)?);
    Ok(())
}

#[test]
fn a_judgement_that_is_not_written_whole_is_a_prefix(rt: HostRuntime) -> Result<(), Fail> {
    let alloc = rt.alloc();
    let files: [(&str, &[u8]); 2] = [("p.pol", b""), ("a.wy", EMPTY.as_bytes())];
    let done = cut_at(alloc, &["policy", "p.pol", "a.wy"], &files, 3)?;
    assert!(rt; done.says(10, b"all", "unwritten\n"));
    Ok(())
}
