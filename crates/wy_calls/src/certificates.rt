use crate::certificates_table::{LOG, LOGS, SAID, Said, UNSAID};
use crate::devices::Row;
use crate::outside::cut_at;
use crate::policies::lines;
use crate::support::{Outcome, outcome_of, wrong_row};
use crate::three_files_table::RUNS;
use std::alloc::{AllocError, Global};
use std::test::Fail;

const GREEDY: &str = "program\n  grant console: Console\n  run: {}\n    console.write(\"a\")\n";

/// Calls with these words, and a shelf that has the certificate as `c` and the texts.
fn called(alloc: Global, words: &[&str], certificate: &[u8]) -> Result<Outcome, Fail> {
    let files: [(&str, &[u8]); 6] = [
        ("c", certificate),
        ("log.wy", LOG.as_bytes()),
        ("logs.wy", LOGS.as_bytes()),
        ("unsaid.wy", UNSAID.as_bytes()),
        ("greedy.wy", GREEDY.as_bytes()),
        ("bad.wy", b"type\n"),
    ];
    outcome_of(alloc, words, &files)
}

/// Whether a call with this certificate ends so, and nothing else comes of it.
fn is_said(
    alloc: Global,
    certificate: &[u8],
    words: &[&str],
    number: u8,
    out: &str,
    last: &str,
) -> Result<bool, Fail> {
    Ok(called(alloc, words, certificate)?.says(number, out, last))
}

/// Fails with the number of the first case that ends otherwise.
fn all_end_so(alloc: Global, certificate: &[u8], cases: &[Said]) -> Result<(), Fail> {
    for (at, (words, number, out, last)) in cases.iter().enumerate() {
        if !is_said(alloc, certificate, words, *number, out, last)? {
            return Err(wrong_row(at));
        }
    }
    Ok(())
}

#[test]
fn a_certificate_is_for_the_texts_that_it_was_made_for(rt: HostRuntime) -> Result<(), Fail> {
    let alloc = rt.alloc();
    let made = called(alloc, &["certify", "log.wy", "logs.wy"], b"")?;
    assert!(rt; made.number == 0 && made.report.bytes().is_empty());
    all_end_so(alloc, made.out.bytes(), &SAID)
}

/// Whether so many of these bytes can stand in a certificate, and not one more.
fn is_bad_at(alloc: Global, bytes: &[u8], at: usize) -> Result<bool, Fail> {
    let last = format!(in alloc; "c: bad certificate at {at}\n")?;
    is_said(
        alloc,
        bytes,
        &["recheck", "c", "log.wy", "logs.wy"],
        14,
        "",
        last.as_str(),
    )
}

#[test]
fn a_certificate_is_as_long_as_it_is(rt: HostRuntime) -> Result<(), Fail> {
    let alloc = rt.alloc();
    let made = called(alloc, &["certify", "log.wy", "logs.wy"], b"")?;
    let whole = made.out.bytes();
    for end in 0..whole.len() {
        assert!(rt; is_bad_at(alloc, &whole[..end], end)?);
    }
    let longer = lines(alloc, whole, b"\0", 1)?;
    assert!(rt; is_bad_at(alloc, longer.as_slice(), whole.len())?);
    Ok(())
}

/// These words, and the names of a row's files behind them.
fn words_of<'a>(alloc: Global, front: &[&'a str], row: &Row) -> Result<Vec<&'a str>, AllocError> {
    let mut words = Vec::new(alloc);
    for word in front {
        words.push(*word)?;
    }
    for (name, _) in row.files {
        words.push(*name)?;
    }
    Ok(words)
}

/// The certificate as `c`, and a row's files.
fn files_of<'a>(
    alloc: Global,
    certificate: &'a [u8],
    row: &Row,
) -> Result<Vec<(&'a str, &'a [u8])>, AllocError> {
    let mut files: Vec<(&str, &[u8])> = Vec::new(alloc);
    files.push(("c", certificate))?;
    for (name, text) in row.files {
        files.push((*name, text.as_bytes()))?;
    }
    Ok(files)
}

/// Calls with these words and the names of a row's files behind them, and a shelf that has the certificate as `c` and the files.
fn called_on(
    alloc: Global,
    front: &[&str],
    certificate: &[u8],
    row: &Row,
) -> Result<Outcome, Fail> {
    let words = words_of(alloc, front, row)?;
    let files = files_of(alloc, certificate, row)?;
    outcome_of(alloc, words.as_slice(), files.as_slice())
}

/// Whether what `certify` writes of the program of a row proves it.
fn is_proved(alloc: Global, row: &Row) -> Result<bool, Fail> {
    let made = called_on(alloc, &["certify"], b"", row)?;
    let done = called_on(alloc, &["recheck", "c"], made.out.bytes(), row)?;
    Ok(
        made.number == 0
            && made.deeds == 0
            && made.report.bytes().is_empty()
            && done.says(0, "proved\n", ""),
    )
}

#[test]
fn what_is_certified_is_proved(rt: HostRuntime) -> Result<(), Fail> {
    assert!(rt; is_proved(rt.alloc(), &RUNS[0])?);
    Ok(())
}

/// Whether a certificate of the three files is refused as such where this byte of it is changed.
fn is_refused(alloc: Global, front: &[u8], byte: u8, rest: &[u8]) -> Result<bool, Fail> {
    let mut bytes = Vec::new(alloc);
    bytes.extend_from_slice(front)?;
    bytes.push(!byte)?;
    bytes.extend_from_slice(rest)?;
    let done = called_on(alloc, &["recheck", "c"], bytes.as_slice(), &RUNS[0])?;
    Ok((done.number == 14 || done.number == 15) && done.out.bytes().is_empty())
}

#[test]
fn a_certificate_with_a_byte_changed_proves_nothing(rt: HostRuntime) -> Result<(), Fail> {
    let alloc = rt.alloc();
    let made = called_on(alloc, &["certify"], b"", &RUNS[0])?;
    let whole = made.out.bytes();
    for at in 0..whole.len() {
        assert!(rt; is_refused(alloc, &whole[..at], whole[at], &whole[at + 1..])?);
    }
    Ok(())
}

/// As many bytes as a certificate may have, behind a front.
fn large(alloc: Global, front: &[u8]) -> Result<Vec<u8>, Fail> {
    let block = lines(alloc, b"", b"0123456789abcdef", 4_096)?;
    lines(alloc, front, block.as_slice(), 1_024)
}

/// Whether a call with so large a certificate and a text that lacks a name ends so.
fn is_limited(alloc: Global, front: &[u8], number: u8, last: &str) -> Result<bool, Fail> {
    let bytes = large(alloc, front)?;
    is_said(
        alloc,
        bytes.as_slice(),
        &["recheck", "c", "bad.wy"],
        number,
        "",
        last,
    )
}

#[test]
fn a_certificate_has_a_limit_that_comes_before_the_texts(rt: HostRuntime) -> Result<(), Fail> {
    let alloc = rt.alloc();
    assert!(rt; is_limited(alloc, b"W", 5, "limit: certificate bytes 67108864\n")?);
    assert!(rt; is_limited(alloc, b"", 3, "bad.wy:1:5: syntax: Unexpected\n")?);
    Ok(())
}

#[test]
fn a_certificate_that_is_not_written_whole_is_a_prefix(rt: HostRuntime) -> Result<(), Fail> {
    let files: [(&str, &[u8]); 2] = [("log.wy", LOG.as_bytes()), ("logs.wy", LOGS.as_bytes())];
    let done = cut_at(rt.alloc(), &["certify", "log.wy", "logs.wy"], &files, 8)?;
    assert!(rt; done.says(10, b"WYCERT01", "unwritten\n"));
    Ok(())
}
