use crate::authorities::{Instance, authority};
use std::alloc::Global;
use std::test::Fail;
use wy_policy::{
    Entry, Judgement, Member, Pattern, Policy, PolicyRefusal, PolicyRow, judge, read_policy,
};
use wy_text::text::Memory;

/// Adds an entry, as `[grant]member` or `[grant]`.
fn push_entry(out: &mut String, alloc: Global, entry: &Entry) -> Result<(), Fail> {
    let grant = std::str::from_utf8(entry.grant.as_bytes())?;
    let member = match &entry.member {
        Member::Every => "",
        Member::Named(name) => std::str::from_utf8(name.as_bytes())?,
    };
    let piece = format!(in alloc; " [{grant}]{member}")?;
    out.push_str(piece.as_str())?;
    Ok(())
}

/// Adds a row: its line, `is` or `begins` with its pattern's name, and its entries.
fn push_row(out: &mut String, alloc: Global, row: &PolicyRow) -> Result<(), Fail> {
    let (word, name) = match &row.pattern {
        Pattern::Whole(name) => ("is", name),
        Pattern::Front(front) => ("begins", front),
    };
    let name = std::str::from_utf8(name.as_bytes())?;
    let line = row.line;
    let piece = format!(in alloc; "{line} {word} <{name}>")?;
    out.push_str(piece.as_str())?;
    for entry in row.allowed.as_slice() {
        push_entry(out, alloc, entry)?;
    }
    out.push_str(";")?;
    Ok(())
}

/// A policy's rows.
fn rows_shown(alloc: Global, policy: &Policy) -> Result<String, Fail> {
    let mut out = String::new(alloc);
    for row in policy.rows.as_slice() {
        push_row(&mut out, alloc, row)?;
    }
    Ok(out)
}

/// What is read: a policy's rows, or why there is none.
fn shown(alloc: Global, bytes: &[u8]) -> Result<String, Fail> {
    match read_policy(alloc, bytes) {
        Ok(policy) => rows_shown(alloc, &policy),
        Err(PolicyRefusal::Limit(name)) => {
            let name = name.name();
            Ok(format!(in alloc; "limit {name}")?)
        }
        Err(PolicyRefusal::BadPolicy(line)) => Ok(format!(in alloc; "bad {line}")?),
        Err(PolicyRefusal::Memory) => Ok(format!(in alloc; "memory")?),
    }
}

/// Texts of policies, each with what is read.
static TEXTS: [(&[u8], &str); 11] = [
    (b"", ""),
    (b"\n   \n// x: -\r\n//", ""),
    (b"a: -", "1 is <a>;"),
    (b"a: -\r\n\nb*: -\n", "1 is <a>;3 begins <b>;"),
    (b"*: d.*", "1 begins <> [d];"),
    (b"pure a: d.Read", "1 is <pure a> [d]Read;"),
    (b" a : d.R, e.*, d.R", "1 is < a > [d]R [e] [d]R;"),
    (
        b"\xc3\xa9*: \xc3\xa9.\xc3\xa9",
        "1 begins <\u{e9}> [\u{e9}]\u{e9};",
    ),
    (b"/ x: -", "1 is </ x>;"),
    (b"a: mains.atom", "1 is <a> [mains]atom;"),
    (b" // x", "bad 1"),
];

#[test]
fn a_line_is_blank_a_comment_or_a_row(rt: HostRuntime) -> Result<(), Fail> {
    let alloc = rt.alloc();
    for (bytes, wanted) in &TEXTS {
        let found = shown(alloc, bytes)?;
        assert_eq!(rt; found.as_str(), *wanted);
    }
    Ok(())
}

/// A first piece, so many of another, and a last one.
fn built(
    alloc: Global,
    first: &[u8],
    piece: &[u8],
    count: u32,
    last: &[u8],
) -> Result<Vec<u8>, Fail> {
    let mut bytes = Vec::from_slice(alloc, first)?;
    for _ in 0..count {
        bytes.extend_from_slice(piece)?;
    }
    bytes.extend_from_slice(last)?;
    Ok(bytes)
}

/// First pieces, others so many times and last ones, each with what is read of the whole.
static LIMITED: [(&[u8], &[u8], u32, &[u8], &str); 5] = [
    (b"x\n", b"a: -\n", 4_096, b"", "bad 1"),
    (b"x\n", b"a: -\n", 4_096, b"//: -", "bad 1"),
    (b"x\n", b"a: -\n", 4_096, b"a: -", "limit policy rows"),
    (b"//", b"..", 524_287, b"", ""),
    (b"//", b"..", 524_287, b"x", "limit file bytes"),
];

#[test]
fn limits_come_before_bad_lines(rt: HostRuntime) -> Result<(), Fail> {
    let alloc = rt.alloc();
    for (first, piece, count, last, wanted) in &LIMITED {
        let bytes = built(alloc, first, piece, *count, last)?;
        let found = shown(alloc, bytes.as_slice())?;
        assert_eq!(rt; found.as_str(), *wanted);
    }
    Ok(())
}

static ATOMS: [(&str, &str); 3] = [("console", "Out"), ("data", "Read"), ("logs", "Append")];

/// A pure instance, a logger, a reporter and the program, over a console and two folders.
static REPORTING: [Instance; 4] = [
    ("pure clean", &[("init", &[]), ("put", &[])]),
    ("lg", &[("init", &[]), ("put", &[2])]),
    ("rep", &[("init", &[]), ("put", &[0, 1, 2])]),
    ("main", &[("init", &[]), ("put", &[0, 1, 2])]),
];

/// A judgement: nothing, or the line, the instance and the atom of a denial.
fn told(alloc: Global, judgement: &Judgement) -> Result<String, Fail> {
    match judgement {
        Judgement::Allowed => Ok(format!(in alloc; "allowed")?),
        Judgement::Denied {
            line,
            instance,
            atom,
        } => {
            let name = std::str::from_utf8(instance.as_bytes())?;
            let owner = std::str::from_utf8(atom.owner.as_bytes())?;
            let member = std::str::from_utf8(atom.member.as_bytes())?;
            Ok(format!(in alloc; "{line} {name} {owner}.{member}")?)
        }
    }
}

/// The judgement of a policy on that authority.
fn judged(alloc: Global, policy: &Policy) -> Result<Judgement, Memory> {
    let authority = authority(alloc, &ATOMS, &REPORTING)?;
    judge(alloc, policy, &authority)
}

/// What a text says of that authority.
fn said(alloc: Global, bytes: &[u8]) -> Result<String, Fail> {
    let Ok(policy) = read_policy(alloc, bytes) else {
        return Ok(format!(in alloc; "no policy")?);
    };
    told(alloc, &judged(alloc, &policy)?)
}

/// Policies, each with what it says of that authority.
static SAID: [(&[u8], &str); 2] = [
    (
        b"pure *: -\nlg: logs.Append\nrep: data.*, console.Out, logs.Append\nmain: data.*, console.Out, logs.Append",
        "allowed",
    ),
    (
        b"pure *: -\nlg: logs.Append\nrep: data.*, logs.Append\nmain: data.*, console.Out, logs.Append",
        "3 rep console.Out",
    ),
];

#[test]
fn each_instance_goes_by_its_first_row(rt: HostRuntime) -> Result<(), Fail> {
    let alloc = rt.alloc();
    for (bytes, wanted) in &SAID {
        let found = said(alloc, bytes)?;
        assert_eq!(rt; found.as_str(), *wanted);
    }
    Ok(())
}
