use crate::support::{outcome_of, wrong_row};
use std::alloc::Global;
use std::test::Fail;

/// Whether the text has the status Syntax, with this last line.
fn is_refused(alloc: Global, text: &[u8], line: &str) -> Result<bool, Fail> {
    Ok(outcome_of(alloc, &["run", "b.wy"], &[("b.wy", text)])?.says(3, "", line))
}

/// Files without tokens, and what is said of each.
static LEXICAL: [(&[u8], &str); 5] = [
    (b"program\n\trun: {}\n", "2:1: syntax: TabIndent"),
    (
        b"program\n    run: {}\n        ()\n  ()\n",
        "4:3: syntax: BadDedent",
    ),
    (
        b"program\n  grant console: Console\n  run: {console.Out}\n    console.write(\"a\n",
        "4:21: syntax: OpenText",
    ),
    (b"program\n  run: {", "2:9: syntax: Unexpected"),
    (b"program\xff", "1:8: syntax: NotUtf8"),
];

/// Fails with the number of the first text of which something else is said.
fn all_are_said(alloc: Global, cases: &[(&[u8], &str)]) -> Result<(), Fail> {
    for (at, (text, line)) in cases.iter().enumerate() {
        let last = format!(in alloc; "b.wy:{line}\n")?;
        if !is_refused(alloc, text, last.as_str())? {
            return Err(wrong_row(at));
        }
    }
    Ok(())
}

#[test]
fn what_is_wrong_in_a_text_is_named_with_its_place(rt: HostRuntime) -> Result<(), Fail> {
    all_are_said(rt.alloc(), &LEXICAL)
}
