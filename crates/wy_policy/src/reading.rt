ghost use Rattle.std.specs.Prelude.{◌≡◌, ◌≤◌, ◌+◌, length, IfErr, IfOk, OnOk};
ghost use Rattle.std.specs.Option.{option_copied};
ghost use Rattle.wy_policy.specs.Policy.{IsPolicy, IsRefused, is_blank, is_comment, lines_of, most_bytes};
ghost use Rattle.wy_policy.specs.Reading.{Adds, content_in, first_bad, meant_of, rows_read, without_return};

use crate::cutting::cut;
use crate::policy::{Policy, PolicyRefusal, PolicyRow};
use crate::rows::row_of;
use std::alloc::Global;
use wy_text::limit::{LimitName, MOST_FILE_BYTES, MOST_POLICY_ROWS};
use wy_text::list::Items;
use wy_text::text::Memory;

/// What the lines so far say: their rows, and the number of the first that is bad.
#[derive(Drop)]
struct Said {
    rows: Items<PolicyRow>,
    bad: Option<u32>,
}

fn is_blank(content: &[u8]) -> bool
    ensures { result ≡ is_blank content.now }
{
    content.iter().all(|byte| *byte == b' ')
}

fn is_comment(content: &[u8]) -> bool
    ensures { result ≡ is_comment content.now }
{
    match content {
        [b'/', b'/', ..] => true,
        _ => false,
    }
}

/// A line without the carriage return at its end.
fn without_return(line: &[u8]) -> &[u8]
    ensures { result.now ≡ without_return line.now }
{
    let Some((last, front)) = line.split_last() else {
        return line;
    };
    if *last == b'\r' { front } else { line }
}

/// What a line has before its end; a carriage return belongs to the end where a newline stands behind it.
fn content_of<'a>(line: &'a [u8], behind: Option<&'a [u8]>) -> &'a [u8]
    ensures { result.now ≡ content_in line.now (option_copied behind.entry) }
{
    match behind {
        Some(_) => without_return(line),
        None => line,
    }
}

/// Adds what a line of this number says.
fn read_line(said: &mut Said, alloc: Global, number: u32, content: &[u8]) -> Result<(), Memory>
    ensures { OnOk result (Adds number (meant_of number content.now) said.old said.new) }
{
    if is_comment(content) || is_blank(content) {
        return Ok(());
    }
    match row_of(alloc, number, content)? {
        Some(row) => said.rows.push(row)?,
        None => said.bad = said.bad.or(Some(number)),
    }
    Ok(())
}

/// Reads all lines.
fn read_lines(alloc: Global, bytes: &[u8]) -> Result<Said, Memory>
    requires { length bytes.now ≤ most_bytes }
    ensures { IfOk result (λ said. (said.rows ≡ rows_read (lines_of bytes.now)) × (said.bad ≡ first_bad (lines_of bytes.now))) }
{
    let mut said = Said {
        rows: Items::new(alloc),
        bad: None,
    };
    let mut number = 1;
    let mut rest = Some(bytes);
    while let Some(text) = rest {
        let (line, behind) = cut(b'\n', text);
        read_line(&mut said, alloc, number, content_of(line, behind))?;
        number += 1;
        rest = behind;
    }
    Ok(said)
}

/// The policy that the bytes of a file are (docs/LANGUAGE.md, "Policies"). Of what is refused the limits come first:
/// `FileBytes` exactly where there are more than 1,048,576 bytes, else `PolicyRows` exactly where more than 4,096 lines are rows.
/// `BadPolicy` comes exactly where a line is neither blank nor a comment nor a row, and has the number of the first such line.
pub fn read_policy(alloc: Global, bytes: &[u8]) -> Result<Policy, PolicyRefusal>
    ensures read { IfOk result (λ policy. IsPolicy bytes.now policy.rows) }
    ensures refused { IfErr result (IsRefused bytes.now) }
{
    if bytes.len() > MOST_FILE_BYTES {
        return Err(PolicyRefusal::Limit(LimitName::FileBytes));
    }
    let Ok(said) = read_lines(alloc, bytes) else {
        return Err(PolicyRefusal::Memory);
    };
    if said.rows.len() > MOST_POLICY_ROWS {
        return Err(PolicyRefusal::Limit(LimitName::PolicyRows));
    }
    match said.bad {
        Some(line) => Err(PolicyRefusal::BadPolicy(line)),
        None => Ok(Policy { rows: said.rows }),
    }
}
