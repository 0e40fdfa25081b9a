ghost use Rattle.std.specs.Prelude.{◌≡◌, ◌≤◌, length, IfOk, Some};
ghost use Rattle.wy_policy.specs.Policy.{is_plain};
ghost use Rattle.wy_policy.specs.Reading.{Pushes, entries_read, entry_read, member_read, pieces, plain_len, row_parts, row_read, row_with, set_read};

use crate::cutting::cut;
use crate::policy::{Entry, Member, Pattern, PolicyRow};
use std::alloc::Global;
use wy_layout::is_identifier;
use wy_text::list::Items;
use wy_text::text::{Memory, from_bytes};

/// A member behind its dot.
fn member_of(alloc: Global, text: &[u8]) -> Result<Option<Member>, Memory>
    ensures { IfOk result (λ m. m ≡ member_read text.now) }
{
    if text == b"*".as_slice() {
        return Ok(Some(Member::Every));
    }
    if !is_identifier(text) {
        return Ok(None);
    }
    Ok(Some(Member::Named(from_bytes(alloc, text)?)))
}

/// An entry with a space before it.
fn entry_of(alloc: Global, piece: &[u8]) -> Result<Option<Entry>, Memory>
    ensures { IfOk result (λ e. e ≡ entry_read piece.now) }
{
    let [b' ', text @ ..] = piece else {
        return Ok(None);
    };
    let (grant, Some(behind)) = cut(b'.', text) else {
        return Ok(None);
    };
    if !is_identifier(grant) {
        return Ok(None);
    }
    let Some(member) = member_of(alloc, behind)? else {
        return Ok(None);
    };
    Ok(Some(Entry {
        grant: from_bytes(alloc, grant)?,
        member,
    }))
}

/// Adds the entry that a piece is, where it is one; says whether it is.
fn push_entry(entries: &mut Items<Entry>, alloc: Global, piece: &[u8]) -> Result<bool, Memory>
    ensures { IfOk result (λ taken. Pushes entries.old (entry_read piece.now) entries.new taken) }
{
    match entry_of(alloc, piece)? {
        None => Ok(false),
        Some(entry) => {
            entries.push(entry)?;
            Ok(true)
        }
    }
}

/// The entries that stand between commas, each with a space before it.
fn entries_of(alloc: Global, text: &[u8]) -> Result<Option<Items<Entry>>, Memory>
    ensures { IfOk result (λ e. e ≡ entries_read (pieces text.now)) }
{
    let mut entries = Items::new(alloc);
    let mut rest = Some(text);
    while let Some(text) = rest {
        let (piece, behind) = cut(b',', text);
        if !push_entry(&mut entries, alloc, piece)? {
            return Ok(None);
        }
        rest = behind;
    }
    Ok(Some(entries))
}

/// A set with a space before it.
fn set_of(alloc: Global, text: &[u8]) -> Result<Option<Items<Entry>>, Memory>
    ensures { IfOk result (λ s. s ≡ set_read text.now) }
{
    if text == b" -".as_slice() {
        return Ok(Some(Items::new(alloc)));
    }
    entries_of(alloc, text)
}

fn is_plain(byte: u8) -> bool
    ensures { result ≡ is_plain byte }
{
    byte >= 32 && byte != 127 && byte != b'*' && byte != b':'
}

/// How many bytes at the front of a text stand for themselves in a pattern.
fn plain_len(text: &[u8]) -> usize
    ensures value { result ≡ plain_len text.now }
    ensures within { result ≤ length text.now }
{
    let mut rest = text;
    while let [byte, more @ ..] = rest {
        if !is_plain(*byte) {
            break;
        }
        rest = more;
    }
    text.len() - rest.len()
}

/// The row that a pattern and what stands behind it are.
fn row_with(
    alloc: Global,
    line: u32,
    pattern: Pattern,
    rest: &[u8],
) -> Result<Option<PolicyRow>, Memory>
    ensures { IfOk result (λ r. r ≡ row_with line (Some pattern) rest.now) }
{
    let [b':', text @ ..] = rest else {
        return Ok(None);
    };
    let Some(allowed) = set_of(alloc, text)? else {
        return Ok(None);
    };
    Ok(Some(PolicyRow {
        line,
        pattern,
        allowed,
    }))
}

/// The row that plain bytes and what stands behind them are.
fn row_parts(
    alloc: Global,
    line: u32,
    front: &[u8],
    behind: &[u8],
) -> Result<Option<PolicyRow>, Memory>
    ensures { IfOk result (λ r. r ≡ row_parts line front.now behind.now) }
{
    match behind {
        [] => Ok(None),
        [b'*', rest @ ..] => {
            let pattern = Pattern::Front(from_bytes(alloc, front)?);
            row_with(alloc, line, pattern, rest)
        }
        _ => {
            if front.is_empty() {
                return Ok(None);
            }
            let pattern = Pattern::Whole(from_bytes(alloc, front)?);
            row_with(alloc, line, pattern, behind)
        }
    }
}

/// The row that a line of this number is, where it is one.
pub fn row_of(alloc: Global, line: u32, content: &[u8]) -> Result<Option<PolicyRow>, Memory>
    ensures { IfOk result (λ r. r ≡ row_read line content.now) }
{
    let (front, behind) = content.split_at(plain_len(content));
    row_parts(alloc, line, front, behind)
}
