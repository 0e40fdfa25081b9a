//! The lines of a file: where each ends, its indentation, and its tokens.

ghost use Rattle.std.specs.Prelude.{◌≡◌, ◌++◌, ◌∷◌, [], ◌<◌, ◌≤◌, ◌+◌, ◌^◌, length, reverse, replicate, take, drop, IfOk, OnOk, IfErr, IsTrue, ◌↔◌};
ghost use Rattle.wy_text.specs.declared.token.TokenKind.TheVariants as kind;
ghost use Rattle.wy_layout.specs.Counts.{counted_from};
ghost use Rattle.wy_layout.specs.Cut.{HasReturn, line_len};
ghost use Rattle.wy_layout.specs.Layout.{mark, marks};
ghost use Rattle.wy_layout.specs.Layout as layout;
ghost use Rattle.wy_layout.specs.Lexed.{end_of, lex_lines, line_out, sooner, with_end, words_of};
ghost use Rattle.wy_layout.specs.Lines as lines;
ghost use Rattle.wy_layout.specs.Outs.{GivesAdded, GivesEnd, GivesLines, GivesOut, Halts, line_of, step_is};

use crate::line::{Halt, is_done, line_tokens, push_token, token};
use crate::refusal::Fault;
use crate::row::{Row, next_row};
use crate::widths::{Before, mark_count, next_line, opening, rank};
use std::alloc::Global;
use wy_lanes::runs::{Class, gap_len, run_len};
use wy_text::limit::MOST_TOKENS;
use wy_text::token::{Token, TokenKind};

/// What is left behind the leading spaces.
fn after_spaces(text: &[u8]) -> &[u8]
    ensures value { result.now ≡ lines.after_spaces text.now }
    ensures within { lines.width text.now + length result.now ≡ length text.now }
{
    behind(text, run_len(text, Class::Space))
}

fn has_tab(text: &[u8]) -> bool
    ensures { result ≡ lines.has_tab text.now }
{
    match text {
        [] => false,
        [byte, ..] => *byte == b'\t',
    }
}

/// Adds a token of the layout, which has no bytes.
fn push_mark(out: &mut Vec<Token>, row: Row, kind: TokenKind, at: usize) -> Result<(), Halt>
    requires here { row.start ≤ at }
    requires small { at < 2 ^ 31 }
    ensures failed { IfErr result (λ h. h ≡ Halt.Memory) }
    ensures added { OnOk result (out.new.items ≡ out.old.items ++ mark row kind at ∷ []) }
{
    push_token(out, token(row, kind, at, at))
}

/// Adds Outs.
#[tactic(auto, using(crate::proofs::Laying::outs_step))]
fn push_outs(out: &mut Vec<Token>, row: Row, count: usize, at: usize) -> Result<(), Halt>
    requires here { row.start ≤ at }
    requires small { at < 2 ^ 31 }
    ensures failed { IfErr result (λ h. h ≡ Halt.Memory) }
    ensures added { OnOk result (out.new.items ≡ out.old.items ++ replicate count (mark row kind.Out at)) }
{
    let mut left = count;
    while left > 0 {
        push_mark(out, row, TokenKind::Out, at)?;
        left -= 1;
    }
    Ok(())
}

/// Adds what stands before a line.
fn push_before(out: &mut Vec<Token>, row: Row, before: Before, at: usize) -> Result<(), Halt>
    requires here { row.start ≤ at }
    requires small { at < 2 ^ 31 }
    ensures failed { IfErr result (λ h. h ≡ Halt.Memory) }
    ensures added { OnOk result (out.new.items ≡ out.old.items ++ marks row (step_is before) at) }
{
    match before {
        Before::In => push_mark(out, row, TokenKind::In, at),
        Before::Out(outs) | Before::Wrong(outs) => push_outs(out, row, outs, at),
    }
}

/// Adds the tokens of a line that is not blank: those before it, its words, and its end.
fn push_line(
    alloc: Global,
    out: &mut Vec<Token>,
    row: Row,
    before: Before,
    at: usize,
    text: &[u8],
) -> Result<(), Halt>
    requires here { row.start ≤ at }
    requires small { at + length text.now < 2 ^ 31 }
    ensures { GivesAdded result out.old.items out.new.items (with_end row (marks row (step_is before) at) (length out.old.items + layout.mark_count (step_is before)) (at + length text.now) [] (words_of row (counted_from (length out.old.items + layout.mark_count (step_is before))) at text.now)) }
{
    push_before(out, row, before, at)?;
    let tokens = out.len();
    line_tokens(alloc, out, row, tokens, at, text)?;
    let end = at + text.len();
    if out.len() >= MOST_TOKENS {
        return Err(Halt::At(Fault::Tokens, end));
    }
    push_mark(out, row, TokenKind::Nl, end)
}

/// What comes first where something is wrong before a line's words: what is wrong with the first word, or that.
fn first_of(
    alloc: Global,
    out: &mut Vec<Token>,
    row: Row,
    tokens: usize,
    at: usize,
    text: &[u8],
    fault: Fault,
) -> Halt
    requires here { row.start ≤ at }
    requires small { at + length text.now < 2 ^ 31 }
    ensures { Halts result (sooner fault at (words_of row (counted_from tokens) at text.now)) }
{
    match line_tokens(alloc, out, row, tokens, at, text) {
        Err(Halt::Memory) => Halt::Memory,
        Err(Halt::At(first, place)) if place == at && rank(first) < rank(fault) => {
            Halt::At(first, at)
        }
        _ => Halt::At(fault, at),
    }
}

/// Adds the tokens of a line. The open widths are then those behind it.
fn lay_line(
    alloc: Global,
    out: &mut Vec<Token>,
    widths: &mut Vec<usize>,
    row: Row,
    text: &[u8],
) -> Result<(), Halt>
    requires { row.start + length text.now < 2 ^ 31 }
    ensures { GivesOut result out.old.items out.new.items (reverse widths.new.items) (line_out (length out.old.items) (reverse widths.old.items) (line_of row text.now)) }
{
    let from = after_spaces(text);
    let width = text.len() - from.len();
    let begin = row.start + width;
    if has_tab(from) {
        return Err(Halt::At(Fault::TabIndent, begin));
    }
    if is_done(from) {
        return Ok(());
    }
    let indents = widths.len();
    let before = match next_line(widths, width) {
        Ok(before) => before,
        Err(_) => return Err(Halt::Memory),
    };
    if let Some(fault) = opening(before, out.len(), indents) {
        let tokens = out.len() + mark_count(before);
        return Err(first_of(alloc, out, row, tokens, begin, from, fault));
    }
    push_line(alloc, out, row, before, begin, from)
}

/// How many bytes stand before the newline.
fn line_len(text: &[u8]) -> usize
    ensures value { result ≡ line_len text.now }
    ensures within { result ≤ length text.now }
{
    gap_len(text, Class::Newline)
}

/// Whether the line of so many bytes ends with a newline that has a carriage return before it.
fn has_return(text: &[u8], len: usize) -> bool
    requires { len ≤ length text.now }
    ensures { IsTrue result ↔ HasReturn text.now len }
{
    0 < len && len < text.len() && text[len - 1] == b'\r'
}

/// How many bytes stand before the line's end.
fn content_len(text: &[u8]) -> usize
    ensures value { result ≡ length (lines.content_of text.now) }
    ensures within { result ≤ length text.now }
{
    let len = line_len(text);
    if has_return(text, len) { len - 1 } else { len }
}

fn front(text: &[u8], count: usize) -> &[u8]
    requires { count ≤ length text.now }
    ensures { result.now ≡ take count text.now }
{
    &text[..count]
}

fn behind(text: &[u8], count: usize) -> &[u8]
    requires { count ≤ length text.now }
    ensures value { result.now ≡ drop count text.now }
    ensures within { length result.now + count ≡ length text.now }
{
    &text[count..]
}

/// Adds the tokens of all lines, and gives the row of the last one.
pub fn lay_lines(
    alloc: Global,
    out: &mut Vec<Token>,
    widths: &mut Vec<usize>,
    first: Row,
    text: &[u8],
) -> Result<Row, Halt>
    requires small { length text.now < 2 ^ 30 }
    requires at_start { (first.start ≡ 0) × (first.number ≡ 1) }
    ensures lines { GivesLines result out.old.items out.new.items (reverse widths.new.items) (length text.now) (lex_lines first (length text.now) (length out.old.items) (reverse widths.old.items) (lines.lines first text.now)) }
    ensures row { IfOk result (λ r. r.start ≤ length text.now) }
{
    let mut row = first;
    let mut rest = text;
    'lines: loop {
        let line = front(rest, content_len(rest));
        match lay_line(alloc, out, widths, row, line) {
            Ok(()) => {}
            Err(halt) => return Err(halt),
        }
        let length = line_len(rest);
        if length == rest.len() {
            return Ok(row);
        }
        row = next_row(row, row.start + length + 1);
        rest = behind(rest, length + 1);
    }
}

/// Adds what stands at the end of a file.
pub fn close(out: &mut Vec<Token>, row: Row, widths: &[usize], at: usize) -> Result<(), Halt>
    requires here { row.start ≤ at }
    requires small { at < 2 ^ 31 }
    ensures { GivesEnd result out.old.items out.new.items (end_of row at (length out.old.items) (reverse widths.now)) }
{
    if out.len() + widths.len() > MOST_TOKENS {
        return Err(Halt::At(Fault::Tokens, at));
    }
    push_outs(out, row, widths.len().saturating_sub(1), at)?;
    push_mark(out, row, TokenKind::End, at)
}
