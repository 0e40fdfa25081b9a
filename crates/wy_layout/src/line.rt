ghost use Rattle.std.specs.Prelude.{◌≡◌, ◌<◌, ◌≤◌, ◌+◌, ◌^◌, ◌++◌, ◌∷◌, [], length, IfErr, OnOk};
ghost use Rattle.wy_layout.specs.Counts.{counted_from};
ghost use Rattle.wy_layout.specs.Layout as layout;
ghost use Rattle.wy_layout.specs.Lexed.{words_of};
ghost use Rattle.wy_layout.specs.Lines as lines;
ghost use Rattle.wy_layout.specs.Turns.{GivesLine, GivesTurn, StopsWithin, halt_of};

use crate::count::{Count, counted, passed};
use crate::refusal::Fault;
use crate::row::{Row, spot};
use crate::words::{Stop, word};
use std::alloc::Global;
use wy_text::token::{Token, TokenKind};

/// What is wrong, and at which offset; or want of memory.
#[derive(Clone, Copy)]
pub enum Halt {
    At(Fault, usize),
    Memory,
}

fn after_blanks(text: &[u8]) -> &[u8]
    ensures value { result.now ≡ lines.after_blanks text.now }
    ensures within { length result.now ≤ length text.now }
{
    let mut rest = text;
    while let [byte, more @ ..] = rest {
        if !(*byte == b' ' || *byte == b'\t') {
            return rest;
        }
        rest = more;
    }
    rest
}

/// Whether the words of a line are at their end: nothing or a comment is left.
pub fn is_done(text: &[u8]) -> bool
    ensures { result ≡ lines.is_done text.now }
{
    match text {
        [] => true,
        [_] => false,
        [first, second, ..] => *first == b'/' && *second == b'/',
    }
}

/// A token of a line, by its offsets.
pub fn token(row: Row, kind: TokenKind, start: usize, end: usize) -> Token
    requires here { row.start ≤ start }
    requires small { (start < 2 ^ 31) × (end < 2 ^ 31) }
    ensures { result ≡ layout.token row kind start end }
{
    Token {
        kind,
        place: spot(row, start),
        start: start as u32,
        end: end as u32,
    }
}

/// Where a text that begins at an offset stops.
fn halted<'a>(stop: Stop<'a>, at: usize, text: &[u8]) -> Halt
    requires small { at + length text.now < 2 ^ 31 }
    requires within { StopsWithin stop text.now }
    ensures { result ≡ halt_of stop.entry at text.now }
{
    match stop {
        Stop::At(fault, rest) => Halt::At(fault, at + (text.len() - rest.len())),
        Stop::Memory => Halt::Memory,
    }
}

/// The next token of a line, and what stands behind it; none at the end of the line's words.
fn next_token<'a>(
    alloc: Global,
    row: Row,
    count: Count,
    at: usize,
    text: &'a [u8],
) -> Result<Option<(Token, &'a [u8])>, Halt>
    requires small { at + length text.now < 2 ^ 31 }
    requires here { row.start ≤ at }
    ensures { GivesTurn result row count at text.now }
{
    let from = after_blanks(text);
    if is_done(from) {
        return Ok(None);
    }
    let start = at + (text.len() - from.len());
    match word(alloc, from) {
        Ok((kind, rest)) => {
            if let Some(fault) = passed(count, &kind) {
                return Err(Halt::At(fault, start));
            }
            let end = at + (text.len() - rest.len());
            Ok(Some((token(row, kind, start, end), rest)))
        }
        Err(stop) => Err(halted(stop, at, text)),
    }
}

/// Adds a token.
pub fn push_token(out: &mut Vec<Token>, token: Token) -> Result<(), Halt>
    ensures failed { IfErr result (λ h. h ≡ Halt.Memory) }
    ensures added { OnOk result (out.new.items ≡ out.old.items ++ token ∷ []) }
{
    match out.push(token) {
        Ok(()) => Ok(()),
        Err(_) => Err(Halt::Memory),
    }
}

/// Adds the tokens of a line's words, behind so many tokens of the file.
pub fn line_tokens(
    alloc: Global,
    out: &mut Vec<Token>,
    row: Row,
    tokens: usize,
    start: usize,
    text: &[u8],
) -> Result<(), Halt>
    requires small { start + length text.now < 2 ^ 31 }
    requires here { row.start ≤ start }
    ensures { GivesLine result out.old.items out.new.items (words_of row (counted_from tokens) start text.now) }
{
    let mut count = Count {
        tokens,
        marks: 0,
        open_braces: 0,
    };
    let mut at = start;
    let mut rest = text;
    while let Some((token, more)) = next_token(alloc, row, count, at, rest)? {
        count = counted(count, &token.kind);
        at = token.end as usize;
        rest = more;
        push_token(out, token)?;
    }
    Ok(())
}
