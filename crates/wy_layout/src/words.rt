ghost use Rattle.std.specs.Prelude.{◌≡◌, ◌∷◌, ◌++◌, [], ◌<◌, ◌≤◌, ◌+◌, length, pos, true, drop, IfOk, MatchOption};
ghost use Rattle.wy_layout.specs.Gives.{GivesScan, GivesWord, put_all};
ghost use Rattle.wy_layout.specs.Names as names;
ghost use Rattle.wy_layout.specs.Read as read;
ghost use Rattle.wy_layout.specs.Tables.{pair_of, single_of};
ghost use Rattle.wy_layout.specs.Words as spec;
ghost use Rattle.wy_layout.specs.Words.{kind_of};

use crate::escape::{Move, State, plain_len, step};
use crate::kinds::{one_kind, reserved_kind, two_kind};
use crate::names::{first_len, starts};
use crate::refusal::Fault;
use std::alloc::Global;
use wy_lanes::runs::{Class, gap_len};
use wy_text::limit::MOST_NAME_BYTES;
use wy_text::text::{Memory, from_bytes, from_vec};
use wy_text::token::TokenKind;

/// Why there is no word: what is wrong, and the text from there on; or want of memory.
#[derive(Drop)]
pub enum Stop<'a> {
    At(Fault, &'a [u8]),
    Memory,
}

/// What stands inside a text behind some bytes of it, and what stands behind its closing quote, byte by byte.
fn by_bytes<'a>(mut out: Vec<u8>, mut text: &'a [u8]) -> Result<(Vec<u8>, &'a [u8]), Stop<'a>>
    ensures { GivesScan result (put_all out.items (read.scan State.Plain text.entry.now)) }
{
    let mut state = State::Plain;
    while let [byte, rest @ ..] = text {
        match step(state, *byte) {
            Move::Go(next) => state = next,
            Move::Put(value) => {
                if out.push(value).is_err() {
                    return Err(Stop::Memory);
                }
                state = State::Plain;
            }
            Move::Close => return Ok((out, rest)),
            Move::Stop(fault) => return Err(Stop::At(fault, text)),
        }
        text = rest;
    }
    Err(Stop::At(Fault::OpenText, text))
}

/// What stands inside a text, and what stands behind its closing quote. Of the bytes before the first quote, which is found
/// by masks, those that stand for themselves are taken at once.
fn inside<'a>(alloc: Global, text: &'a [u8]) -> Result<(Vec<u8>, &'a [u8]), Stop<'a>>
    ensures { GivesScan result (read.scan State.Plain text.now) }
{
    let taken = plain_len(&text[..gap_len(text, Class::Quote)]);
    match Vec::from_slice(alloc, &text[..taken]) {
        Ok(bytes) => by_bytes(bytes, &text[taken..]),
        Err(_) => Err(Stop::Memory),
    }
}

/// A text, behind its first quote.
#[tactic(auto, using(crate::proofs::WordCases::text_given, crate::proofs::WordCases::text_denied))]
fn text<'a>(alloc: Global, whole: &'a [u8]) -> Result<(TokenKind, &'a [u8]), Stop<'a>>
    requires { 0 < length whole.now }
    ensures { GivesWord result (read.text_read whole.now (read.scan State.Plain (drop 1 whole.now))) }
{
    match inside(alloc, &whole[1..]) {
        Ok((bytes, rest)) => Ok((TokenKind::Text(from_vec(bytes)), rest)),
        Err(stop) => Err(stop),
    }
}

fn digits_len(text: &[u8]) -> usize
    ensures value { result ≡ read.digits_len text.now }
    ensures within { result ≤ length text.now }
{
    let mut rest = text;
    while let [byte, more @ ..] = rest {
        if !byte.is_ascii_digit() {
            break;
        }
        rest = more;
    }
    text.len() - rest.len()
}

/// The value of digits, or nothing past the greatest number.
#[tactic(auto, using(crate::proofs::Past::value_grows))]
fn value(digits: &[u8]) -> Option<u64>
    requires { spec.all_digits digits.now ≡ true }
    ensures { MatchOption result (spec.edge < spec.value_from 0 digits.now) (λ n. (n ≡ spec.value_from 0 digits.now) × (n ≤ spec.edge)) }
{
    let mut sum: u64 = 0;
    let mut rest = digits;
    while let [digit, more @ ..] = rest {
        if sum > 922_337_203_685_477_580 {
            return None;
        }
        sum = sum * 10 + u64::from(*digit - b'0');
        if sum > 9_223_372_036_854_775_808 {
            return None;
        }
        rest = more;
    }
    Some(sum)
}

/// The kind of a number.
fn number_kind(value: u64) -> TokenKind
    requires { value ≤ spec.edge }
    ensures { result ≡ spec.number_kind value }
{
    if value == 9_223_372_036_854_775_808 {
        return TokenKind::Edge;
    }
    TokenKind::Number(value as i64)
}

/// A number.
#[tactic(auto, using(crate::proofs::LongestWord::digits_taken))]
fn number<'a>(text: &'a [u8]) -> Result<(TokenKind, &'a [u8]), Stop<'a>>
    ensures { GivesWord result (read.limited text.now (read.number_read text.now)) }
{
    let n = digits_len(text);
    match value(&text[..n]) {
        None => Err(Stop::At(Fault::NumberTooLarge, text)),
        Some(value) => Ok((number_kind(value), &text[n..])),
    }
}

/// A name or a reserved word.
fn name_kind(alloc: Global, word: &[u8]) -> Result<TokenKind, Memory>
    ensures { IfOk result (λ k. k ≡ kind_of (read.name_word word.now)) }
{
    match reserved_kind(word) {
        Some(kind) => Ok(kind),
        None => Ok(TokenKind::Name(from_bytes(alloc, word)?)),
    }
}

fn name<'a>(alloc: Global, text: &'a [u8]) -> Result<(TokenKind, &'a [u8]), Stop<'a>>
    requires { names.starts text.now ≡ true }
    ensures { GivesWord result (read.limited_name text.now) }
{
    let n = first_len(text);
    if n > MOST_NAME_BYTES {
        return Err(Stop::At(Fault::NameBytes, text));
    }
    match name_kind(alloc, &text[..n]) {
        Ok(kind) => Ok((kind, &text[n..])),
        Err(_) => Err(Stop::Memory),
    }
}

fn pair_kind(text: &[u8]) -> Option<TokenKind>
    ensures { result ≡ pair_of text.now }
{
    match text {
        [first, second, ..] => two_kind(*first, *second),
        _ => None,
    }
}

fn single_kind(text: &[u8]) -> Option<TokenKind>
    ensures { result ≡ single_of text.now }
{
    match text {
        [first, ..] => one_kind(*first),
        [] => None,
    }
}

/// A symbol.
#[tactic(auto, using(crate::proofs::WordCases::pair_long, crate::proofs::WordCases::single_long, crate::proofs::WordCases::symbol_pair, crate::proofs::WordCases::symbol_single, crate::proofs::WordCases::symbol_none))]
fn symbol<'a>(text: &'a [u8]) -> Result<(TokenKind, &'a [u8]), Stop<'a>>
    ensures { GivesWord result (read.symbol_read text.now) }
{
    if let Some(kind) = pair_kind(text) {
        return Ok((kind, &text[2..]));
    }
    if let Some(kind) = single_kind(text) {
        return Ok((kind, &text[1..]));
    }
    Err(Stop::At(Fault::BadCharacter, text))
}

/// The word at the front.
pub fn word<'a>(alloc: Global, from: &'a [u8]) -> Result<(TokenKind, &'a [u8]), Stop<'a>>
    requires { 0 < length from.now }
    ensures { GivesWord result (read.word_at from.now) }
{
    let first = from[0];
    if first == b'"' {
        return text(alloc, from);
    }
    if first.is_ascii_digit() {
        return number(from);
    }
    if starts(from) {
        return name(alloc, from);
    }
    symbol(from)
}
