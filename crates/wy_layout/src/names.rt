ghost use Rattle.std.specs.Prelude.{◌≡◌, ◌∷◌, [], ◌<◌, ◌≤◌, ◌+◌, length, true, slice_index, chars, MatchOption};
ghost use Rattle.std.specs.Str.{continuation_len};
ghost use Rattle.wy_layout.specs.Names as spec;
ghost use Rattle.wy_layout.specs.Read as read;

use wy_lanes::runs::{Class, run_len};

/// The character at the front; NUL where there is none, or none that is whole.
#[tactic(auto, unfolding(crate::specs::Names::head_char))]
fn head_char(text: &[u8]) -> char
    ensures { result ≡ spec.head_char text.now }
{
    match text {
        [] => '\0',
        [byte, rest @ ..] => {
            if *byte < 128 {
                return char::from(*byte);
            }
            let more = continuation_len(*byte);
            if more > rest.len() {
                decoded(text)
            } else {
                decoded(&text[..more + 1])
            }
        }
    }
}

/// How many bytes a character has behind its first.
fn continuation_len(first: u8) -> usize
    ensures value { result ≡ continuation_len first }
    ensures bound { result ≤ 3 }
{
    if first < 128 {
        0
    } else if first < 224 {
        1
    } else if first < 240 {
        2
    } else {
        3
    }
}

fn decoded(text: &[u8]) -> char
    ensures { result ≡ spec.decoded text.now }
{
    match std::str::from_utf8(text) {
        Ok(text) => first(text),
        Err(_) => '\0',
    }
}

fn first(text: &str) -> char
    ensures { result ≡ slice_index (chars text.now) 0 }
{
    match first_char(text) {
        Some((first, _)) => first,
        None => '\0',
    }
}

/// The first character, and the text after it.
pub fn first_char(text: &str) -> Option<(char, &str)>
    ensures { MatchOption result (chars text.now ≡ []) (λ p. chars text.now ≡ p.0 ∷ chars p.1.now) }
{
    let mut it = text.chars();
    let c = it.next()?;
    Some((c, it.as_str()))
}

/// What stands behind the first character, where a name goes on with it.
#[tactic(auto, using(crate::proofs::Past::past_is, crate::proofs::Past::stays))]
fn past_char(text: &[u8]) -> Option<&[u8]>
    ensures { MatchOption result (read.name_len 0 text.now ≡ 0) (λ r. (read.name_len 0 text.now + length r.now ≡ read.name_len 0 r.now + length text.now) × (length r.now < length text.now)) }
{
    if text.is_empty() {
        return None;
    }
    if !unicode_ident::is_xid_continue(head_char(text)) {
        return None;
    }
    let n = continuation_len(text[0]) + 1;
    Some(&text[n..])
}

/// How many bytes at the front go on with a name, behind its first character.
fn name_len(text: &[u8]) -> usize
    ensures value { result ≡ read.name_len 0 text.now }
    ensures within { result ≤ length text.now }
{
    let mut rest = text;
    while let Some(more) = past_char(rest) {
        rest = more;
    }
    text.len() - rest.len()
}

/// Whether a name begins with the character at the front.
#[tactic(auto, unfolding(crate::specs::Names::starts))]
fn starts_by_character(text: &[u8]) -> bool
    ensures { result ≡ spec.starts text.now }
{
    let first = head_char(text);
    unicode_ident::is_xid_start(first) || first == '_'
}

/// Whether a name begins at the front.
#[tactic(auto, using(crate::proofs::Guesses::starts_small))]
pub fn starts(text: &[u8]) -> bool
    ensures { result ≡ spec.starts text.now }
{
    match text {
        [byte, ..] if *byte < 128 => byte.is_ascii_alphabetic() || *byte == b'_',
        _ => starts_by_character(text),
    }
}

/// The length of the name at the front, character by character.
#[tactic(auto, using(crate::proofs::Past::first_is))]
fn by_characters(text: &[u8]) -> usize
    requires { spec.starts text.now ≡ true }
    ensures value { result ≡ read.first_len text.now }
    ensures within { result ≤ length text.now }
{
    if text.is_empty() {
        return 0;
    }
    let n = continuation_len(text[0]) + 1;
    if n > text.len() {
        return 0;
    }
    n + name_len(&text[n..])
}

/// The length of the name at the front. The bytes that a name can have, found by masks, are its length where they are
/// all of ASCII; others are judged by their characters.
pub fn first_len(text: &[u8]) -> usize
    requires { spec.starts text.now ≡ true }
    ensures value { result ≡ read.first_len text.now }
    ensures within { result ≤ length text.now }
{
    let run = run_len(text, Class::Word);
    if text[..run].is_ascii() {
        return run;
    }
    by_characters(text)
}
