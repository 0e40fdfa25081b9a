ghost use Rattle.std.specs.Prelude.{◌≡◌, ◌<◌, ◌≤◌, ◌^◌, length, IfOk, IfErr};
ghost use Rattle.std.specs.Str.Lossy.{utf8_valid_len};
ghost use Rattle.wy_layout.specs.Counts.{IsWhole};
ghost use Rattle.wy_layout.specs.Layout.{Lexes, IsRefused};
ghost use Rattle.wy_layout.specs.Lexed as lexed;
ghost use Rattle.wy_layout.specs.Lexed.{before_utf8};
ghost use Rattle.wy_layout.specs.Outs.{GivesText, earlier, refusal_of};

use crate::line::Halt;
use crate::lines::{close, lay_lines};
use crate::refusal::{Fault, LexRefusal};
use crate::row::{first_row, place_at};
use crate::widths::rank;
use std::alloc::Global;
use wy_text::fault::Place;
use wy_text::limit::{LimitName, MOST_FILE_BYTES};
use wy_text::token::Token;

/// The tokens of a text.
fn lex_text(alloc: Global, file: u16, text: &[u8]) -> Result<Vec<Token>, Halt>
    requires { length text.now < 2 ^ 30 }
    ensures { GivesText result (lexed.lex_text file text.now) }
{
    let mut out = Vec::new(alloc);
    let mut widths = Vec::new(alloc);
    if widths.push(0).is_err() {
        return Err(Halt::Memory);
    }
    let row = match lay_lines(alloc, &mut out, &mut widths, first_row(file), text) {
        Ok(row) => row,
        Err(halt) => return Err(halt),
    };
    match close(&mut out, row, widths.as_slice(), text.len()) {
        Ok(()) => Ok(out),
        Err(halt) => Err(halt),
    }
}

/// Whether a fault at an offset comes before the byte that begins no character: it stands before that byte, or at its
/// place and first in the order.
fn before_utf8(fault: Fault, at: usize, valid: usize) -> bool
    ensures { result ≡ before_utf8 fault at valid }
{
    at < valid || (at == valid && rank(fault) < rank(Fault::NotUtf8))
}

/// What comes first: a fault, or the first byte that begins no character.
fn earlier(halt: Halt, valid: usize) -> Halt
    ensures { result ≡ earlier halt valid }
{
    match halt {
        Halt::At(fault, at) if before_utf8(fault, at, valid) => Halt::At(fault, at),
        Halt::At(_, _) => Halt::At(Fault::NotUtf8, valid),
        Halt::Memory => Halt::Memory,
    }
}

/// What comes first in a file that is text up to an offset.
fn lex_before(alloc: Global, file: u16, bytes: &[u8], valid: usize) -> Result<Vec<Token>, Halt>
    requires small { length bytes.now < 2 ^ 30 }
    requires cut { (valid ≡ utf8_valid_len bytes.now) × (valid < length bytes.now) }
    ensures { GivesText result (lexed.lex_bytes file bytes.now) }
{
    match lex_text(alloc, file, &bytes[..valid + 1]) {
        Ok(_) => return Err(Halt::At(Fault::NotUtf8, valid)),
        Err(halt) => return Err(earlier(halt, valid)),
    }
}

/// The tokens of a file's bytes.
#[tactic(auto, using(crate::proofs::Filewise::text_read))]
fn lex_bytes(alloc: Global, file: u16, bytes: &[u8]) -> Result<Vec<Token>, Halt>
    requires { length bytes.now < 2 ^ 30 }
    ensures { GivesText result (lexed.lex_bytes file bytes.now) }
{
    match std::str::from_utf8(bytes) {
        Ok(_) => lex_text(alloc, file, bytes),
        Err(error) => lex_before(alloc, file, bytes, error.valid_up_to()),
    }
}

/// The refusal of a fault at a place.
fn refusal(fault: Fault, place: Place) -> LexRefusal
    ensures { result ≡ refusal_of fault place }
{
    match fault {
        Fault::NameBytes => LexRefusal::Limit(LimitName::NameBytes),
        Fault::Tokens => LexRefusal::Limit(LimitName::Tokens),
        Fault::Indents => LexRefusal::Limit(LimitName::Indents),
        Fault::Marks => LexRefusal::Limit(LimitName::Marks),
        Fault::NotUtf8 => LexRefusal::NotUtf8(place),
        Fault::TabIndent => LexRefusal::TabIndent(place),
        Fault::BadDedent => LexRefusal::BadDedent(place),
        Fault::BadCharacter => LexRefusal::BadCharacter(place),
        Fault::OpenText => LexRefusal::OpenText(place),
        Fault::BadEscape => LexRefusal::BadEscape(place),
        Fault::NumberTooLarge => LexRefusal::NumberTooLarge(place),
    }
}

/// The tokens of a file, the number of which is `file`: the words of its lines, the tokens of their widths and
/// ends, and `End` as the last one. Each has its place and its offsets. It refuses exactly where the file has no
/// tokens, at the place that comes first in the file; of several things at one place the limits come first, in
/// the order of their table, and then the others in the order of theirs. A file of more than 1,048,576 bytes is
/// refused before all else (docs/LANGUAGE.md, "Layout", "Tokens", "What is refused in a file"). `Memory` may
/// come at any time.
#[tactic(auto, using(crate::proofs::Whole::lexes_of, crate::proofs::Whole::whole_of, crate::proofs::Whole::refused_of))]
pub fn lex(alloc: Global, file: u16, bytes: &[u8]) -> Result<Vec<Token>, LexRefusal>
    ensures tokens { IfOk result (λ v. Lexes file bytes.now v.items) }
    ensures whole { IfOk result (λ v. IsWhole v.items) }
    ensures refused { IfErr result (λ e. IsRefused file bytes.now e) }
{
    if bytes.len() > MOST_FILE_BYTES {
        return Err(LexRefusal::Limit(LimitName::FileBytes));
    }
    let halt = match lex_bytes(alloc, file, bytes) {
        Ok(tokens) => return Ok(tokens),
        Err(halt) => halt,
    };
    match halt {
        Halt::Memory => Err(LexRefusal::Memory),
        Halt::At(fault, at) => Err(refusal(fault, place_at(file, bytes, at))),
    }
}
