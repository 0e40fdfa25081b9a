ghost use Rattle.std.specs.Prelude.{◌≡◌, ◌∷◌, []};
ghost use Rattle.wy_layout.specs.Tables.{of_length};
ghost use Rattle.wy_layout.specs.Words as spec;
ghost use Rattle.wy_layout.specs.Words.{lookup, reserved, symbols};

use wy_text::token::TokenKind;

fn same(word: &[u8], other: &[u8]) -> bool
    ensures { result ≡ spec.same word.now other.now }
{
    word == other
}

fn of_two(word: &[u8]) -> Option<TokenKind>
    ensures { result ≡ lookup word.now (of_length 2 reserved) }
{
    if same(word, b"at") {
        return Some(TokenKind::KwAt);
    }
    if same(word, b"if") {
        return Some(TokenKind::KwIf);
    }
    None
}

fn of_three(word: &[u8]) -> Option<TokenKind>
    ensures { result ≡ lookup word.now (of_length 3 reserved) }
{
    if same(word, b"def") {
        return Some(TokenKind::KwDef);
    }
    if same(word, b"use") {
        return Some(TokenKind::KwUse);
    }
    if same(word, b"val") {
        return Some(TokenKind::KwVal);
    }
    if same(word, b"var") {
        return Some(TokenKind::KwVar);
    }
    if same(word, b"run") {
        return Some(TokenKind::KwRun);
    }
    if same(word, b"new") {
        return Some(TokenKind::KwNew);
    }
    if same(word, b"Int") {
        return Some(TokenKind::KwInt);
    }
    None
}

fn of_four(word: &[u8]) -> Option<TokenKind>
    ensures { result ≡ lookup word.now (of_length 4 reserved) }
{
    if same(word, b"type") {
        return Some(TokenKind::KwType);
    }
    if same(word, b"init") {
        return Some(TokenKind::KwInit);
    }
    if same(word, b"then") {
        return Some(TokenKind::KwThen);
    }
    if same(word, b"else") {
        return Some(TokenKind::KwElse);
    }
    if same(word, b"this") {
        return Some(TokenKind::KwThis);
    }
    if same(word, b"true") {
        return Some(TokenKind::KwTrue);
    }
    if same(word, b"main") {
        return Some(TokenKind::KwMain);
    }
    if same(word, b"Bool") {
        return Some(TokenKind::KwBool);
    }
    if same(word, b"Unit") {
        return Some(TokenKind::KwUnit);
    }
    None
}

fn of_five(word: &[u8]) -> Option<TokenKind>
    ensures { result ≡ lookup word.now (of_length 5 reserved) }
{
    if same(word, b"plain") {
        return Some(TokenKind::KwPlain);
    }
    if same(word, b"grant") {
        return Some(TokenKind::KwGrant);
    }
    if same(word, b"false") {
        return Some(TokenKind::KwFalse);
    }
    None
}

fn of_six(word: &[u8]) -> Option<TokenKind>
    ensures { result ≡ lookup word.now (of_length 6 reserved) }
{
    if same(word, b"effect") {
        return Some(TokenKind::KwEffect);
    }
    if same(word, b"module") {
        return Some(TokenKind::KwModule);
    }
    if same(word, b"import") {
        return Some(TokenKind::KwImport);
    }
    if same(word, b"String") {
        return Some(TokenKind::KwString);
    }
    None
}

fn of_seven(word: &[u8]) -> Option<TokenKind>
    ensures { result ≡ lookup word.now (of_length 7 reserved) }
{
    if same(word, b"program") {
        return Some(TokenKind::KwProgram);
    }
    None
}

fn of_eight(word: &[u8]) -> Option<TokenKind>
    ensures { result ≡ lookup word.now (of_length 8 reserved) }
{
    if same(word, b"resource") {
        return Some(TokenKind::KwResource);
    }
    if same(word, b"instance") {
        return Some(TokenKind::KwInstance);
    }
    None
}

fn of_nine(word: &[u8]) -> Option<TokenKind>
    ensures { result ≡ lookup word.now (of_length 9 reserved) }
{
    if same(word, b"text_size") {
        return Some(TokenKind::KwTextSize);
    }
    if same(word, b"text_part") {
        return Some(TokenKind::KwTextPart);
    }
    if same(word, b"text_code") {
        return Some(TokenKind::KwTextCode);
    }
    if same(word, b"text_byte") {
        return Some(TokenKind::KwTextByte);
    }
    if same(word, b"text_show") {
        return Some(TokenKind::KwTextShow);
    }
    None
}

/// The kind of a reserved word, where the bytes are one.
#[tactic(auto, using(crate::proofs::Tables::sized, crate::proofs::Tables::none_short, crate::proofs::Tables::none_long))]
pub fn reserved_kind(word: &[u8]) -> Option<TokenKind>
    ensures { result ≡ lookup word.now reserved }
{
    let length = word.len();
    if length < 2 {
        return None;
    }
    match length {
        2 => of_two(word),
        3 => of_three(word),
        4 => of_four(word),
        5 => of_five(word),
        6 => of_six(word),
        7 => of_seven(word),
        8 => of_eight(word),
        9 => of_nine(word),
        _ => None,
    }
}

/// The kind of a symbol of two bytes.
pub fn two_kind(first: u8, second: u8) -> Option<TokenKind>
    ensures { result ≡ lookup (first ∷ second ∷ []) symbols }
{
    if second == b'=' && first == b'=' {
        return Some(TokenKind::SymEqualEqual);
    }
    if second == b'=' && first == b'!' {
        return Some(TokenKind::SymNotEqual);
    }
    if second == b'=' && first == b'<' {
        return Some(TokenKind::SymLessEqual);
    }
    if second == b'=' && first == b'>' {
        return Some(TokenKind::SymGreaterEqual);
    }
    if second == b'+' && first == b'+' {
        return Some(TokenKind::SymPlusPlus);
    }
    if second == b'&' && first == b'&' {
        return Some(TokenKind::SymAndAnd);
    }
    if second == b'|' && first == b'|' {
        return Some(TokenKind::SymOrOr);
    }
    None
}

/// The kind of a symbol of one byte.
pub fn one_kind(first: u8) -> Option<TokenKind>
    ensures { result ≡ lookup (first ∷ []) symbols }
{
    match first {
        b'(' => Some(TokenKind::SymOpenParen),
        b')' => Some(TokenKind::SymCloseParen),
        b'[' => Some(TokenKind::SymOpenBracket),
        b']' => Some(TokenKind::SymCloseBracket),
        b'{' => Some(TokenKind::SymOpenBrace),
        b'}' => Some(TokenKind::SymCloseBrace),
        b',' => Some(TokenKind::SymComma),
        b':' => Some(TokenKind::SymColon),
        b'.' => Some(TokenKind::SymDot),
        b'=' => Some(TokenKind::SymEqual),
        b'<' => Some(TokenKind::SymLess),
        b'>' => Some(TokenKind::SymGreater),
        b'+' => Some(TokenKind::SymPlus),
        b'-' => Some(TokenKind::SymMinus),
        b'*' => Some(TokenKind::SymStar),
        b'/' => Some(TokenKind::SymSlash),
        b'%' => Some(TokenKind::SymPercent),
        b'!' => Some(TokenKind::SymNot),
        _ => None,
    }
}
