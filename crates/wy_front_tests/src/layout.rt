use crate::three_files::{MAIN, PARTS, TYPES};
use std::alloc::Global;
use std::test::Fail;
use wy_layout::refusal::LexRefusal;
use wy_layout::{is_identifier, lex};
use wy_text::token::{Token, TokenKind};

/// Each token as its bytes, or as the name of a token of the layout, and its place.
fn shown(alloc: Global, bytes: &[u8], tokens: &[Token]) -> Result<String, Fail> {
    let mut out = String::new(alloc);
    for token in tokens {
        let word = match token.kind {
            TokenKind::In => b"In".as_slice(),
            TokenKind::Out => b"Out".as_slice(),
            TokenKind::Nl => b"Nl".as_slice(),
            TokenKind::End => b"End".as_slice(),
            _ => bytes
                .get(token.start as usize..token.end as usize)
                .unwrap_or(b"?"),
        };
        let word = std::str::from_utf8(word)?;
        let line = token.place.line;
        let column = token.place.column;
        let piece = format!(in alloc; "{word}@{line}:{column} ")?;
        out.push_str(piece.as_str())?;
    }
    Ok(out)
}

fn tokens_shown(alloc: Global, bytes: &[u8]) -> Result<String, Fail> {
    let tokens = lex_ok(alloc, bytes)?;
    shown(alloc, bytes, tokens.as_slice())
}

/// Files, each with its tokens.
static TOKENS: [(&[u8], &str); 15] = [
    (b"", "End@1:1 "),
    (b"   ", "End@1:4 "),
    (b"\n", "End@2:1 "),
    (b"a", "a@1:1 Nl@1:2 End@1:2 "),
    (b"a\r\n", "a@1:1 Nl@1:2 End@2:1 "),
    (b"  a\n", "In@1:3 a@1:3 Nl@1:4 Out@2:1 End@2:1 "),
    (
        b"a // \"\r\n  b\t1\r\n",
        "a@1:1 Nl@1:7 In@2:3 b@2:3 1@2:5 Nl@2:6 Out@3:1 End@3:1 ",
    ),
    (
        b"a\n  b\n    c\nd",
        "a@1:1 Nl@1:2 In@2:3 b@2:3 Nl@2:4 In@3:5 c@3:5 Nl@3:6 Out@4:1 Out@4:1 d@4:1 Nl@4:2 End@4:2 ",
    ),
    (
        b"a\n  b\n    c",
        "a@1:1 Nl@1:2 In@2:3 b@2:3 Nl@2:4 In@3:5 c@3:5 Nl@3:6 Out@3:6 Out@3:6 End@3:6 ",
    ),
    (
        b"a\n\n    // x\n  b\n   \nc\n",
        "a@1:1 Nl@1:2 In@4:3 b@4:3 Nl@4:4 Out@6:1 c@6:1 Nl@6:2 End@7:1 ",
    ),
    (
        b"a==b!=!c//d\n",
        "a@1:1 ==@1:2 b@1:4 !=@1:5 !@1:7 c@1:8 Nl@1:12 End@2:1 ",
    ),
    (
        b"1a+++ -/ /",
        "1@1:1 a@1:2 ++@1:3 +@1:5 -@1:7 /@1:8 /@1:10 Nl@1:11 End@1:11 ",
    ),
    (
        b"typex type_ type \xc3\xa9_1\n",
        "typex@1:1 type_@1:7 type@1:13 \u{e9}_1@1:18 Nl@1:22 End@2:1 ",
    ),
    (b"\"//\"// \"\n", "\"//\"@1:1 Nl@1:9 End@2:1 "),
    (
        b"=== <=> >=&&&& ||",
        "==@1:1 =@1:3 <=@1:5 >@1:7 >=@1:9 &&@1:11 &&@1:13 ||@1:16 Nl@1:18 End@1:18 ",
    ),
];

#[test]
fn files_have_these_tokens(rt: HostRuntime) -> Result<(), Fail> {
    let alloc = rt.alloc();
    for (bytes, wanted) in &TOKENS {
        let found = tokens_shown(alloc, bytes)?;
        assert_eq!(rt; found.as_str(), *wanted);
    }
    Ok(())
}

/// What a file gives: the number of its tokens, or its refusal's name and place, or the limit's name.
fn said(alloc: Global, bytes: &[u8]) -> Result<String, Fail> {
    let (name, place) = match lex(alloc, 7, bytes) {
        Ok(tokens) => {
            let count = tokens.len();
            return Ok(format!(in alloc; "{count}")?);
        }
        Err(LexRefusal::NotUtf8(place)) => ("NotUtf8", place),
        Err(LexRefusal::TabIndent(place)) => ("TabIndent", place),
        Err(LexRefusal::BadDedent(place)) => ("BadDedent", place),
        Err(LexRefusal::BadCharacter(place)) => ("BadCharacter", place),
        Err(LexRefusal::OpenText(place)) => ("OpenText", place),
        Err(LexRefusal::BadEscape(place)) => ("BadEscape", place),
        Err(LexRefusal::NumberTooLarge(place)) => ("NumberTooLarge", place),
        Err(LexRefusal::Limit(limit)) => {
            let name = limit.name();
            return Ok(format!(in alloc; "{name}")?);
        }
        Err(LexRefusal::Memory) => return Ok(format!(in alloc; "Memory")?),
    };
    let file = place.file;
    let line = place.line;
    let column = place.column;
    Ok(format!(in alloc; "{name} {file}:{line}:{column}")?)
}

/// Texts and numbers, each with the number of tokens.
static COUNTED: [(&[u8], &str); 2] = [
    (b"\"\t\\n\\t\\\\\\\"\\x0a\\xFf\"", "3"),
    (b"9223372036854775808 007 0", "5"),
];

#[test]
fn a_text_and_a_number_are_one_token_each(rt: HostRuntime) -> Result<(), Fail> {
    let alloc = rt.alloc();
    for (bytes, wanted) in &COUNTED {
        let found = said(alloc, bytes)?;
        assert_eq!(rt; found.as_str(), *wanted);
    }
    Ok(())
}

/// A first piece, so many of another, and a last one.
fn built(
    alloc: Global,
    first: &[u8],
    piece: &[u8],
    count: u32,
    last: &[u8],
) -> Result<Vec<u8>, Fail> {
    let mut bytes = Vec::from_slice(alloc, first)?;
    for _ in 0..count {
        bytes.extend_from_slice(piece)?;
    }
    bytes.extend_from_slice(last)?;
    Ok(bytes)
}

/// A first piece, another, how many times, and a last one, with what is said of the whole.
type Said = (
    &'static [u8],
    &'static [u8],
    u32,
    &'static [u8],
    &'static str,
);

/// Whether this is said of such a whole.
fn is_said(
    alloc: Global,
    first: &[u8],
    piece: &[u8],
    count: u32,
    last: &[u8],
    wanted: &str,
) -> Result<bool, Fail> {
    let bytes = built(alloc, first, piece, count, last)?;
    Ok(said(alloc, bytes.as_slice())?.as_str() == wanted)
}

/// Fails with the number of the first row of which something else is said.
fn all_are_said(alloc: Global, rows: &[Said]) -> Result<(), Fail> {
    for (at, (first, piece, count, last, wanted)) in rows.iter().enumerate() {
        if !is_said(alloc, first, piece, *count, last, wanted)? {
            return Err(Fail::new(format_args!("row {at}")));
        }
    }
    Ok(())
}

/// Wholes round the limits.
static LIMITED: [Said; 22] = [
    (b"a ", b"n", 64, b" b", "5"),
    (b"a ", b"n", 65, b" b", "name bytes"),
    (b"  a\n ", b"n", 65, b"", "name bytes"),
    (b"\"", b"n", 65, b"\"", "3"),
    (b"# ", b"n", 65, b"", "BadCharacter 7:1:1"),
    (b"a", b".", 128, b"", "131"),
    (b"a", b".", 129, b"", "marks"),
    (b"a ", b"(", 129, b"", "marks"),
    (b"a ", b"if ", 129, b"", "marks"),
    (b"a ", b"!", 129, b"", "marks"),
    (b"a ", b"== ", 128, b"- #", "marks"),
    (b"a ", b"= , : ) [ ] ", 200, b"", "1203"),
    (b"{{}", b".", 200, b"}", "206"),
    (b"{}} ", b".", 129, b"", "marks"),
    (b"{\n", b".", 129, b"", "marks"),
    (b"", b"..\n", 100, b"", "301"),
    (b"a a\n", b"b\n", 131_070, b"", "262144"),
    (b"a a a\n", b"b\n", 131_070, b"", "tokens"),
    (b"a\n", b"b\n", 131_071, b"b #", "tokens"),
    (b"a\n", b"b\n", 131_071, b"# b", "BadCharacter 7:131073:1"),
    (b"", b" ", 1_048_576, b"", "1"),
    (b"\xff", b" ", 1_048_576, b"", "file bytes"),
];

#[test]
fn limits_hold_up_to_their_numbers(rt: HostRuntime) -> Result<(), Fail> {
    all_are_said(rt.alloc(), &LIMITED)
}

/// The same round the limit on tokens.
static MANY: [Said; 6] = [
    (b"a", b" b", 262_141, b"\n #", "BadCharacter 7:2:2"),
    (b"a", b" b", 262_142, b"\n \xff", "tokens"),
    (b" a", b" b", 262_140, b"\n#", "BadCharacter 7:2:1"),
    (b" a", b" b", 262_141, b"\n\xff", "tokens"),
    (b"a", b" b", 262_142, b"\n#", "BadCharacter 7:2:1"),
    (b"a", b" b", 262_143, b"\n#", "tokens"),
];

/// At an In or an Out a limit comes before a refusal at its place; a line's end stands before the next line.
#[test]
fn the_limit_on_tokens_comes_where_it_is_passed(rt: HostRuntime) -> Result<(), Fail> {
    all_are_said(rt.alloc(), &MANY)
}

/// The same with a last word that is refused.
static LAST: [Said; 3] = [
    (
        b"",
        b"b\n",
        131_072,
        b"99999999999999999999",
        "NumberTooLarge 7:131073:1",
    ),
    (b"", b"b\n", 131_072, b"\"\\q\"", "BadEscape 7:131073:3"),
    (b"", b"b\n", 131_072, b"\"q", "OpenText 7:131073:3"),
];

#[test]
fn a_word_that_is_refused_is_no_token(rt: HostRuntime) -> Result<(), Fail> {
    all_are_said(rt.alloc(), &LAST)
}

#[test]
fn each_mark_is_counted(rt: HostRuntime) -> Result<(), Fail> {
    let alloc = rt.alloc();
    let marks: [&[u8]; 18] = [
        b"== ", b"!= ", b"< ", b"<= ", b"> ", b">= ", b"+ ", b"- ", b"* ", b"/ ", b"% ", b"++ ",
        b"&& ", b"|| ", b"! ", b". ", b"( ", b"if ",
    ];
    for mark in marks {
        assert!(rt; is_said(alloc, b"", mark, 128, b"", "130")?);
        assert!(rt; is_said(alloc, b"", mark, 129, b"", "marks")?);
    }
    Ok(())
}

/// So many lines, each one wider than the one before it, the first one of a width; and a last line of a width.
fn stairs(
    alloc: Global,
    from: u32,
    to: u32,
    last_width: u32,
    last: &[u8],
) -> Result<Vec<u8>, Fail> {
    let mut bytes = Vec::new(alloc);
    for width in from..to {
        let line = built(alloc, b"", b" ", width, b"a\n")?;
        bytes.extend_from_slice(line.as_slice())?;
    }
    let line = built(alloc, b"", b" ", last_width, last)?;
    bytes.extend_from_slice(line.as_slice())?;
    Ok(bytes)
}

/// Widths from one to another, that of the last line and its end, each with what is said of the whole.
static STAIRS: [(u32, u32, u32, &[u8], &str); 8] = [
    (0, 65, 0, b"", "259"),
    (1, 65, 0, b"a\n", "259"),
    (0, 66, 0, b"", "indents"),
    (1, 66, 0, b"#", "indents"),
    (0, 65, 64, b"#", "BadCharacter 7:66:65"),
    (0, 65, 65, b"#", "indents"),
    (0, 65, 64, b"\xff", "NotUtf8 7:66:65"),
    (0, 65, 65, b"\xff", "indents"),
];

#[test]
fn indents_hold_up_to_their_number(rt: HostRuntime) -> Result<(), Fail> {
    let alloc = rt.alloc();
    for (from, to, last_width, last, wanted) in &STAIRS {
        let bytes = stairs(alloc, *from, *to, *last_width, last)?;
        let found = said(alloc, bytes.as_slice())?;
        assert_eq!(rt; found.as_str(), *wanted);
    }
    Ok(())
}

/// Stairs to the limit on indents, a last line of so many words, and one that is wider and bad.
fn past_both(alloc: Global, words: u32) -> Result<Vec<u8>, Fail> {
    let line = built(alloc, b"", b"b ", words, b"\n")?;
    let mut bytes = stairs(alloc, 0, 65, 64, line.as_slice())?;
    let last = built(alloc, b"", b" ", 65, b"\xff")?;
    bytes.extend_from_slice(last.as_slice())?;
    Ok(bytes)
}

/// Where an In passes both limits, that on tokens comes, which stands before that on indents.
#[test]
fn the_limit_on_tokens_comes_before_that_on_indents(rt: HostRuntime) -> Result<(), Fail> {
    let alloc = rt.alloc();
    for (words, wanted) in [(261_948, "indents"), (261_949, "tokens")] {
        let bytes = past_both(alloc, words)?;
        let found = said(alloc, bytes.as_slice())?;
        assert_eq!(rt; found.as_str(), wanted);
    }
    Ok(())
}

/// Words, each with its kind.
const WORDS: &str = "type KwType
effect KwEffect
def KwDef
module KwModule
resource KwResource
plain KwPlain
program KwProgram
grant KwGrant
use KwUse
instance KwInstance
import KwImport
at KwAt
init KwInit
val KwVal
var KwVar
run KwRun
new KwNew
if KwIf
then KwThen
else KwElse
this KwThis
true KwTrue
false KwFalse
main KwMain
Int KwInt
Bool KwBool
String KwString
Unit KwUnit
text_size KwTextSize
text_part KwTextPart
text_code KwTextCode
text_byte KwTextByte
text_show KwTextShow
( SymOpenParen
) SymCloseParen
[ SymOpenBracket
] SymCloseBracket
{ SymOpenBrace
} SymCloseBrace
, SymComma
: SymColon
. SymDot
= SymEqual
== SymEqualEqual
!= SymNotEqual
< SymLess
<= SymLessEqual
> SymGreater
>= SymGreaterEqual
+ SymPlus
- SymMinus
* SymStar
/ SymSlash
% SymPercent
++ SymPlusPlus
&& SymAndAnd
|| SymOrOr
! SymNot
9223372036854775807 Number(9223372036854775807)
007 Number(7)
0 Number(0)
9223372036854775808 Edge";

#[test]
fn each_word_is_its_kind(rt: HostRuntime) -> Result<(), Fail> {
    let alloc = rt.alloc();
    for line in WORDS.lines() {
        let (word, wanted) = line.split_once(' ').ok_or("two words")?;
        let tokens = lex_ok(alloc, word.as_bytes())?;
        assert_eq!(rt; tokens.len(), 3);
        let kind = &tokens[0].kind;
        let found = format!(in alloc; "{kind:?}")?;
        assert_eq!(rt; found.as_str(), wanted);
    }
    Ok(())
}

fn lex_ok(alloc: Global, bytes: &[u8]) -> Result<Vec<Token>, Fail> {
    match lex(alloc, 7, bytes) {
        Ok(tokens) => Ok(tokens),
        Err(_) => Err(Fail::new(format_args!("a text has no tokens"))),
    }
}

/// Words, each with the bytes of its name or text.
static NAMED: [(&[u8], &[u8]); 7] = [
    (b"text_sizes", b"text_sizes"),
    (b"_", b"_"),
    (b"ab\xc3\xa9c_9", b"ab\xc3\xa9c_9"),
    (b"\"\"", b""),
    (
        b"\"0123456789012345678901234567890123456789012345678901234567890123456789\"",
        b"0123456789012345678901234567890123456789012345678901234567890123456789",
    ),
    (
        b"\"01234567890123456789012345678901234567890123456789012345678912\\\"0123456789012345678901234567890123456789012345678901234567890123456789\"",
        b"01234567890123456789012345678901234567890123456789012345678912\"0123456789012345678901234567890123456789012345678901234567890123456789",
    ),
    (
        b"\"\t\xc3\xa9//\\n\\t\\\\\\\"\\x0a\\xFf\"",
        b"\t\xc3\xa9//\n\t\\\"\n\xff",
    ),
];

#[test]
fn names_and_texts_have_their_bytes(rt: HostRuntime) -> Result<(), Fail> {
    let alloc = rt.alloc();
    for (word, wanted) in &NAMED {
        let tokens = lex_ok(alloc, word)?;
        assert_eq!(rt; tokens.len(), 3);
        let found = match &tokens[0].kind {
            TokenKind::Name(name) => name.as_bytes(),
            TokenKind::Text(text) => text.as_bytes(),
            _ => b"?".as_slice(),
        };
        assert_eq!(rt; found, *wanted);
    }
    Ok(())
}

/// The kinds of the tokens, one after another.
fn kinds_shown(alloc: Global, tokens: &[Token]) -> Result<String, Fail> {
    let mut out = String::new(alloc);
    for token in tokens {
        let kind = &token.kind;
        let piece = format!(in alloc; "{kind:?} ")?;
        out.push_str(piece.as_str())?;
    }
    Ok(out)
}

/// Whether the tokens stand where a comment line of so many letters in front moves them.
fn are_moved(plain: &[Token], moved: &[Token], letters: u32) -> bool {
    if plain.len() != moved.len() {
        return false;
    }
    for (a, b) in plain.iter().zip(moved) {
        let start = a.start.wrapping_add(letters).wrapping_add(3);
        let line = a.place.line.wrapping_add(1);
        if b.start != start || b.place.line != line || b.place.column != a.place.column {
            return false;
        }
    }
    true
}

#[test]
fn a_comment_in_front_moves_the_tokens_alone(rt: HostRuntime) -> Result<(), Fail> {
    let alloc = rt.alloc();
    for file in [TYPES, PARTS, MAIN] {
        let plain = lex_ok(alloc, file.as_bytes())?;
        let kinds = kinds_shown(alloc, plain.as_slice())?;
        for letters in 0..64u32 {
            let mut bytes = built(alloc, b"//", b"c", letters, b"\n")?;
            bytes.extend_from_slice(file.as_bytes())?;
            let moved = lex_ok(alloc, bytes.as_slice())?;
            let same = are_moved(plain.as_slice(), moved.as_slice(), letters);
            assert!(rt; same, "behind {letters} letters");
            let found = kinds_shown(alloc, moved.as_slice())?;
            assert!(rt; found == kinds, "behind {letters} letters");
        }
    }
    Ok(())
}

#[test]
fn identifiers_are_told_from_reserved_words(rt: HostRuntime) -> Result<(), Fail> {
    for word in "a _ x9 text_sizes résumé _type İ".split(' ') {
        assert!(rt; is_identifier(word.as_bytes()), "{word}");
    }
    for word in "9a a-b type text_size Int main a.b ·a".split(' ') {
        assert!(rt; !is_identifier(word.as_bytes()), "{word}");
    }
    assert!(rt; !is_identifier(b""));
    assert!(rt; !is_identifier(b"a\xff"));
    Ok(())
}
