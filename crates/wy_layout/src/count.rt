ghost use Rattle.std.specs.Prelude.{◌≡◌, ◌≤◌, ◌<◌, ◌^◌, true};
ghost use Rattle.wy_text.specs.TokenLists as token_lists;
ghost use Rattle.wy_layout.specs.Counts as spec;
ghost use Rattle.wy_layout.specs.Gives.{within_of, IsCalm};
ghost use Rattle.wy_layout.specs.Words.{fits};

use crate::refusal::Fault;
use wy_text::limit::{MOST_MARKS, MOST_TOKENS};
use wy_text::token::TokenKind;

/// The tokens of the file so far, and the marks and the open braces of the line.
#[derive(Clone, Copy)]
pub struct Count {
    pub tokens: usize,
    pub marks: usize,
    pub open_braces: usize,
}

/// Whether a token is a mark.
fn is_mark(kind: &TokenKind) -> bool
    ensures { result ≡ token_lists.is_mark kind.now }
{
    matches!(
        kind,
        TokenKind::SymEqualEqual
            | TokenKind::SymNotEqual
            | TokenKind::SymLess
            | TokenKind::SymLessEqual
            | TokenKind::SymGreater
            | TokenKind::SymGreaterEqual
            | TokenKind::SymPlus
            | TokenKind::SymMinus
            | TokenKind::SymStar
            | TokenKind::SymSlash
            | TokenKind::SymPercent
            | TokenKind::SymPlusPlus
            | TokenKind::SymAndAnd
            | TokenKind::SymOrOr
            | TokenKind::SymNot
            | TokenKind::SymDot
            | TokenKind::SymOpenParen
            | TokenKind::KwIf
    )
}

fn is_counted(open_braces: usize, kind: &TokenKind) -> bool
    ensures { result ≡ token_lists.is_counted open_braces kind.now }
{
    is_mark(kind) && open_braces == 0
}

fn braces_after(open_braces: usize, kind: &TokenKind) -> usize
    requires { open_braces < 2 ^ 63 }
    ensures { result ≡ token_lists.braces_after open_braces kind.now }
{
    match kind {
        TokenKind::SymOpenBrace => open_braces + 1,
        TokenKind::SymCloseBrace => open_braces.saturating_sub(1),
        _ => open_braces,
    }
}

fn marks_after(marks: usize, open_braces: usize, kind: &TokenKind) -> usize
    requires { marks < 2 ^ 63 }
    ensures { result ≡ token_lists.marks_after marks open_braces kind.now }
{
    if is_counted(open_braces, kind) {
        marks + 1
    } else {
        marks
    }
}

/// The first limit that a further token passes.
pub fn passed(count: Count, kind: &TokenKind) -> Option<Fault>
    ensures { within_of result ≡ spec.passed count kind.now }
{
    if count.tokens >= MOST_TOKENS {
        return Some(Fault::Tokens);
    }
    if is_counted(count.open_braces, kind) && count.marks >= MOST_MARKS {
        return Some(Fault::Marks);
    }
    None
}

/// The counts with a further token.
pub fn counted(count: Count, kind: &TokenKind) -> Count
    requires calm { IsCalm count }
    requires small { count.tokens < 2 ^ 63 }
    ensures value { result ≡ spec.counted count kind.now }
    ensures stays { IsCalm result }
{
    Count {
        tokens: count.tokens + 1,
        marks: marks_after(count.marks, count.open_braces, kind),
        open_braces: braces_after(count.open_braces, kind),
    }
}
