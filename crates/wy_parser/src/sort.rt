//! The kinds of tokens, without what a token carries.
ghost use Rattle.std.specs.Prelude.{◌≡◌};
ghost use Rattle.wy_syntax.specs.Tokens.{code_of};
ghost use Rattle.wy_parser.specs.Sorts.{number_of};

use wy_text::token::TokenKind;

/// The kind of a token, without the text or value that it carries. The kinds stand in the order of their numbers.
#[derive(Clone, Copy)]
pub enum Sort {
    /// What fits nowhere: a Number below 0, which no file has.
    Nothing,
    Name,
    Number,
    Edge,
    Text,
    KwType,
    KwEffect,
    KwDef,
    KwModule,
    KwResource,
    KwPlain,
    KwProgram,
    KwGrant,
    KwUse,
    KwInstance,
    KwImport,
    KwAt,
    KwInit,
    KwVal,
    KwVar,
    KwRun,
    KwNew,
    KwIf,
    KwThen,
    KwElse,
    KwThis,
    KwTrue,
    KwFalse,
    KwMain,
    KwInt,
    KwBool,
    KwString,
    KwUnit,
    KwTextSize,
    KwTextPart,
    KwTextCode,
    KwTextByte,
    KwTextShow,
    SymOpenParen,
    SymCloseParen,
    SymOpenBracket,
    SymCloseBracket,
    SymOpenBrace,
    SymCloseBrace,
    SymComma,
    SymColon,
    SymDot,
    SymEqual,
    SymEqualEqual,
    SymNotEqual,
    SymLess,
    SymLessEqual,
    SymGreater,
    SymGreaterEqual,
    SymPlus,
    SymMinus,
    SymStar,
    SymSlash,
    SymPercent,
    SymPlusPlus,
    SymAndAnd,
    SymOrOr,
    SymNot,
    Nl,
    In,
    Out,
    End,
}

impl Sort {
    /// The kind's number.
    pub fn number(self) -> u8
        ensures { result ≡ number_of self }
    {
        self as u8
    }
}

/// The kind of a token.
pub fn sort_of(kind: &TokenKind) -> Sort
    ensures { number_of result ≡ code_of kind.now }
{
    match kind {
        TokenKind::Name(_) => Sort::Name,
        TokenKind::Number(value) => number_sort(*value),
        TokenKind::Edge => Sort::Edge,
        TokenKind::Text(_) => Sort::Text,
        TokenKind::KwType => Sort::KwType,
        TokenKind::KwEffect => Sort::KwEffect,
        TokenKind::KwDef => Sort::KwDef,
        TokenKind::KwModule => Sort::KwModule,
        TokenKind::KwResource => Sort::KwResource,
        TokenKind::KwPlain => Sort::KwPlain,
        TokenKind::KwProgram => Sort::KwProgram,
        TokenKind::KwGrant => Sort::KwGrant,
        TokenKind::KwUse => Sort::KwUse,
        TokenKind::KwInstance => Sort::KwInstance,
        TokenKind::KwImport => Sort::KwImport,
        TokenKind::KwAt => Sort::KwAt,
        TokenKind::KwInit => Sort::KwInit,
        TokenKind::KwVal => Sort::KwVal,
        TokenKind::KwVar => Sort::KwVar,
        TokenKind::KwRun => Sort::KwRun,
        TokenKind::KwNew => Sort::KwNew,
        TokenKind::KwIf => Sort::KwIf,
        TokenKind::KwThen => Sort::KwThen,
        TokenKind::KwElse => Sort::KwElse,
        TokenKind::KwThis => Sort::KwThis,
        TokenKind::KwTrue => Sort::KwTrue,
        TokenKind::KwFalse => Sort::KwFalse,
        TokenKind::KwMain => Sort::KwMain,
        TokenKind::KwInt => Sort::KwInt,
        TokenKind::KwBool => Sort::KwBool,
        TokenKind::KwString => Sort::KwString,
        TokenKind::KwUnit => Sort::KwUnit,
        TokenKind::KwTextSize => Sort::KwTextSize,
        TokenKind::KwTextPart => Sort::KwTextPart,
        TokenKind::KwTextCode => Sort::KwTextCode,
        TokenKind::KwTextByte => Sort::KwTextByte,
        TokenKind::KwTextShow => Sort::KwTextShow,
        TokenKind::SymOpenParen => Sort::SymOpenParen,
        TokenKind::SymCloseParen => Sort::SymCloseParen,
        TokenKind::SymOpenBracket => Sort::SymOpenBracket,
        TokenKind::SymCloseBracket => Sort::SymCloseBracket,
        TokenKind::SymOpenBrace => Sort::SymOpenBrace,
        TokenKind::SymCloseBrace => Sort::SymCloseBrace,
        TokenKind::SymComma => Sort::SymComma,
        TokenKind::SymColon => Sort::SymColon,
        TokenKind::SymDot => Sort::SymDot,
        TokenKind::SymEqual => Sort::SymEqual,
        TokenKind::SymEqualEqual => Sort::SymEqualEqual,
        TokenKind::SymNotEqual => Sort::SymNotEqual,
        TokenKind::SymLess => Sort::SymLess,
        TokenKind::SymLessEqual => Sort::SymLessEqual,
        TokenKind::SymGreater => Sort::SymGreater,
        TokenKind::SymGreaterEqual => Sort::SymGreaterEqual,
        TokenKind::SymPlus => Sort::SymPlus,
        TokenKind::SymMinus => Sort::SymMinus,
        TokenKind::SymStar => Sort::SymStar,
        TokenKind::SymSlash => Sort::SymSlash,
        TokenKind::SymPercent => Sort::SymPercent,
        TokenKind::SymPlusPlus => Sort::SymPlusPlus,
        TokenKind::SymAndAnd => Sort::SymAndAnd,
        TokenKind::SymOrOr => Sort::SymOrOr,
        TokenKind::SymNot => Sort::SymNot,
        TokenKind::Nl => Sort::Nl,
        TokenKind::In => Sort::In,
        TokenKind::Out => Sort::Out,
        TokenKind::End => Sort::End,
    }
}

#[tactic(auto, using(crate::proofs::Numbers::number_rules))]
fn number_sort(value: i64) -> Sort
    ensures { number_of result ≡ code_of (TokenKind.Number value) }
{
    if value < 0 {
        Sort::Nothing
    } else {
        Sort::Number
    }
}
