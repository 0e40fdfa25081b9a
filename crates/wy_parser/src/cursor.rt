//! The smallest readers: one token of some kinds.
ghost use Rattle.std.specs.Prelude.{◌≡◌, [], ◌∷◌, IfOk};
ghost use Rattle.wy_syntax.specs.Tokens.{code, code_of, member, tok_of, toks};
ghost use Rattle.wy_parser.specs.Reading.{Yes, starts, starts2};
ghost use Rattle.wy_parser.specs.Kinds as kinds;
ghost use Rattle.wy_parser.specs.Parsing.{tok, mark, word, name_at, text_of_kind};
ghost use Rattle.wy_parser.specs.Sorts.{number_of, numbers, Gives};

use crate::sort::{Sort, sort_of};
use crate::stop::Stop;
use std::alloc::Global;
use wy_syntax::types::Name;
use wy_text::fault::Place;
use wy_text::text::{Memory, Text, from_bytes};
use wy_text::token::{Token, TokenKind};

/// Whether a token's kind is in the set.
fn is_of(token: &Token, set: &[Sort]) -> bool
    ensures { result ≡ member (code_of token.now.kind) (numbers set.now) }
{
    let number = sort_of(&token.kind).number();
    for sort in set {
        if sort.number() == number {
            return true;
        }
    }
    false
}

/// Whether the first token's kind is in the set.
pub fn begins(tokens: &[Token], set: &[Sort]) -> bool
    ensures { result ≡ starts code (numbers set.now) (toks tokens.now) }
{
    match tokens {
        [] => false,
        [first, ..] => is_of(first, set),
    }
}

/// The first token, if its kind is in the set, and what stands behind it.
pub fn take<'a>(tokens: &'a [Token], set: &[Sort]) -> Result<(&'a Token, &'a [Token]), Stop<'a>>
    ensures { Gives (λ x. tok_of x.now) result (tok (numbers set.now) (toks tokens.now)) }
{
    match tokens {
        [] => Err(Stop::At(tokens)),
        [first, rest @ ..] => {
            if is_of(first, set) {
                Ok((first, rest))
            } else {
                Err(Stop::At(tokens))
            }
        }
    }
}

/// The place of the first token, if it is of the kind.
pub fn mark<'a>(tokens: &'a [Token], sort: Sort) -> Result<(Place, &'a [Token]), Stop<'a>>
    ensures { Gives (λ p. p) result (mark (number_of sort) (toks tokens.now)) }
{
    let (token, rest) = take(tokens, &[sort])?;
    Ok((token.place, rest))
}

/// The bytes of a name or a text.
pub fn text_of(alloc: Global, token: &Token) -> Result<Text, Memory>
    ensures { IfOk result (λ t. t ≡ text_of_kind token.now.kind) }
{
    match &token.kind {
        TokenKind::Name(text) => text.copy(),
        TokenKind::Text(text) => text.copy(),
        _ => from_bytes(alloc, b""),
    }
}

/// The token of the name that stands first. The name is made by `name_of` when all is read.
pub fn name_token<'a>(tokens: &'a [Token]) -> Result<(&'a Token, &'a [Token]), Stop<'a>>
    ensures { Gives (λ x. tok_of x.now) result (tok (kinds.Name ∷ []) (toks tokens.now)) }
{
    take(tokens, &[Sort::Name])
}

/// The name that a token has.
pub fn name_of(alloc: Global, token: &Token) -> Result<Name, Memory>
    ensures { IfOk result (λ n. n ≡ name_at (tok_of token.now)) }
{
    let text = text_of(alloc, token)?;
    Ok(Name {
        text,
        place: token.place,
    })
}

/// The name that stands first.
pub fn word<'a>(alloc: Global, tokens: &'a [Token]) -> Result<(Name, &'a [Token]), Stop<'a>>
    ensures { Gives (λ n. n) result (word (toks tokens.now)) }
{
    let (token, rest) = name_token(tokens)?;
    Ok((name_of(alloc, token)?, rest))
}

/// A value in a box, and what stands behind it.
pub fn boxed<'a, T: Drop>(
    alloc: Global,
    value: T,
    rest: &'a [Token],
) -> Result<(Box<T>, &'a [Token]), Stop<'a>>
    ensures { Gives (λ b. b.value) result (Yes value (toks rest.now)) }
{
    Ok((Box::new(alloc, value)?, rest))
}

/// Whether the first token's kind is in the first set and the second one's in the second.
pub fn begins_two(tokens: &[Token], first: &[Sort], second: &[Sort]) -> bool
    ensures { result ≡ starts2 code (numbers first.now) (numbers second.now) (toks tokens.now) }
{
    match tokens {
        [one, two, ..] => is_of(one, first) && is_of(two, second),
        _ => false,
    }
}
