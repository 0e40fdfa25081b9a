//! Lists of entries: in a row, and with commas between. `turns` bounds the turns of the loop.
ghost use Rattle.std.specs.Prelude.{[], ◌∷◌};
ghost use Rattle.wy_syntax.specs.Tokens.{code, toks};
ghost use Rattle.wy_parser.specs.Kinds as kinds;
ghost use Rattle.wy_parser.specs.Reading.{fold_many};
ghost use Rattle.wy_parser.specs.Parsing.{R, between, comma_part, commas, commas1, each, snoc};
ghost use Rattle.wy_parser.specs.Sorts.{Gives, number_of, numbers};

use crate::cursor::{begins, mark};
use crate::sort::Sort;
use crate::stop::Stop;
use std::alloc::Global;
use wy_text::list::Items;
use wy_text::token::Token;

/// The signs of parentheses.
pub const PARENTHESES: (Sort, Sort) = (Sort::SymOpenParen, Sort::SymCloseParen);

/// The signs of braces.
pub const BRACES: (Sort, Sort) = (Sort::SymOpenBrace, Sort::SymCloseBrace);

/// How an entry of a list is read.
pub trait Entry {
    type Value: Drop;

    // The reader of an entry.
    ghost reads: { Self → R Self.Value };

    /// The entry that stands first, and what stands behind it.
    fn read<'a>(
        &self,
        alloc: Global,
        tokens: &'a [Token],
    ) -> Result<(Self::Value, &'a [Token]), Stop<'a>>
        ensures { Gives (λ x. x) result (reads self.now (toks tokens.now)) };
}

/// A list with further entries, while the first token is in the set.
fn more<'a, E: Entry>(
    alloc: Global,
    mut items: Items<E::Value>,
    tokens: &'a [Token],
    turns: usize,
    set: &[Sort],
    entry: &E,
) -> Result<(Items<E::Value>, &'a [Token]), Stop<'a>>
    ensures { Gives (λ l. l) result (fold_many code turns (numbers set.now) (E.reads entry.now) snoc items (toks tokens.now)) }
{
    let mut rest = tokens;
    for _ in 0..turns {
        if !begins(rest, set) {
            return Ok((items, rest));
        }
        let (item, after) = entry.read(alloc, rest)?;
        items.push(item)?;
        rest = after;
    }
    Err(Stop::Deep)
}

/// Entries while the first token is in the set.
pub fn row<'a, E: Entry>(
    alloc: Global,
    tokens: &'a [Token],
    turns: usize,
    set: &[Sort],
    entry: &E,
) -> Result<(Items<E::Value>, &'a [Token]), Stop<'a>>
    ensures { Gives (λ l. l) result (each (numbers set.now) (E.reads entry.now) turns (toks tokens.now)) }
{
    more(alloc, Items::new(alloc), tokens, turns, set, entry)
}

/// What stands behind the first entry of a list with commas between.
#[derive(Drop)]
struct Further<'e, E> {
    entry: &'e E,
}

impl<'e, E: Entry> Entry for Further<'e, E> {
    type Value = E::Value;

    ghost reads = { λ further. comma_part (E.reads further.entry.now) };

    fn read<'a>(
        &self,
        alloc: Global,
        tokens: &'a [Token],
    ) -> Result<(E::Value, &'a [Token]), Stop<'a>> {
        let (_, rest) = mark(tokens, Sort::SymComma)?;
        self.entry.read(alloc, rest)
    }
}

/// Entries with commas between, at least one.
pub fn separated<'a, E: Entry>(
    alloc: Global,
    tokens: &'a [Token],
    turns: usize,
    entry: &E,
) -> Result<(Items<E::Value>, &'a [Token]), Stop<'a>>
    ensures { Gives (λ l. l) result (commas1 (E.reads entry.now) turns (toks tokens.now)) }
{
    let mut items = Items::new(alloc);
    let (first, rest) = entry.read(alloc, tokens)?;
    items.push(first)?;
    more(
        alloc,
        items,
        rest,
        turns,
        &[Sort::SymComma],
        &Further { entry },
    )
}

/// Entries that begin with a name, with commas between, or none.
pub fn named<'a, E: Entry>(
    alloc: Global,
    tokens: &'a [Token],
    turns: usize,
    entry: &E,
) -> Result<(Items<E::Value>, &'a [Token]), Stop<'a>>
    ensures { Gives (λ l. l) result (commas (kinds.Name ∷ []) (E.reads entry.now) turns (toks tokens.now)) }
{
    if !begins(tokens, &[Sort::Name]) {
        return Ok((Items::new(alloc), tokens));
    }
    separated(alloc, tokens, turns, entry)
}

/// Entries that begin with a name, with commas between, or none, between two signs.
pub fn between<'a, E: Entry>(
    alloc: Global,
    tokens: &'a [Token],
    turns: usize,
    signs: (Sort, Sort),
    entry: &E,
) -> Result<(Items<E::Value>, &'a [Token]), Stop<'a>>
    ensures { Gives (λ l. l) result (between (number_of signs.0) (number_of signs.1) (E.reads entry.now) turns (toks tokens.now)) }
{
    let (_, rest) = mark(tokens, signs.0)?;
    let (entries, rest) = named(alloc, rest, turns, entry)?;
    let (_, rest) = mark(rest, signs.1)?;
    Ok((entries, rest))
}
