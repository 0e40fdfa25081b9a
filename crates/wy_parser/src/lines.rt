//! The lines inside types, modules and programs. `turns` bounds the turns of each loop.
ghost use Rattle.std.specs.Prelude.{[], ◌∷◌, false, true};
ghost use Rattle.wy_syntax.specs.declared.items.Line.TheVariants as lines;
ghost use Rattle.wy_syntax.specs.declared.items.Member.TheVariants as members;
ghost use Rattle.wy_syntax.specs.Tokens.{tok_of, toks};
ghost use Rattle.wy_parser.specs.Kinds as kinds;
ghost use Rattle.wy_parser.specs.Parsing.{each, name_at, word};
ghost use Rattle.wy_parser.specs.Reading.{Yes};
ghost use Rattle.wy_parser.specs.ItemParsing.{set_line, member_with, set_member, abstract_member, effect_member, method_member, member_of, members_inside, use_of, behind_arguments, line_with, line_of, line_first, define_of, init_of, grant_of};
ghost use Rattle.wy_parser.specs.Sorts.{number_of, Gives};

use crate::cursor::{begins, boxed, mark, name_of, name_token, word};
use crate::lists::{Entry, PARENTHESES, between, row};
use crate::sort::Sort;
use crate::stop::Stop;
use crate::types::{set, signature};
use std::alloc::Global;
use wy_syntax::items::{Define, Grant, Init, Line, Member};
use wy_syntax::types::{Name, NameList, SetUse};
use wy_text::list::Items;
use wy_text::token::Token;

/// A sign, a set and the end of the line.
fn set_line<'a>(
    alloc: Global,
    tokens: &'a [Token],
    sign: Sort,
    turns: usize,
) -> Result<(SetUse, &'a [Token]), Stop<'a>>
    ensures { Gives (λ x. x) result (set_line (number_of sign) turns (toks tokens.now)) }
{
    let (_, rest) = mark(tokens, sign)?;
    let (set, rest) = set(alloc, rest, turns)?;
    let (_, rest) = mark(rest, Sort::Nl)?;
    Ok((set, rest))
}

/// A member with its bound or its definition, and what stands behind it.
fn set_node<'a>(
    alloc: Global,
    name: &Token,
    bounded: bool,
    set: SetUse,
    rest: &'a [Token],
) -> Result<(Box<Member>, &'a [Token]), Stop<'a>>
    ensures { Gives (λ x. x.value) result (Yes (member_with bounded (name_at (tok_of name.now)) set) (toks rest.now)) }
{
    let name = name_of(alloc, name)?;
    if bounded {
        boxed(alloc, Member::Bounded(name, set), rest)
    } else {
        boxed(alloc, Member::Defined(name, set), rest)
    }
}

/// A member by its name alone, and what stands behind it.
fn abstract_node<'a>(
    alloc: Global,
    name: &Token,
    rest: &'a [Token],
) -> Result<(Box<Member>, &'a [Token]), Stop<'a>>
    ensures { Gives (λ x. x.value) result (Yes (members.Abstract (name_at (tok_of name.now))) (toks rest.now)) }
{
    let name = name_of(alloc, name)?;
    boxed(alloc, Member::Abstract(name), rest)
}

/// The set of a defined member, or the upper bound of an abstract one, behind the sign.
fn set_member<'a>(
    alloc: Global,
    tokens: &'a [Token],
    name: &Token,
    sign: Sort,
    bounded: bool,
    turns: usize,
) -> Result<(Box<Member>, &'a [Token]), Stop<'a>>
    ensures { Gives (λ x. x.value) result (set_member (number_of sign) bounded (name_at (tok_of name.now)) turns (toks tokens.now)) }
{
    let (set, rest) = set_line(alloc, tokens, sign, turns)?;
    set_node(alloc, name, bounded, set, rest)
}

/// The end of the line of an abstract member without a bound.
fn abstract_member<'a>(
    alloc: Global,
    tokens: &'a [Token],
    name: &Token,
) -> Result<(Box<Member>, &'a [Token]), Stop<'a>>
    ensures { Gives (λ x. x.value) result (abstract_member (name_at (tok_of name.now)) (toks tokens.now)) }
{
    let (_, rest) = mark(tokens, Sort::Nl)?;
    abstract_node(alloc, name, rest)
}

/// An abstract or defined member, or an abstract one with an upper bound.
#[tactic(auto, unfolding(crate::specs::ItemParsing::effect_member))]
fn effect_member<'a>(
    alloc: Global,
    tokens: &'a [Token],
    turns: usize,
) -> Result<(Box<Member>, &'a [Token]), Stop<'a>>
    ensures { Gives (λ x. x.value) result (effect_member turns (toks tokens.now)) }
{
    let (_, rest) = mark(tokens, Sort::KwEffect)?;
    let (name, rest) = name_token(rest)?;
    if begins(rest, &[Sort::SymEqual]) {
        return set_member(alloc, rest, name, Sort::SymEqual, false, turns);
    }
    if begins(rest, &[Sort::SymLessEqual]) {
        return set_member(alloc, rest, name, Sort::SymLessEqual, true, turns);
    }
    abstract_member(alloc, rest, name)
}

#[tactic(auto, unfolding(crate::specs::ItemParsing::method_member))]
fn method_member<'a>(
    alloc: Global,
    tokens: &'a [Token],
    turns: usize,
) -> Result<(Box<Member>, &'a [Token]), Stop<'a>>
    ensures { Gives (λ x. x.value) result (method_member turns (toks tokens.now)) }
{
    let (signature, rest) = signature(alloc, tokens, false, turns)?;
    let (_, rest) = mark(rest, Sort::Nl)?;
    boxed(alloc, Member::Method(Box::into_inner(signature)), rest)
}

/// A member of a type declaration.
#[tactic(auto, unfolding(crate::specs::ItemParsing::member_of))]
fn member<'a>(
    alloc: Global,
    tokens: &'a [Token],
    turns: usize,
) -> Result<(Box<Member>, &'a [Token]), Stop<'a>>
    ensures { Gives (λ x. x.value) result (member_of turns (toks tokens.now)) }
{
    if begins(tokens, &[Sort::KwEffect]) {
        effect_member(alloc, tokens, turns)
    } else {
        method_member(alloc, tokens, turns)
    }
}

/// The members of a type declaration, one a line.
#[derive(Drop)]
struct MemberEntry {
    turns: usize,
}

impl Entry for MemberEntry {
    type Value = Member;

    ghost reads = { λ e. member_of e.turns };

    fn read<'a>(
        &self,
        alloc: Global,
        tokens: &'a [Token],
    ) -> Result<(Member, &'a [Token]), Stop<'a>> {
        let (item, rest) = member(alloc, tokens, self.turns)?;
        Ok((Box::into_inner(item), rest))
    }
}

/// Indented members, or none.
#[tactic(auto, unfolding(crate::specs::ItemParsing::members_inside))]
pub fn members_inside<'a>(
    alloc: Global,
    tokens: &'a [Token],
    turns: usize,
) -> Result<(Items<Member>, &'a [Token]), Stop<'a>>
    ensures { Gives (λ x. x) result (members_inside turns (toks tokens.now)) }
{
    if !begins(tokens, &[Sort::In]) {
        return Ok((Items::new(alloc), tokens));
    }
    let (_, rest) = mark(tokens, Sort::In)?;
    let set = [Sort::KwEffect, Sort::KwDef];
    let (members, rest) = row(alloc, rest, turns, &set, &MemberEntry { turns })?;
    let (_, rest) = mark(rest, Sort::Out)?;
    Ok((members, rest))
}

/// The `use` lines.
struct UseEntry;

impl Entry for UseEntry {
    type Value = Name;

    ghost reads = { λ _. use_of };

    #[tactic(auto, unfolding(crate::specs::ItemParsing::use_of))]
    fn read<'a>(
        &self,
        alloc: Global,
        tokens: &'a [Token],
    ) -> Result<(Name, &'a [Token]), Stop<'a>> {
        let (_, rest) = mark(tokens, Sort::KwUse)?;
        let (name, rest) = name_token(rest)?;
        let (_, rest) = mark(rest, Sort::Nl)?;
        Ok((name_of(alloc, name)?, rest))
    }
}

pub fn uses<'a>(
    alloc: Global,
    tokens: &'a [Token],
    turns: usize,
) -> Result<(NameList, &'a [Token]), Stop<'a>>
    ensures { Gives (λ l. l) result (each (kinds.KwUse ∷ []) (use_of) turns (toks tokens.now)) }
{
    row(alloc, tokens, turns, &[Sort::KwUse], &UseEntry)
}

/// Names with commas between.
struct NameEntry;

impl Entry for NameEntry {
    type Value = Name;

    ghost reads = { λ _. word };

    fn read<'a>(
        &self,
        alloc: Global,
        tokens: &'a [Token],
    ) -> Result<(Name, &'a [Token]), Stop<'a>> {
        word(alloc, tokens)
    }
}

/// The end of an `instance` line behind its arguments.
fn instance_end<'a>(
    alloc: Global,
    tokens: &'a [Token],
    name: &Token,
    maker: &Token,
    names: NameList,
) -> Result<(Box<Line>, &'a [Token]), Stop<'a>>
    ensures { Gives (λ x. x.value) result (behind_arguments false (name_at (tok_of name.now)) (name_at (tok_of maker.now)) names 0 (toks tokens.now)) }
{
    let (_, rest) = mark(tokens, Sort::Nl)?;
    let name = name_of(alloc, name)?;
    let maker = name_of(alloc, maker)?;
    boxed(alloc, Line::Instance(name, maker, names), rest)
}

/// The bound of an `import` line behind its arguments.
fn import_end<'a>(
    alloc: Global,
    tokens: &'a [Token],
    name: &Token,
    maker: &Token,
    names: NameList,
    turns: usize,
) -> Result<(Box<Line>, &'a [Token]), Stop<'a>>
    ensures { Gives (λ x. x.value) result (behind_arguments true (name_at (tok_of name.now)) (name_at (tok_of maker.now)) names turns (toks tokens.now)) }
{
    let (bound, rest) = set_line(alloc, tokens, Sort::KwAt, turns)?;
    let name = name_of(alloc, name)?;
    let maker = name_of(alloc, maker)?;
    boxed(alloc, Line::Import(name, maker, names, bound), rest)
}

/// A line that begins with the word: an `instance`, or an `import`, which has a bound.
#[tactic(auto, unfolding(crate::specs::ItemParsing::line_with))]
fn line_with<'a>(
    alloc: Global,
    tokens: &'a [Token],
    sort: Sort,
    bounded: bool,
    turns: usize,
) -> Result<(Box<Line>, &'a [Token]), Stop<'a>>
    ensures { Gives (λ x. x.value) result (line_with (number_of sort) bounded turns (toks tokens.now)) }
{
    let (_, rest) = mark(tokens, sort)?;
    let (name, rest) = name_token(rest)?;
    let (_, rest) = mark(rest, Sort::SymEqual)?;
    let (maker, rest) = name_token(rest)?;
    let (names, rest) = between(alloc, rest, turns, PARENTHESES, &NameEntry)?;
    if bounded {
        import_end(alloc, rest, name, maker, names, turns)
    } else {
        instance_end(alloc, rest, name, maker, names)
    }
}

/// An `instance` or `import` line.
#[tactic(auto, unfolding(crate::specs::ItemParsing::line_of))]
fn line<'a>(
    alloc: Global,
    tokens: &'a [Token],
    turns: usize,
) -> Result<(Box<Line>, &'a [Token]), Stop<'a>>
    ensures { Gives (λ x. x.value) result (line_of turns (toks tokens.now)) }
{
    if begins(tokens, &[Sort::KwInstance]) {
        line_with(alloc, tokens, Sort::KwInstance, false, turns)
    } else {
        line_with(alloc, tokens, Sort::KwImport, true, turns)
    }
}

/// The `instance` and `import` lines.
#[derive(Drop)]
struct LineEntry {
    turns: usize,
}

impl Entry for LineEntry {
    type Value = Line;

    ghost reads = { λ e. line_of e.turns };

    fn read<'a>(
        &self,
        alloc: Global,
        tokens: &'a [Token],
    ) -> Result<(Line, &'a [Token]), Stop<'a>> {
        let (item, rest) = line(alloc, tokens, self.turns)?;
        Ok((Box::into_inner(item), rest))
    }
}

pub fn lines<'a>(
    alloc: Global,
    tokens: &'a [Token],
    turns: usize,
) -> Result<(Items<Line>, &'a [Token]), Stop<'a>>
    ensures { Gives (λ l. l) result (each line_first (line_of turns) turns (toks tokens.now)) }
{
    row(
        alloc,
        tokens,
        turns,
        &[Sort::KwInstance, Sort::KwImport],
        &LineEntry { turns },
    )
}

/// The lines that define effects.
#[derive(Drop)]
pub struct DefineEntry {
    pub turns: usize,
}

impl Entry for DefineEntry {
    type Value = Define;

    ghost reads = { λ e. define_of e.turns };

    #[tactic(auto, unfolding(crate::specs::ItemParsing::define_of))]
    fn read<'a>(
        &self,
        alloc: Global,
        tokens: &'a [Token],
    ) -> Result<(Define, &'a [Token]), Stop<'a>> {
        let (_, rest) = mark(tokens, Sort::KwEffect)?;
        let (name, rest) = name_token(rest)?;
        let (effect, rest) = set_line(alloc, rest, Sort::SymEqual, self.turns)?;
        let name = name_of(alloc, name)?;
        Ok((Define { name, effect }, rest))
    }
}

/// The line that declares the effect of the field initialisers, where there is one.
#[tactic(auto, unfolding(crate::specs::ItemParsing::init_of))]
pub fn init<'a>(
    alloc: Global,
    tokens: &'a [Token],
    turns: usize,
) -> Result<(Option<Init>, &'a [Token]), Stop<'a>>
    ensures { Gives (λ x. x) result (init_of turns (toks tokens.now)) }
{
    if !begins(tokens, &[Sort::KwInit]) {
        return Ok((None, tokens));
    }
    let (place, rest) = mark(tokens, Sort::KwInit)?;
    let (effect, rest) = set_line(alloc, rest, Sort::SymColon, turns)?;
    Ok((Some(Init { place, effect }), rest))
}

/// The `grant` lines.
pub struct GrantEntry;

impl Entry for GrantEntry {
    type Value = Grant;

    ghost reads = { λ _. grant_of };

    #[tactic(auto, unfolding(crate::specs::ItemParsing::grant_of))]
    fn read<'a>(
        &self,
        alloc: Global,
        tokens: &'a [Token],
    ) -> Result<(Grant, &'a [Token]), Stop<'a>> {
        let (_, rest) = mark(tokens, Sort::KwGrant)?;
        let (name, rest) = name_token(rest)?;
        let (_, rest) = mark(rest, Sort::SymColon)?;
        let (kind, rest) = name_token(rest)?;
        let (_, rest) = mark(rest, Sort::Nl)?;
        let name = name_of(alloc, name)?;
        let kind = name_of(alloc, kind)?;
        Ok((Grant { name, kind }, rest))
    }
}
