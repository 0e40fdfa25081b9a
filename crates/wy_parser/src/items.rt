//! Items and files. `turns` is the depth of the bodies too.
ghost use Rattle.std.specs.Prelude.{false, map, true};
ghost use Rattle.wy_syntax.specs.Tokens.{tok_of, toks};
ghost use Rattle.wy_syntax.specs.Trees.{type_item, pure_item};
ghost use Rattle.wy_syntax.specs.Views.{inside_tree, item_tree};
ghost use Rattle.wy_parser.specs.Parsing.{name_at};
ghost use Rattle.wy_parser.specs.ItemParsing.{behind_module_lines, inside_lines, inside_of, type_of, pure_of, behind_params, sealed_module, with_params, behind_lines, program_of, item, items, p_file};
ghost use Rattle.wy_parser.specs.Reading.{Yes};
ghost use Rattle.wy_parser.specs.Sorts.{number_of, Gives};

use crate::cursor::{begins, boxed, mark, name_of, name_token};
use crate::lines::{DefineEntry, GrantEntry, init, lines, members_inside, uses};
use crate::lists::{PARENTHESES, between, row};
use crate::sort::Sort;
use crate::statements::{parts, parts_inside, tail};
use crate::stop::Stop;
use crate::types::{ParamEntry, set};
use std::alloc::Global;
use wy_syntax::items::{
    Grant, Inside, Item, Line, Member, PlainModule, Program, PureModule, ResourceModule, TypeDecl,
};
use wy_syntax::types::{NameList, ParamList};
use wy_text::fault::Place;
use wy_text::list::Items;
use wy_text::token::Token;

const ITEM_FIRST: [Sort; 5] = [
    Sort::KwType,
    Sort::KwModule,
    Sort::KwResource,
    Sort::KwPlain,
    Sort::KwProgram,
];

/// What stands inside a module in a box, and what stands behind it.
fn inside_node<'a>(
    alloc: Global,
    inside: Inside,
    rest: &'a [Token],
) -> Result<(Box<Inside>, &'a [Token]), Stop<'a>>
    ensures { Gives (λ b. inside_tree b.value) result (Yes (inside_tree inside) (toks rest.now)) }
{
    boxed(alloc, inside, rest)
}

/// An item in a box, and what stands behind it.
fn item_node<'a>(
    alloc: Global,
    item: Item,
    rest: &'a [Token],
) -> Result<(Box<Item>, &'a [Token]), Stop<'a>>
    ensures { Gives (λ b. item_tree b.value) result (Yes (item_tree item) (toks rest.now)) }
{
    boxed(alloc, item, rest)
}

/// What stands inside a pure or a resource module behind its lines.
fn inside_end<'a>(
    alloc: Global,
    tokens: &'a [Token],
    uses: NameList,
    lines: Items<Line>,
    turns: usize,
) -> Result<(Box<Inside>, &'a [Token]), Stop<'a>>
    ensures { Gives (λ b. inside_tree b.value) result (behind_module_lines uses lines turns (toks tokens.now)) }
{
    let entry = DefineEntry { turns };
    let (defines, rest) = row(alloc, tokens, turns, &[Sort::KwEffect], &entry)?;
    let (init, rest) = init(alloc, rest, turns)?;
    let (parts, rest) = parts(alloc, rest, false, turns)?;
    let (_, rest) = mark(rest, Sort::Out)?;
    let inside = Inside {
        uses,
        lines,
        defines,
        init,
        parts,
    };
    inside_node(alloc, inside, rest)
}

/// The lines inside a pure or a resource module.
#[tactic(auto, unfolding(crate::specs::ItemParsing::inside_lines))]
fn inside_lines<'a>(
    alloc: Global,
    tokens: &'a [Token],
    turns: usize,
) -> Result<(Box<Inside>, &'a [Token]), Stop<'a>>
    ensures { Gives (λ b. inside_tree b.value) result (inside_lines turns (toks tokens.now)) }
{
    let (_, rest) = mark(tokens, Sort::In)?;
    let (uses, rest) = uses(alloc, rest, turns)?;
    let (lines, rest) = lines(alloc, rest, turns)?;
    inside_end(alloc, rest, uses, lines, turns)
}

/// What stands inside a pure or a resource module.
#[tactic(auto, unfolding(crate::specs::ItemParsing::inside_of))]
fn inside<'a>(
    alloc: Global,
    tokens: &'a [Token],
    turns: usize,
) -> Result<(Box<Inside>, &'a [Token]), Stop<'a>>
    ensures { Gives (λ b. inside_tree b.value) result (inside_of turns (toks tokens.now)) }
{
    if begins(tokens, &[Sort::In]) {
        return inside_lines(alloc, tokens, turns);
    }
    let inside = Inside {
        uses: Items::new(alloc),
        lines: Items::new(alloc),
        defines: Items::new(alloc),
        init: None,
        parts: Vec::new(alloc),
    };
    inside_node(alloc, inside, tokens)
}

/// A type declaration, and what stands behind it.
fn type_node<'a>(
    alloc: Global,
    place: Place,
    name: &Token,
    members: Items<Member>,
    rest: &'a [Token],
) -> Result<(Box<Item>, &'a [Token]), Stop<'a>>
    ensures { Gives (λ b. item_tree b.value) result (Yes (type_item (record { place = place; name = name_at (tok_of name.now); members = members })) (toks rest.now)) }
{
    let name = name_of(alloc, name)?;
    let item = Item::Type(TypeDecl {
        place,
        name,
        members,
    });
    item_node(alloc, item, rest)
}

#[tactic(auto, unfolding(crate::specs::ItemParsing::type_of))]
fn type_decl<'a>(
    alloc: Global,
    tokens: &'a [Token],
    turns: usize,
) -> Result<(Box<Item>, &'a [Token]), Stop<'a>>
    ensures { Gives (λ b. item_tree b.value) result (type_of turns (toks tokens.now)) }
{
    let (place, rest) = mark(tokens, Sort::KwType)?;
    let (name, rest) = name_token(rest)?;
    let (_, rest) = mark(rest, Sort::Nl)?;
    let (members, rest) = members_inside(alloc, rest, turns)?;
    type_node(alloc, place, name, members, rest)
}

/// A pure module, and what stands behind it.
fn pure_node<'a>(
    alloc: Global,
    place: Place,
    name: &Token,
    sealed: &Token,
    inside: Box<Inside>,
    rest: &'a [Token],
) -> Result<(Box<Item>, &'a [Token]), Stop<'a>>
    ensures { Gives (λ b. item_tree b.value) result (Yes (pure_item place (name_at (tok_of name.now)) (name_at (tok_of sealed.now)) (inside_tree inside.value)) (toks rest.now)) }
{
    let item = Item::Pure(PureModule {
        place,
        name: name_of(alloc, name)?,
        sealed: name_of(alloc, sealed)?,
        inside: Box::into_inner(inside),
    });
    item_node(alloc, item, rest)
}

#[tactic(auto, unfolding(crate::specs::ItemParsing::pure_of))]
fn pure_module<'a>(
    alloc: Global,
    tokens: &'a [Token],
    turns: usize,
) -> Result<(Box<Item>, &'a [Token]), Stop<'a>>
    ensures { Gives (λ b. item_tree b.value) result (pure_of turns (toks tokens.now)) }
{
    let (place, rest) = mark(tokens, Sort::KwModule)?;
    let (name, rest) = name_token(rest)?;
    let (_, rest) = mark(rest, Sort::SymColon)?;
    let (sealed, rest) = name_token(rest)?;
    let (_, rest) = mark(rest, Sort::Nl)?;
    let (inside, rest) = inside(alloc, rest, turns)?;
    pure_node(alloc, place, name, sealed, inside, rest)
}

/// What stands inside a resource module, behind its first line.
fn resource_end<'a>(
    alloc: Global,
    tokens: &'a [Token],
    place: Place,
    name: &Token,
    params: ParamList,
    sealed: &Token,
    turns: usize,
) -> Result<(Box<Item>, &'a [Token]), Stop<'a>>
    ensures { Gives (λ b. item_tree b.value) result (behind_params false place (name_at (tok_of name.now)) params (name_at (tok_of sealed.now)) turns (toks tokens.now)) }
{
    let (inside, rest) = inside(alloc, tokens, turns)?;
    let item = Item::Resource(ResourceModule {
        place,
        name: name_of(alloc, name)?,
        params,
        sealed: name_of(alloc, sealed)?,
        inside: Box::into_inner(inside),
    });
    item_node(alloc, item, rest)
}

/// What stands inside a plain module, behind its first line.
fn plain_end<'a>(
    alloc: Global,
    tokens: &'a [Token],
    place: Place,
    name: &Token,
    params: ParamList,
    sealed: &Token,
    turns: usize,
) -> Result<(Box<Item>, &'a [Token]), Stop<'a>>
    ensures { Gives (λ b. item_tree b.value) result (behind_params true place (name_at (tok_of name.now)) params (name_at (tok_of sealed.now)) turns (toks tokens.now)) }
{
    let (parts, rest) = parts_inside(alloc, tokens, true, turns)?;
    let item = Item::Plain(PlainModule {
        place,
        name: name_of(alloc, name)?,
        params,
        sealed: name_of(alloc, sealed)?,
        parts,
    });
    item_node(alloc, item, rest)
}

/// What stands in a module with parameters behind them.
fn sealed_module<'a>(
    alloc: Global,
    tokens: &'a [Token],
    place: Place,
    name: &Token,
    params: ParamList,
    plain: bool,
    turns: usize,
) -> Result<(Box<Item>, &'a [Token]), Stop<'a>>
    ensures { Gives (λ b. item_tree b.value) result (sealed_module plain place (name_at (tok_of name.now)) params turns (toks tokens.now)) }
{
    let (_, rest) = mark(tokens, Sort::SymColon)?;
    let (sealed, rest) = name_token(rest)?;
    let (_, rest) = mark(rest, Sort::Nl)?;
    if plain {
        plain_end(alloc, rest, place, name, params, sealed, turns)
    } else {
        resource_end(alloc, rest, place, name, params, sealed, turns)
    }
}

/// A module with parameters, which begins with the word: a resource module, or a plain one.
#[tactic(auto, unfolding(crate::specs::ItemParsing::with_params))]
fn module_with_params<'a>(
    alloc: Global,
    tokens: &'a [Token],
    sort: Sort,
    plain: bool,
    turns: usize,
) -> Result<(Box<Item>, &'a [Token]), Stop<'a>>
    ensures { Gives (λ b. item_tree b.value) result (with_params (number_of sort) plain turns (toks tokens.now)) }
{
    let (place, rest) = mark(tokens, sort)?;
    let (_, rest) = mark(rest, Sort::KwModule)?;
    let (name, rest) = name_token(rest)?;
    let entry = ParamEntry {
        declared: true,
        plain,
        turns,
    };
    let (params, rest) = between(alloc, rest, turns, PARENTHESES, &entry)?;
    sealed_module(alloc, rest, place, name, params, plain, turns)
}

/// What stands in a program block behind its lines.
fn program_end<'a>(
    alloc: Global,
    tokens: &'a [Token],
    place: Place,
    grants: Items<Grant>,
    uses: NameList,
    lines: Items<Line>,
    turns: usize,
) -> Result<(Box<Item>, &'a [Token]), Stop<'a>>
    ensures { Gives (λ b. item_tree b.value) result (behind_lines place grants uses lines turns (toks tokens.now)) }
{
    let (run, rest) = mark(tokens, Sort::KwRun)?;
    let (_, rest) = mark(rest, Sort::SymColon)?;
    let (effect, rest) = set(alloc, rest, turns)?;
    let (body, rest) = tail(alloc, rest, false, turns)?;
    let (_, rest) = mark(rest, Sort::Out)?;
    let item = Item::Program(Program {
        place,
        grants,
        uses,
        lines,
        run,
        effect,
        body: Box::into_inner(body),
    });
    item_node(alloc, item, rest)
}

/// The program block.
#[tactic(auto, unfolding(crate::specs::ItemParsing::program_of))]
fn program<'a>(
    alloc: Global,
    tokens: &'a [Token],
    turns: usize,
) -> Result<(Box<Item>, &'a [Token]), Stop<'a>>
    ensures { Gives (λ b. item_tree b.value) result (program_of turns (toks tokens.now)) }
{
    let (place, rest) = mark(tokens, Sort::KwProgram)?;
    let (_, rest) = mark(rest, Sort::Nl)?;
    let (_, rest) = mark(rest, Sort::In)?;
    let (grants, rest) = row(alloc, rest, turns, &[Sort::KwGrant], &GrantEntry)?;
    let (uses, rest) = uses(alloc, rest, turns)?;
    let (lines, rest) = lines(alloc, rest, turns)?;
    program_end(alloc, rest, place, grants, uses, lines, turns)
}

/// An item.
#[tactic(auto, unfolding(crate::specs::ItemParsing::item))]
fn item<'a>(
    alloc: Global,
    tokens: &'a [Token],
    turns: usize,
) -> Result<(Box<Item>, &'a [Token]), Stop<'a>>
    ensures { Gives (λ b. item_tree b.value) result (item turns (toks tokens.now)) }
{
    if begins(tokens, &[Sort::KwType]) {
        return type_decl(alloc, tokens, turns);
    }
    if begins(tokens, &[Sort::KwModule]) {
        return pure_module(alloc, tokens, turns);
    }
    if begins(tokens, &[Sort::KwResource]) {
        return module_with_params(alloc, tokens, Sort::KwResource, false, turns);
    }
    if begins(tokens, &[Sort::KwPlain]) {
        return module_with_params(alloc, tokens, Sort::KwPlain, true, turns);
    }
    program(alloc, tokens, turns)
}

/// Any number of items.
#[tactic(auto, unfolding(crate::specs::ItemParsing::items))]
fn items<'a>(
    alloc: Global,
    tokens: &'a [Token],
    turns: usize,
) -> Result<(Vec<Item>, &'a [Token]), Stop<'a>>
    ensures { Gives (λ v. map item_tree v.items) result (items turns (toks tokens.now)) }
{
    let mut items = Vec::new(alloc);
    let mut rest = tokens;
    for _ in 0..turns {
        if !begins(rest, &ITEM_FIRST) {
            return Ok((items, rest));
        }
        let (item, after) = item(alloc, rest, turns)?;
        items.push(Box::into_inner(item))?;
        rest = after;
    }
    Err(Stop::Deep)
}

/// A file's items and its end.
#[tactic(auto, unfolding(crate::specs::ItemParsing::p_file))]
pub fn file<'a>(
    alloc: Global,
    tokens: &'a [Token],
    turns: usize,
) -> Result<(Vec<Item>, &'a [Token]), Stop<'a>>
    ensures { Gives (λ v. map item_tree v.items) result (p_file turns (toks tokens.now)) }
{
    let (items, rest) = items(alloc, tokens, turns)?;
    let (_, rest) = mark(rest, Sort::End)?;
    Ok((items, rest))
}
