//! Sets, types and signatures. Each function reads what stands first and gives what stands behind it;
//! `turns` bounds the turns of each loop.
ghost use Rattle.wy_syntax.specs.declared.types.TypeUse.TheVariants as types;
ghost use Rattle.wy_syntax.specs.Tokens.{tok_of, toks};
ghost use Rattle.wy_parser.specs.Parsing.{name_at, member_alone, member_of, owned, atom, set, member_set, with_sets, at_set, object_rest, object, type_use, param_of, param_type, param, effect, signature_of, behind_method_params, signature};
ghost use Rattle.wy_parser.specs.Reading.{Yes};
ghost use Rattle.wy_parser.specs.Sorts.{Gives};

use crate::cursor::{begins, boxed, mark, name_of, name_token};
use crate::lists::{BRACES, Entry, between, named, separated};
use crate::sort::Sort;
use crate::stop::Stop;
use std::alloc::Global;
use wy_syntax::types::{AtomUse, MemberSet, Param, ParamList, SetUse, Signature, TypeUse};
use wy_text::fault::Place;
use wy_text::list::Items;
use wy_text::token::Token;

/// A member by itself, and what stands behind it.
fn member_alone<'a>(
    alloc: Global,
    member: &Token,
    rest: &'a [Token],
) -> Result<(AtomUse, &'a [Token]), Stop<'a>>
    ensures { Gives (λ a. a) result (Yes (member_alone (name_at (tok_of member.now))) (toks rest.now)) }
{
    let member = name_of(alloc, member)?;
    let owner = None;
    Ok((AtomUse { owner, member }, rest))
}

/// A member of its owner, and what stands behind it.
fn member_of<'a>(
    alloc: Global,
    owner: &Token,
    member: &Token,
    rest: &'a [Token],
) -> Result<(AtomUse, &'a [Token]), Stop<'a>>
    ensures { Gives (λ a. a) result (Yes (member_of (name_at (tok_of owner.now)) (name_at (tok_of member.now))) (toks rest.now)) }
{
    let owner = Some(name_of(alloc, owner)?);
    let member = name_of(alloc, member)?;
    Ok((AtomUse { owner, member }, rest))
}

/// A dot and a member behind its owner.
fn owned<'a>(
    alloc: Global,
    tokens: &'a [Token],
    owner: &Token,
) -> Result<(AtomUse, &'a [Token]), Stop<'a>>
    ensures { Gives (λ a. a) result (owned (name_at (tok_of owner.now)) (toks tokens.now)) }
{
    let (_, rest) = mark(tokens, Sort::SymDot)?;
    let (member, rest) = name_token(rest)?;
    member_of(alloc, owner, member, rest)
}

/// What stands between the commas of a set: a member, or an owner and its member.
struct AtomEntry;

impl Entry for AtomEntry {
    type Value = AtomUse;

    ghost reads = { λ _. atom };

    #[tactic(auto, unfolding(crate::specs::Parsing::atom))]
    fn read<'a>(
        &self,
        alloc: Global,
        tokens: &'a [Token],
    ) -> Result<(AtomUse, &'a [Token]), Stop<'a>> {
        let (name, rest) = name_token(tokens)?;
        if begins(rest, &[Sort::SymDot]) {
            return owned(alloc, rest, name);
        }
        member_alone(alloc, name, rest)
    }
}

/// A set in braces.
#[tactic(auto, unfolding(crate::specs::Parsing::set))]
pub fn set<'a>(
    alloc: Global,
    tokens: &'a [Token],
    turns: usize,
) -> Result<(SetUse, &'a [Token]), Stop<'a>>
    ensures { Gives (λ l. l) result (set turns (toks tokens.now)) }
{
    between(alloc, tokens, turns, BRACES, &AtomEntry)
}

/// What stands between the commas of a declared type's members.
#[derive(Drop)]
struct MemberSetEntry {
    turns: usize,
}

impl Entry for MemberSetEntry {
    type Value = MemberSet;

    ghost reads = { λ e. member_set e.turns };

    #[tactic(auto, unfolding(crate::specs::Parsing::member_set))]
    fn read<'a>(
        &self,
        alloc: Global,
        tokens: &'a [Token],
    ) -> Result<(MemberSet, &'a [Token]), Stop<'a>> {
        let (name, rest) = name_token(tokens)?;
        let (_, rest) = mark(rest, Sort::SymEqual)?;
        let (effect, rest) = set(alloc, rest, self.turns)?;
        let name = name_of(alloc, name)?;
        Ok((MemberSet { name, effect }, rest))
    }
}

/// A declared type; in a plain module its name alone.
#[tactic(auto, unfolding(crate::specs::Parsing::object))]
pub fn object<'a>(
    alloc: Global,
    tokens: &'a [Token],
    plain: bool,
    turns: usize,
) -> Result<(Box<TypeUse>, &'a [Token]), Stop<'a>>
    ensures { Gives (λ t. t.value) result (object plain turns (toks tokens.now)) }
{
    let (name, rest) = name_token(tokens)?;
    object_rest(alloc, rest, name, plain, turns)
}

/// A declared type by its name alone, and what stands behind it.
fn bare<'a>(
    alloc: Global,
    name: &Token,
    rest: &'a [Token],
) -> Result<(Box<TypeUse>, &'a [Token]), Stop<'a>>
    ensures { Gives (λ t. t.value) result (Yes (types.Bare (name_at (tok_of name.now))) (toks rest.now)) }
{
    let name = name_of(alloc, name)?;
    boxed(alloc, TypeUse::Bare(name), rest)
}

/// A declared type with its members' sets, and what stands behind it.
fn with<'a>(
    alloc: Global,
    name: &Token,
    sets: Items<MemberSet>,
    rest: &'a [Token],
) -> Result<(Box<TypeUse>, &'a [Token]), Stop<'a>>
    ensures { Gives (λ t. t.value) result (Yes (types.With (name_at (tok_of name.now)) sets) (toks rest.now)) }
{
    let name = name_of(alloc, name)?;
    boxed(alloc, TypeUse::With(name, sets), rest)
}

/// A declared type with one set, and what stands behind it.
fn at<'a>(
    alloc: Global,
    name: &Token,
    effect: SetUse,
    rest: &'a [Token],
) -> Result<(Box<TypeUse>, &'a [Token]), Stop<'a>>
    ensures { Gives (λ t. t.value) result (Yes (types.At (name_at (tok_of name.now)) effect) (toks rest.now)) }
{
    let name = name_of(alloc, name)?;
    boxed(alloc, TypeUse::At(name, effect), rest)
}

/// A declared type's members in brackets, each with its set.
fn with_sets<'a>(
    alloc: Global,
    tokens: &'a [Token],
    name: &Token,
    turns: usize,
) -> Result<(Box<TypeUse>, &'a [Token]), Stop<'a>>
    ensures { Gives (λ t. t.value) result (with_sets (name_at (tok_of name.now)) turns (toks tokens.now)) }
{
    let (_, rest) = mark(tokens, Sort::SymOpenBracket)?;
    let (sets, rest) = separated(alloc, rest, turns, &MemberSetEntry { turns })?;
    let (_, rest) = mark(rest, Sort::SymCloseBracket)?;
    with(alloc, name, sets, rest)
}

/// A declared type's one set.
fn at_set<'a>(
    alloc: Global,
    tokens: &'a [Token],
    name: &Token,
    turns: usize,
) -> Result<(Box<TypeUse>, &'a [Token]), Stop<'a>>
    ensures { Gives (λ t. t.value) result (at_set (name_at (tok_of name.now)) turns (toks tokens.now)) }
{
    let (_, rest) = mark(tokens, Sort::KwAt)?;
    let (effect, rest) = set(alloc, rest, turns)?;
    at(alloc, name, effect, rest)
}

/// What stands behind a declared type's name.
#[tactic(auto, unfolding(crate::specs::Parsing::object_rest))]
fn object_rest<'a>(
    alloc: Global,
    tokens: &'a [Token],
    name: &Token,
    plain: bool,
    turns: usize,
) -> Result<(Box<TypeUse>, &'a [Token]), Stop<'a>>
    ensures { Gives (λ t. t.value) result (object_rest plain (name_at (tok_of name.now)) turns (toks tokens.now)) }
{
    if plain {
        return bare(alloc, name, tokens);
    }
    if begins(tokens, &[Sort::SymOpenBracket]) {
        return with_sets(alloc, tokens, name, turns);
    }
    if begins(tokens, &[Sort::KwAt]) {
        return at_set(alloc, tokens, name, turns);
    }
    bare(alloc, name, tokens)
}

/// A base type or a declared one.
#[tactic(auto, unfolding(crate::specs::Parsing::type_use))]
pub fn type_use<'a>(
    alloc: Global,
    tokens: &'a [Token],
    plain: bool,
    turns: usize,
) -> Result<(Box<TypeUse>, &'a [Token]), Stop<'a>>
    ensures { Gives (λ t. t.value) result (type_use plain turns (toks tokens.now)) }
{
    if begins(tokens, &[Sort::KwInt]) {
        let (place, rest) = mark(tokens, Sort::KwInt)?;
        return boxed(alloc, TypeUse::Int(place), rest);
    }
    if begins(tokens, &[Sort::KwBool]) {
        let (place, rest) = mark(tokens, Sort::KwBool)?;
        return boxed(alloc, TypeUse::Bool(place), rest);
    }
    if begins(tokens, &[Sort::KwString]) {
        let (place, rest) = mark(tokens, Sort::KwString)?;
        return boxed(alloc, TypeUse::Text(place), rest);
    }
    if begins(tokens, &[Sort::KwUnit]) {
        let (place, rest) = mark(tokens, Sort::KwUnit)?;
        return boxed(alloc, TypeUse::Unit(place), rest);
    }
    object(alloc, tokens, plain, turns)
}

/// A parameter with its type, and what stands behind it.
fn param_node<'a>(
    alloc: Global,
    name: &Token,
    type_use: Box<TypeUse>,
    rest: &'a [Token],
) -> Result<(Param, &'a [Token]), Stop<'a>>
    ensures { Gives (λ p. p) result (Yes (param_of (name_at (tok_of name.now)) type_use.value) (toks rest.now)) }
{
    let name = name_of(alloc, name)?;
    let type_use = Box::into_inner(type_use);
    Ok((Param { name, type_use }, rest))
}

/// The type of a method's parameter, or of a module's, which is a declared one.
fn param_type<'a>(
    alloc: Global,
    tokens: &'a [Token],
    declared: bool,
    plain: bool,
    turns: usize,
) -> Result<(Box<TypeUse>, &'a [Token]), Stop<'a>>
    ensures { Gives (λ t. t.value) result (param_type declared plain turns (toks tokens.now)) }
{
    if declared {
        object(alloc, tokens, plain, turns)
    } else {
        type_use(alloc, tokens, plain, turns)
    }
}

/// What stands between the commas of a method's parameters, or of a module's, whose types are declared ones.
#[derive(Drop)]
pub struct ParamEntry {
    pub declared: bool,
    pub plain: bool,
    pub turns: usize,
}

impl Entry for ParamEntry {
    type Value = Param;

    ghost reads = { λ e. param e.declared e.plain e.turns };

    #[tactic(auto, unfolding(crate::specs::Parsing::param))]
    fn read<'a>(
        &self,
        alloc: Global,
        tokens: &'a [Token],
    ) -> Result<(Param, &'a [Token]), Stop<'a>> {
        let (name, rest) = name_token(tokens)?;
        let (_, rest) = mark(rest, Sort::SymColon)?;
        let (type_use, rest) = param_type(alloc, rest, self.declared, self.plain, self.turns)?;
        param_node(alloc, name, type_use, rest)
    }
}

/// A method's effect, which is written exactly outside plain modules.
#[tactic(auto, unfolding(crate::specs::Parsing::effect))]
fn effect<'a>(
    alloc: Global,
    tokens: &'a [Token],
    plain: bool,
    turns: usize,
) -> Result<(Option<SetUse>, &'a [Token]), Stop<'a>>
    ensures { Gives (λ e. e) result (effect plain turns (toks tokens.now)) }
{
    if plain {
        return Ok((None, tokens));
    }
    let (effect, rest) = set(alloc, tokens, turns)?;
    Ok((Some(effect), rest))
}

/// A signature of these parts, and what stands behind it.
fn signature_node<'a>(
    alloc: Global,
    place: Place,
    name: &Token,
    params: ParamList,
    effect: Option<SetUse>,
    result_type: Box<TypeUse>,
    rest: &'a [Token],
) -> Result<(Box<Signature>, &'a [Token]), Stop<'a>>
    ensures { Gives (λ s. s.value) result (Yes (signature_of place (name_at (tok_of name.now)) params effect result_type.value) (toks rest.now)) }
{
    let signature = Signature {
        place,
        name: name_of(alloc, name)?,
        params,
        effect,
        result: Box::into_inner(result_type),
    };
    boxed(alloc, signature, rest)
}

/// What stands in a signature behind its parameters.
fn signature_end<'a>(
    alloc: Global,
    tokens: &'a [Token],
    place: Place,
    name: &Token,
    params: ParamList,
    plain: bool,
    turns: usize,
) -> Result<(Box<Signature>, &'a [Token]), Stop<'a>>
    ensures { Gives (λ s. s.value) result (behind_method_params plain place (name_at (tok_of name.now)) params turns (toks tokens.now)) }
{
    let (_, rest) = mark(tokens, Sort::SymCloseParen)?;
    let (_, rest) = mark(rest, Sort::SymColon)?;
    let (effect, rest) = effect(alloc, rest, plain, turns)?;
    let (result, rest) = type_use(alloc, rest, plain, turns)?;
    signature_node(alloc, place, name, params, effect, result, rest)
}

/// What stands before a method's body.
#[tactic(auto, unfolding(crate::specs::Parsing::signature))]
pub fn signature<'a>(
    alloc: Global,
    tokens: &'a [Token],
    plain: bool,
    turns: usize,
) -> Result<(Box<Signature>, &'a [Token]), Stop<'a>>
    ensures { Gives (λ s. s.value) result (signature plain turns (toks tokens.now)) }
{
    let (place, rest) = mark(tokens, Sort::KwDef)?;
    let (name, rest) = name_token(rest)?;
    let (_, rest) = mark(rest, Sort::SymOpenParen)?;
    let entry = ParamEntry {
        declared: false,
        plain,
        turns,
    };
    let (params, rest) = named(alloc, rest, turns, &entry)?;
    signature_end(alloc, rest, place, name, params, plain, turns)
}
