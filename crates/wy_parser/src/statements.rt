//! Right sides, statements, parts and bodies by recursive descent. `inner` is the depth that is left
//! inside, and bounds the turns of each loop; it is one less at each right side behind an equals sign
//! and at each block.
ghost use Rattle.std.specs.Prelude.{◌≡◌, ◌||◌, None, Some, map};
ghost use Rattle.wy_syntax.specs.Tokens.{code, tok_of, toks};
ghost use Rattle.wy_syntax.specs.Trees.{assign, field, val};
ghost use Rattle.wy_syntax.specs.Views.{expr_tree, part_tree, rhs_tree, stmt_tree, tail_tree, part_trees, stmt_trees};
ghost use Rattle.wy_syntax.specs.StmtGrammar.{is_val};
ghost use Rattle.wy_parser.specs.Reading.{Yes, blocks, starts};
ghost use Rattle.wy_parser.specs.Parsing.{each, name_at};
ghost use Rattle.wy_parser.specs.ExprParsing.{p_expr, p_arg};
ghost use Rattle.wy_parser.specs.StmtParsing.{stmt_first, typed_val, untyped_val, part_first, parts_inside, literal_of, indented_block, branch_rest, if_of, expr_line, rhs_at, untyped_at, val_of, assign_of, stmt_at, block_of, tail_at, field_of, part_at, p_rhs, p_block};
ghost use Rattle.wy_parser.specs.Sorts.{number_of, Gives};

use crate::cursor::{begins, begins_two, boxed, mark, name_of, name_token};
use crate::expressions::{ARG_FIRST, choice_rest, expr};
use crate::sort::Sort;
use crate::stop::Stop;
use crate::types::{signature, type_use};
use std::alloc::Global;
use wy_syntax::expressions::Expr;
use wy_syntax::statements::{FieldKind, Part, Rhs, Stmt, Tail};
use wy_syntax::types::TypeUse;
use wy_text::fault::Place;
use wy_text::token::Token;

const PART_FIRST: [Sort; 3] = [Sort::KwDef, Sort::KwVal, Sort::KwVar];

/// Whether a statement is a `val`, which is no block's last one.
fn is_val(stmt: &Stmt) -> bool
    ensures { result ≡ is_val (stmt_tree stmt.now) }
{
    match stmt {
        Stmt::Val(_, _, _) => true,
        _ => false,
    }
}

/// Whether a statement is not a block's last one: a `val`, or one that another statement follows.
#[tactic(auto, using(crate::proofs::Rows::statement_starts))]
fn must_go_on(stmt: &Stmt, after: &[Token]) -> bool
    ensures { result ≡ (is_val (stmt_tree stmt.now) || starts code stmt_first (toks after.now)) }
{
    is_val(stmt) || begins(after, &[Sort::KwVal, Sort::KwNew]) || begins(after, &ARG_FIRST)
}

/// A right side in a box, and what stands behind it.
fn side_node<'a>(
    alloc: Global,
    side: Rhs,
    rest: &'a [Token],
) -> Result<(Box<Rhs>, &'a [Token]), Stop<'a>>
    ensures { Gives (λ b. rhs_tree b.value) result (Yes (rhs_tree side) (toks rest.now)) }
{
    boxed(alloc, side, rest)
}

/// A statement in a box, and what stands behind it.
fn stmt_node<'a>(
    alloc: Global,
    stmt: Stmt,
    rest: &'a [Token],
) -> Result<(Box<Stmt>, &'a [Token]), Stop<'a>>
    ensures { Gives (λ b. stmt_tree b.value) result (Yes (stmt_tree stmt) (toks rest.now)) }
{
    boxed(alloc, stmt, rest)
}

/// A part in a box, and what stands behind it.
fn part_node<'a>(
    alloc: Global,
    part: Part,
    rest: &'a [Token],
) -> Result<(Box<Part>, &'a [Token]), Stop<'a>>
    ensures { Gives (λ b. part_tree b.value) result (Yes (part_tree part) (toks rest.now)) }
{
    boxed(alloc, part, rest)
}

/// A body in a box, and what stands behind it.
fn tail_node<'a>(
    alloc: Global,
    tail: Tail,
    rest: &'a [Token],
) -> Result<(Box<Tail>, &'a [Token]), Stop<'a>>
    ensures { Gives (λ b. tail_tree b.value) result (Yes (tail_tree tail) (toks rest.now)) }
{
    boxed(alloc, tail, rest)
}

/// A `val` with its type, and what stands behind it.
fn typed_node<'a>(
    alloc: Global,
    name: &Token,
    type_use: Box<TypeUse>,
    side: Box<Rhs>,
    rest: &'a [Token],
) -> Result<(Box<Stmt>, &'a [Token]), Stop<'a>>
    ensures { Gives (λ b. stmt_tree b.value) result (Yes (val (name_at (tok_of name.now)) (Some type_use.value) (rhs_tree side.value)) (toks rest.now)) }
{
    let name = name_of(alloc, name)?;
    let type_use = Some(Box::into_inner(type_use));
    stmt_node(
        alloc,
        Stmt::Val(name, type_use, Box::into_inner(side)),
        rest,
    )
}

/// A `val` without a type, and what stands behind it.
fn untyped_node<'a>(
    alloc: Global,
    name: &Token,
    side: Box<Rhs>,
    rest: &'a [Token],
) -> Result<(Box<Stmt>, &'a [Token]), Stop<'a>>
    ensures { Gives (λ b. stmt_tree b.value) result (Yes (val (name_at (tok_of name.now)) None (rhs_tree side.value)) (toks rest.now)) }
{
    let name = name_of(alloc, name)?;
    stmt_node(alloc, Stmt::Val(name, None, Box::into_inner(side)), rest)
}

/// An assignment, and what stands behind it.
fn assign_node<'a>(
    alloc: Global,
    name: &Token,
    side: Box<Rhs>,
    rest: &'a [Token],
) -> Result<(Box<Stmt>, &'a [Token]), Stop<'a>>
    ensures { Gives (λ b. stmt_tree b.value) result (Yes (assign (name_at (tok_of name.now)) (rhs_tree side.value)) (toks rest.now)) }
{
    let name = name_of(alloc, name)?;
    stmt_node(alloc, Stmt::Assign(name, Box::into_inner(side)), rest)
}

/// A field, and what stands behind it.
fn field_node<'a>(
    alloc: Global,
    kind: FieldKind,
    name: &Token,
    type_use: Box<TypeUse>,
    side: Box<Rhs>,
    rest: &'a [Token],
) -> Result<(Box<Part>, &'a [Token]), Stop<'a>>
    ensures { Gives (λ b. part_tree b.value) result (Yes (field kind (name_at (tok_of name.now)) type_use.value (rhs_tree side.value)) (toks rest.now)) }
{
    let name = name_of(alloc, name)?;
    let type_use = Box::into_inner(type_use);
    let side = Box::into_inner(side);
    part_node(alloc, Part::Field(kind, name, type_use, side), rest)
}

/// An expression and its line's end.
#[tactic(auto, unfolding(crate::specs::StmtParsing::expr_line))]
fn expr_line<'a>(
    alloc: Global,
    tokens: &'a [Token],
    plain: bool,
    inner: usize,
) -> Result<(Box<Rhs>, &'a [Token]), Stop<'a>>
    ensures { Gives (λ b. rhs_tree b.value) result (expr_line (p_expr plain inner) (toks tokens.now)) }
{
    let (e, rest) = expr(alloc, tokens, plain, inner)?;
    let (_, rest) = mark(rest, Sort::Nl)?;
    side_node(alloc, Rhs::Value(Box::into_inner(e)), rest)
}

/// A right side behind an equals sign.
#[cycle(statements)]
#[tactic(auto, using(crate::proofs::Depths::rhs_rules))]
fn right_side<'a>(
    alloc: Global,
    tokens: &'a [Token],
    plain: bool,
    depth: usize,
) -> Result<(Box<Rhs>, &'a [Token]), Stop<'a>>
    ensures { Gives (λ b. rhs_tree b.value) result (p_rhs plain depth (toks tokens.now)) }
{
    if depth == 0 {
        return Err(Stop::Deep);
    }
    right_side_in(alloc, tokens, plain, depth - 1)
}

/// A literal, an `if`, or an expression.
#[cycle(statements)]
#[tactic(auto, unfolding(crate::specs::StmtParsing::rhs))]
fn right_side_in<'a>(
    alloc: Global,
    tokens: &'a [Token],
    plain: bool,
    inner: usize,
) -> Result<(Box<Rhs>, &'a [Token]), Stop<'a>>
    ensures { Gives (λ b. rhs_tree b.value) result (rhs_at plain inner (toks tokens.now)) }
{
    if begins(tokens, &[Sort::KwNew]) {
        return literal(alloc, tokens, plain, inner);
    }
    if begins(tokens, &[Sort::KwIf]) {
        return either(alloc, tokens, plain, inner);
    }
    expr_line(alloc, tokens, plain, inner)
}

/// A literal or an expression, where no type is written.
#[cycle(statements)]
#[tactic(auto, unfolding(crate::specs::StmtParsing::untyped_rhs))]
fn untyped_side<'a>(
    alloc: Global,
    tokens: &'a [Token],
    plain: bool,
    inner: usize,
) -> Result<(Box<Rhs>, &'a [Token]), Stop<'a>>
    ensures { Gives (λ b. rhs_tree b.value) result (untyped_at plain inner (toks tokens.now)) }
{
    if begins(tokens, &[Sort::KwNew]) {
        return literal(alloc, tokens, plain, inner);
    }
    expr_line(alloc, tokens, plain, inner)
}

/// An `if`, with expressions or with blocks on its sides.
#[cycle(statements)]
#[tactic(auto, unfolding(crate::specs::StmtParsing::if_of))]
fn either<'a>(
    alloc: Global,
    tokens: &'a [Token],
    plain: bool,
    inner: usize,
) -> Result<(Box<Rhs>, &'a [Token]), Stop<'a>>
    ensures { Gives (λ b. rhs_tree b.value) result (if_of (p_expr plain inner) (p_arg plain inner) (p_block plain inner) (toks tokens.now)) }
{
    let (place, rest) = mark(tokens, Sort::KwIf)?;
    let (condition, rest) = expr(alloc, rest, plain, inner)?;
    if begins(rest, &[Sort::KwThen]) {
        let (e, rest) = choice_rest(alloc, rest, place, condition, plain, inner)?;
        let (_, rest) = mark(rest, Sort::Nl)?;
        side_node(alloc, Rhs::Value(Box::into_inner(e)), rest)
    } else {
        branch_rest(alloc, rest, place, condition, plain, inner)
    }
}

/// The blocks behind the condition of an `if`.
#[cycle(statements)]
#[tactic(auto, unfolding(crate::specs::StmtParsing::branch_rest))]
fn branch_rest<'a>(
    alloc: Global,
    tokens: &'a [Token],
    place: Place,
    condition: Box<Expr>,
    plain: bool,
    inner: usize,
) -> Result<(Box<Rhs>, &'a [Token]), Stop<'a>>
    ensures { Gives (λ b. rhs_tree b.value) result (branch_rest (p_block plain inner) place (expr_tree condition.value) (toks tokens.now)) }
{
    let (_, rest) = mark(tokens, Sort::Nl)?;
    let (first, rest) = indented_block(alloc, rest, plain, inner)?;
    let (_, rest) = mark(rest, Sort::KwElse)?;
    let (_, rest) = mark(rest, Sort::Nl)?;
    let (second, rest) = indented_block(alloc, rest, plain, inner)?;
    let condition = Box::into_inner(condition);
    side_node(alloc, Rhs::Branch(place, condition, first, second), rest)
}

/// A block in lines of its own.
#[cycle(statements)]
#[tactic(auto, unfolding(crate::specs::StmtParsing::indented_block))]
fn indented_block<'a>(
    alloc: Global,
    tokens: &'a [Token],
    plain: bool,
    inner: usize,
) -> Result<(Vec<Stmt>, &'a [Token]), Stop<'a>>
    ensures { Gives (λ v. stmt_trees v.items) result (indented_block (p_block plain inner) (toks tokens.now)) }
{
    let (_, rest) = mark(tokens, Sort::In)?;
    let (stmts, rest) = block(alloc, rest, plain, inner)?;
    let (_, rest) = mark(rest, Sort::Out)?;
    Ok((stmts, rest))
}

/// A block.
#[cycle(statements)]
#[tactic(auto, using(crate::proofs::Depths::block_rules))]
fn block<'a>(
    alloc: Global,
    tokens: &'a [Token],
    plain: bool,
    depth: usize,
) -> Result<(Vec<Stmt>, &'a [Token]), Stop<'a>>
    ensures { Gives (λ v. stmt_trees v.items) result (p_block plain depth (toks tokens.now)) }
{
    if depth == 0 {
        return Err(Stop::Deep);
    }
    block_in(alloc, tokens, plain, depth - 1)
}

/// A block whose statements have this depth.
#[cycle(statements)]
#[tactic(auto, unfolding(crate::specs::StmtParsing::block_of))]
fn block_in<'a>(
    alloc: Global,
    tokens: &'a [Token],
    plain: bool,
    inner: usize,
) -> Result<(Vec<Stmt>, &'a [Token]), Stop<'a>>
    ensures { Gives (λ v. stmt_trees v.items) result (block_of (stmt_at plain inner) inner (toks tokens.now)) }
{
    let (stmts, rest) = stmts(alloc, tokens, plain, inner)?;
    Ok((stmts, rest))
}

/// Statements, the last of which is no `val`.
#[cycle(statements)]
fn stmts<'a>(
    alloc: Global,
    tokens: &'a [Token],
    plain: bool,
    inner: usize,
) -> Result<(Vec<Stmt>, &'a [Token]), Stop<'a>>
    ensures { Gives (λ v. map stmt_tree v.items) result (blocks code inner stmt_first is_val (stmt_at plain inner) (toks tokens.now)) }
{
    let mut items = Vec::new(alloc);
    let mut rest = tokens;
    for _ in 0..inner {
        let (item, after) = stmt(alloc, rest, plain, inner)?;
        let goes_on = must_go_on(&item, after);
        items.push(Box::into_inner(item))?;
        rest = after;
        if !goes_on {
            return Ok((items, rest));
        }
    }
    Err(Stop::Deep)
}

/// A statement.
#[cycle(statements)]
#[tactic(auto, unfolding(crate::specs::StmtParsing::stmt))]
fn stmt<'a>(
    alloc: Global,
    tokens: &'a [Token],
    plain: bool,
    inner: usize,
) -> Result<(Box<Stmt>, &'a [Token]), Stop<'a>>
    ensures { Gives (λ b. stmt_tree b.value) result (stmt_at plain inner (toks tokens.now)) }
{
    if begins(tokens, &[Sort::KwVal]) {
        return val(alloc, tokens, plain, inner);
    }
    if begins_two(tokens, &[Sort::Name], &[Sort::SymEqual]) {
        return assign(alloc, tokens, plain, inner);
    }
    let (value, rest) = right_side_in(alloc, tokens, plain, inner)?;
    stmt_node(alloc, Stmt::Run(Box::into_inner(value)), rest)
}

/// The type and the right side of a `val`.
#[cycle(statements)]
#[tactic(auto, unfolding(crate::specs::StmtParsing::typed_val))]
fn typed_val<'a>(
    alloc: Global,
    tokens: &'a [Token],
    name: &Token,
    plain: bool,
    inner: usize,
) -> Result<(Box<Stmt>, &'a [Token]), Stop<'a>>
    ensures { Gives (λ b. stmt_tree b.value) result (typed_val plain (p_rhs plain inner) (name_at (tok_of name.now)) inner (toks tokens.now)) }
{
    let (_, rest) = mark(tokens, Sort::SymColon)?;
    let (type_use, rest) = type_use(alloc, rest, plain, inner)?;
    let (_, rest) = mark(rest, Sort::SymEqual)?;
    let (value, rest) = right_side(alloc, rest, plain, inner)?;
    typed_node(alloc, name, type_use, value, rest)
}

/// The right side of a `val` without a type.
#[cycle(statements)]
#[tactic(auto, unfolding(crate::specs::StmtParsing::untyped_val))]
fn untyped_val<'a>(
    alloc: Global,
    tokens: &'a [Token],
    name: &Token,
    plain: bool,
    inner: usize,
) -> Result<(Box<Stmt>, &'a [Token]), Stop<'a>>
    ensures { Gives (λ b. stmt_tree b.value) result (untyped_val (untyped_at plain inner) (name_at (tok_of name.now)) (toks tokens.now)) }
{
    let (_, rest) = mark(tokens, Sort::SymEqual)?;
    let (value, rest) = untyped_side(alloc, rest, plain, inner)?;
    untyped_node(alloc, name, value, rest)
}

/// A `val` with a type or without one.
#[cycle(statements)]
#[tactic(auto, unfolding(crate::specs::StmtParsing::val_of))]
fn val<'a>(
    alloc: Global,
    tokens: &'a [Token],
    plain: bool,
    inner: usize,
) -> Result<(Box<Stmt>, &'a [Token]), Stop<'a>>
    ensures { Gives (λ b. stmt_tree b.value) result (val_of plain (p_rhs plain inner) (untyped_at plain inner) inner (toks tokens.now)) }
{
    let (_, rest) = mark(tokens, Sort::KwVal)?;
    let (name, rest) = name_token(rest)?;
    if begins(rest, &[Sort::SymColon]) {
        typed_val(alloc, rest, name, plain, inner)
    } else {
        untyped_val(alloc, rest, name, plain, inner)
    }
}

/// An assignment.
#[cycle(statements)]
#[tactic(auto, unfolding(crate::specs::StmtParsing::assign_of))]
fn assign<'a>(
    alloc: Global,
    tokens: &'a [Token],
    plain: bool,
    inner: usize,
) -> Result<(Box<Stmt>, &'a [Token]), Stop<'a>>
    ensures { Gives (λ b. stmt_tree b.value) result (assign_of (p_rhs plain inner) (toks tokens.now)) }
{
    let (name, rest) = name_token(tokens)?;
    let (_, rest) = mark(rest, Sort::SymEqual)?;
    let (value, rest) = right_side(alloc, rest, plain, inner)?;
    assign_node(alloc, name, value, rest)
}

/// `new` with its fields and methods.
#[cycle(statements)]
#[tactic(auto, unfolding(crate::specs::StmtParsing::literal_of))]
fn literal<'a>(
    alloc: Global,
    tokens: &'a [Token],
    plain: bool,
    inner: usize,
) -> Result<(Box<Rhs>, &'a [Token]), Stop<'a>>
    ensures { Gives (λ b. rhs_tree b.value) result (literal_of (part_at plain inner) inner (toks tokens.now)) }
{
    let (place, rest) = mark(tokens, Sort::KwNew)?;
    let (_, rest) = mark(rest, Sort::Nl)?;
    let (parts, rest) = parts_inside(alloc, rest, plain, inner)?;
    side_node(alloc, Rhs::New(place, parts), rest)
}

/// Indented parts, or none.
#[cycle(statements)]
#[tactic(auto, unfolding(crate::specs::StmtParsing::parts_inside))]
pub fn parts_inside<'a>(
    alloc: Global,
    tokens: &'a [Token],
    plain: bool,
    inner: usize,
) -> Result<(Vec<Part>, &'a [Token]), Stop<'a>>
    ensures { Gives (λ v. part_trees v.items) result (parts_inside (part_at plain inner) inner (toks tokens.now)) }
{
    if !begins(tokens, &[Sort::In]) {
        return Ok((Vec::new(alloc), tokens));
    }
    let (_, rest) = mark(tokens, Sort::In)?;
    let (parts, rest) = parts(alloc, rest, plain, inner)?;
    let (_, rest) = mark(rest, Sort::Out)?;
    Ok((parts, rest))
}

/// Any number of parts.
#[cycle(statements)]
pub fn parts<'a>(
    alloc: Global,
    tokens: &'a [Token],
    plain: bool,
    inner: usize,
) -> Result<(Vec<Part>, &'a [Token]), Stop<'a>>
    ensures { Gives (λ v. map part_tree v.items) result (each part_first (part_at plain inner) inner (toks tokens.now)) }
{
    let mut items = Vec::new(alloc);
    let mut rest = tokens;
    for _ in 0..inner {
        if !begins(rest, &PART_FIRST) {
            return Ok((items, rest));
        }
        let (item, after) = part(alloc, rest, plain, inner)?;
        items.push(Box::into_inner(item))?;
        rest = after;
    }
    Err(Stop::Deep)
}

/// A field or a method.
#[cycle(statements)]
#[tactic(auto, unfolding(crate::specs::StmtParsing::part, crate::specs::StmtParsing::method_of))]
fn part<'a>(
    alloc: Global,
    tokens: &'a [Token],
    plain: bool,
    inner: usize,
) -> Result<(Box<Part>, &'a [Token]), Stop<'a>>
    ensures { Gives (λ b. part_tree b.value) result (part_at plain inner (toks tokens.now)) }
{
    if begins(tokens, &[Sort::KwDef]) {
        let (signature, rest) = signature(alloc, tokens, plain, inner)?;
        let (body, rest) = tail(alloc, rest, plain, inner)?;
        let signature = Box::into_inner(signature);
        return part_node(alloc, Part::Method(signature, Box::into_inner(body)), rest);
    }
    if begins(tokens, &[Sort::KwVal]) {
        return field(alloc, tokens, Sort::KwVal, FieldKind::Val, plain, inner);
    }
    field(alloc, tokens, Sort::KwVar, FieldKind::Var, plain, inner)
}

/// A field that begins with the word.
#[cycle(statements)]
#[tactic(auto, unfolding(crate::specs::StmtParsing::field_of))]
fn field<'a>(
    alloc: Global,
    tokens: &'a [Token],
    sort: Sort,
    kind: FieldKind,
    plain: bool,
    inner: usize,
) -> Result<(Box<Part>, &'a [Token]), Stop<'a>>
    ensures { Gives (λ b. part_tree b.value) result (field_of plain (number_of sort) kind (p_rhs plain inner) inner (toks tokens.now)) }
{
    let (_, rest) = mark(tokens, sort)?;
    let (name, rest) = name_token(rest)?;
    let (_, rest) = mark(rest, Sort::SymColon)?;
    let (type_use, rest) = type_use(alloc, rest, plain, inner)?;
    let (_, rest) = mark(rest, Sort::SymEqual)?;
    let (value, rest) = right_side(alloc, rest, plain, inner)?;
    field_node(alloc, kind, name, type_use, value, rest)
}

/// A body: behind an equals sign, or a block of its own.
#[cycle(statements)]
#[tactic(auto, unfolding(crate::specs::StmtParsing::tail))]
pub fn tail<'a>(
    alloc: Global,
    tokens: &'a [Token],
    plain: bool,
    inner: usize,
) -> Result<(Box<Tail>, &'a [Token]), Stop<'a>>
    ensures { Gives (λ b. tail_tree b.value) result (tail_at plain inner (toks tokens.now)) }
{
    if begins(tokens, &[Sort::SymEqual]) {
        let (_, rest) = mark(tokens, Sort::SymEqual)?;
        let (value, rest) = right_side(alloc, rest, plain, inner)?;
        return tail_node(alloc, Tail::Short(Box::into_inner(value)), rest);
    }
    let (_, rest) = mark(tokens, Sort::Nl)?;
    let (stmts, rest) = indented_block(alloc, rest, plain, inner)?;
    tail_node(alloc, Tail::Long(stmts), rest)
}
