//! The variables that the methods of an object literal use of the bodies round it (docs/LANGUAGE.md, "Names").
//! The names that the methods write are collected in one walk, and each is looked up.

ghost use Rattle.std.specs.Prelude.{◌≡◌, ◌∷◌, [], ℕ, false, List, map, IfOk};
ghost use Rattle.std.specs.Ordering.{nat_cmp};
ghost use Rattle.std.specs.BTreeMap.{get};
ghost use Rattle.wy_syntax.specs.Trees.{PartTrees};
ghost use Rattle.wy_syntax.specs.Views.{expr_tree, expr_trees, rhs_tree, stmt_tree, stmt_trees, part_tree, part_trees, tail_tree};
ghost use Rattle.wy_bodies.specs.Sight.{written_of};
ghost use Rattle.wy_bodies.specs.InSight.{entries};
ghost use Rattle.wy_syntax.specs.Collected.{Adds};
ghost use Rattle.wy_bodies.specs.Written.{expr_names, exprs_names, rhs_names, stmt_names, stmts_names, part_names, parts_names, tail_names, methods_names, mark};
ghost use Rattle.wy_symbols.specs.Lent.{lent_text};

use crate::sight::Variables;
use std::alloc::Global;
use std::collections::BTreeMap;
use wy_symbols::Names;
use wy_syntax::expressions::Expr;
use wy_syntax::statements::{Part, Rhs, Stmt, Tail};
use wy_text::list::Items;
use wy_text::text::{Memory, Text};
use wy_types::code::Variable;

/// Adds the names that an expression writes.
#[cycle(expressions)]
fn add_expr<'a>(names: &mut Names<'a>, e: &'a Expr)
    ensures { Adds (expr_names (expr_tree e.now)) names.old names.new }
{
    match e {
        Expr::Number(_, _) | Expr::Text(_, _) | Expr::True(_) | Expr::False(_) => {}
        Expr::This(_) | Expr::Unit(_) => {}
        Expr::Name(name) => {
            names.add(&name.text);
        }
        Expr::Negate(e, _)
        | Expr::Not(e, _)
        | Expr::TextSize(e, _)
        | Expr::TextByte(e, _)
        | Expr::TextShow(e, _)
        | Expr::Ascribe(e, _, _) => add_expr(names, e),
        Expr::Binary(_, left, right, _) => {
            add_expr(names, left);
            add_expr(names, right)
        }
        Expr::Call(receiver, _, arguments) => {
            add_expr(names, receiver);
            add_exprs(names, arguments)
        }
        Expr::TextPart(e, from, to, _) => {
            add_expr(names, e);
            add_expr(names, from);
            add_expr(names, to)
        }
        Expr::TextCode(e, at, _) => {
            add_expr(names, e);
            add_expr(names, at)
        }
        Expr::Choice(test, first, second, _) => {
            add_expr(names, test);
            add_expr(names, first);
            add_expr(names, second)
        }
    }
}

/// Adds the names that a call's arguments write.
#[cycle(expressions)]
fn add_exprs<'a>(names: &mut Names<'a>, es: &'a [Expr])
    ensures { Adds (exprs_names (expr_trees es.now)) names.old names.new }
{
    for e in es {
        add_expr(names, e);
    }
}

/// Adds the names that a right side writes.
#[cycle(statements)]
fn add_rhs<'a>(names: &mut Names<'a>, rhs: &'a Rhs)
    ensures { Adds (rhs_names (rhs_tree rhs.now)) names.old names.new }
{
    match rhs {
        Rhs::New(_, parts) => add_parts(names, parts),
        Rhs::Branch(_, test, first, second) => {
            add_expr(names, test);
            add_stmts(names, first);
            add_stmts(names, second)
        }
        Rhs::Value(e) => add_expr(names, e),
    }
}

/// Adds the names that a statement writes.
#[cycle(statements)]
fn add_stmt<'a>(names: &mut Names<'a>, stmt: &'a Stmt)
    ensures { Adds (stmt_names (stmt_tree stmt.now)) names.old names.new }
{
    match stmt {
        Stmt::Val(_, _, rhs) => add_rhs(names, rhs),
        Stmt::Assign(name, rhs) => {
            names.add(&name.text);
            add_rhs(names, rhs)
        }
        Stmt::Run(rhs) => add_rhs(names, rhs),
    }
}

/// Adds the names that statements write.
#[cycle(statements)]
fn add_stmts<'a>(names: &mut Names<'a>, stmts: &'a [Stmt])
    ensures { Adds (stmts_names (stmt_trees stmts.now)) names.old names.new }
{
    for stmt in stmts {
        add_stmt(names, stmt);
    }
}

/// Adds the names that a field's initialiser or a method writes.
#[cycle(statements)]
fn add_part<'a>(names: &mut Names<'a>, part: &'a Part)
    ensures { Adds (part_names (part_tree part.now)) names.old names.new }
{
    match part {
        Part::Field(_, _, _, rhs) => add_rhs(names, rhs),
        Part::Method(_, body) => add_tail(names, body),
    }
}

/// Adds the names that fields' initialisers and methods write.
#[cycle(statements)]
fn add_parts<'a>(names: &mut Names<'a>, parts: &'a [Part])
    ensures { Adds (parts_names (part_trees parts.now)) names.old names.new }
{
    for part in parts {
        add_part(names, part);
    }
}

/// Adds the names that a body writes.
#[cycle(statements)]
fn add_tail<'a>(names: &mut Names<'a>, body: &'a Tail)
    ensures { Adds (tail_names (tail_tree body.now)) names.old names.new }
{
    match body {
        Tail::Short(rhs) => add_rhs(names, rhs),
        Tail::Long(stmts) => add_stmts(names, stmts),
    }
}

/// Adds the names that methods write.
fn add_methods<'a>(names: &mut Names<'a>, parts: &'a [Part])
    ensures { Adds (methods_names (part_trees parts.now)) names.old names.new }
{
    for part in parts {
        match part {
            Part::Field(_, _, _, _) => {}
            Part::Method(_, body) => add_tail(names, body),
        }
    }
}

/// The names that methods write.
fn methods_names<'a>(alloc: Global, parts: &'a [Part]) -> Result<Vec<&'a Text>, Memory>
    ensures { IfOk result (λ ns. map lent_text ns.items ≡ methods_names (part_trees parts.now)) }
{
    let mut names = Names::new(alloc);
    add_methods(&mut names, parts);
    names.all()
}

/// The variables that these names stand for, by their numbers among those in sight.
fn marked(
    alloc: Global,
    variables: &Variables,
    names: &[&Text],
) -> Result<BTreeMap<usize, Variable>, Memory>
    ensures { IfOk result (λ m. (k : ℕ) → get nat_cmp m k ≡ mark variables.now (map lent_text names.now) k) }
{
    let mut marks = BTreeMap::new(alloc);
    for name in names {
        match variables.latest(name) {
            Some(latest) => {
                marks.insert(latest.number, latest.variable)?;
            }
            None => {}
        }
    }
    Ok(marks)
}

/// The variables that these names stand for, each once, in the order in which they came into sight.
fn captured(
    alloc: Global,
    variables: &Variables,
    names: &[&Text],
) -> Result<Items<Variable>, Memory>
    ensures { IfOk result (λ vs. (parts : PartTrees) → map lent_text names.now ≡ methods_names parts → vs ≡ written_of (entries variables.now) parts) }
{
    let marks = marked(alloc, variables, names)?;
    let mut captures = Items::new(alloc);
    for variable in marks.values() {
        captures.push(*variable)?;
    }
    Ok(captures)
}

/// The variables in sight that the methods write, each once, in the order in which they came into sight.
pub fn captures(
    alloc: Global,
    variables: &Variables,
    parts: &[Part],
) -> Result<Items<Variable>, Memory>
    ensures { IfOk result (λ vs. vs ≡ written_of (entries variables.now) (part_trees parts.now)) }
{
    let names = methods_names(alloc, parts)?;
    captured(alloc, variables, &names)
}
