//! How many expression nodes of a tree stand before a place (docs/LANGUAGE.md, "Marks"). No call here takes
//! memory.
ghost use Rattle.std.specs.Prelude.{◌≡◌, ◌<◌, ◌≤◌, ◌^◌, map, true};
ghost use Rattle.wy_syntax.specs.Views.{expr_tree, expr_trees, file_tree, item_tree, part_tree, part_trees, rhs_tree, stmt_tree, stmt_trees, tail_tree};
ghost use Rattle.wy_syntax.specs.Nodes.{all_nodes, block_nodes, count_before, expr_nodes, exprs_nodes, file_nodes, item_nodes, one_if, part_nodes, parts_nodes, rhs_nodes, stmt_nodes, tail_nodes};
ghost use Rattle.wy_syntax.specs.Before.{is_before};

use wy_syntax::expressions::Expr;
use wy_syntax::items::{Item, Tree};
use wy_syntax::statements::{Part, Rhs, Stmt, Tail};
use wy_text::fault::Place;

/// One for a node whose mark stands before the place.
fn node_before(mark: Place, place: Place) -> u64
    ensures count { result ≡ one_if (is_before mark place) }
    ensures within { result ≤ 1 }
{
    if mark < place { 1 } else { 0 }
}

/// The nodes of an expression.
#[cycle(expressions)]
fn expr_nodes(e: &Expr, place: Place) -> u64
    requires { expr_nodes (λ p. true) (expr_tree e.now) < 2 ^ 64 }
    ensures count { result ≡ expr_nodes (λ p. is_before p place) (expr_tree e.now) }
    ensures within { result ≤ expr_nodes (λ p. true) (expr_tree e.now) }
{
    match e {
        Expr::Number(_, mark) | Expr::Text(_, mark) => node_before(*mark, place),
        Expr::True(mark) | Expr::False(mark) | Expr::This(mark) | Expr::Unit(mark) => {
            node_before(*mark, place)
        }
        Expr::Name(name) => node_before(name.place, place),
        Expr::Negate(e, mark)
        | Expr::Not(e, mark)
        | Expr::TextSize(e, mark)
        | Expr::TextByte(e, mark)
        | Expr::TextShow(e, mark)
        | Expr::Ascribe(e, _, mark) => node_before(*mark, place) + expr_nodes(e, place),
        Expr::Binary(operator, a, b, mark) => {
            node_before(*mark, place) + expr_nodes(a, place) + expr_nodes(b, place)
        }
        Expr::Call(e, name, arguments) => {
            node_before(name.place, place) + expr_nodes(e, place) + exprs_nodes(arguments, place)
        }
        Expr::TextPart(a, b, c, mark) => {
            node_before(*mark, place)
                + expr_nodes(a, place)
                + expr_nodes(b, place)
                + expr_nodes(c, place)
        }
        Expr::TextCode(a, b, mark) => {
            node_before(*mark, place) + expr_nodes(a, place) + expr_nodes(b, place)
        }
        Expr::Choice(a, b, c, mark) => {
            node_before(*mark, place)
                + expr_nodes(a, place)
                + expr_nodes(b, place)
                + expr_nodes(c, place)
        }
    }
}

/// The nodes of a call's arguments.
#[cycle(expressions)]
fn exprs_nodes(es: &[Expr], place: Place) -> u64
    requires { exprs_nodes (λ p. true) (expr_trees es.now) < 2 ^ 64 }
    ensures count { result ≡ exprs_nodes (λ p. is_before p place) (expr_trees es.now) }
    ensures within { result ≤ exprs_nodes (λ p. true) (expr_trees es.now) }
{
    let mut count = 0;
    for e in es {
        count += expr_nodes(e, place);
    }
    count
}

/// The nodes of a right side.
#[cycle(statements)]
fn rhs_nodes(rhs: &Rhs, place: Place) -> u64
    requires { rhs_nodes (λ p. true) (rhs_tree rhs.now) < 2 ^ 64 }
    ensures count { result ≡ rhs_nodes (λ p. is_before p place) (rhs_tree rhs.now) }
    ensures within { result ≤ rhs_nodes (λ p. true) (rhs_tree rhs.now) }
{
    match rhs {
        Rhs::New(mark, parts) => node_before(*mark, place) + parts_nodes(parts, place),
        Rhs::Branch(mark, condition, first, second) => {
            node_before(*mark, place)
                + expr_nodes(condition, place)
                + block_nodes(first, place)
                + block_nodes(second, place)
        }
        Rhs::Value(e) => expr_nodes(e, place),
    }
}

/// The nodes of a statement.
#[cycle(statements)]
fn stmt_nodes(stmt: &Stmt, place: Place) -> u64
    requires { stmt_nodes (λ p. true) (stmt_tree stmt.now) < 2 ^ 64 }
    ensures count { result ≡ stmt_nodes (λ p. is_before p place) (stmt_tree stmt.now) }
    ensures within { result ≤ stmt_nodes (λ p. true) (stmt_tree stmt.now) }
{
    match stmt {
        Stmt::Val(_, _, rhs) => rhs_nodes(rhs, place),
        Stmt::Assign(_, rhs) => rhs_nodes(rhs, place),
        Stmt::Run(rhs) => rhs_nodes(rhs, place),
    }
}

/// The nodes of a block.
#[cycle(statements)]
fn block_nodes(block: &[Stmt], place: Place) -> u64
    requires { block_nodes (λ p. true) (stmt_trees block.now) < 2 ^ 64 }
    ensures count { result ≡ block_nodes (λ p. is_before p place) (stmt_trees block.now) }
    ensures within { result ≤ block_nodes (λ p. true) (stmt_trees block.now) }
{
    let mut count = 0;
    for stmt in block {
        count += stmt_nodes(stmt, place);
    }
    count
}

/// The nodes of a field or a method.
#[cycle(statements)]
fn part_nodes(part: &Part, place: Place) -> u64
    requires { part_nodes (λ p. true) (part_tree part.now) < 2 ^ 64 }
    ensures count { result ≡ part_nodes (λ p. is_before p place) (part_tree part.now) }
    ensures within { result ≤ part_nodes (λ p. true) (part_tree part.now) }
{
    match part {
        Part::Field(_, _, _, rhs) => rhs_nodes(rhs, place),
        Part::Method(_, body) => tail_nodes(body, place),
    }
}

/// The nodes of fields and methods.
#[cycle(statements)]
fn parts_nodes(parts: &[Part], place: Place) -> u64
    requires { parts_nodes (λ p. true) (part_trees parts.now) < 2 ^ 64 }
    ensures count { result ≡ parts_nodes (λ p. is_before p place) (part_trees parts.now) }
    ensures within { result ≤ parts_nodes (λ p. true) (part_trees parts.now) }
{
    let mut count = 0;
    for part in parts {
        count += part_nodes(part, place);
    }
    count
}

/// The nodes of a body.
#[cycle(statements)]
fn tail_nodes(tail: &Tail, place: Place) -> u64
    requires { tail_nodes (λ p. true) (tail_tree tail.now) < 2 ^ 64 }
    ensures count { result ≡ tail_nodes (λ p. is_before p place) (tail_tree tail.now) }
    ensures within { result ≤ tail_nodes (λ p. true) (tail_tree tail.now) }
{
    match tail {
        Tail::Short(rhs) => rhs_nodes(rhs, place),
        Tail::Long(block) => block_nodes(block, place),
    }
}

/// The nodes of an item.
fn item_nodes(item: &Item, place: Place) -> u64
    requires { item_nodes (λ p. true) (item_tree item.now) < 2 ^ 64 }
    ensures count { result ≡ item_nodes (λ p. is_before p place) (item_tree item.now) }
    ensures within { result ≤ item_nodes (λ p. true) (item_tree item.now) }
{
    match item {
        Item::Type(_) => 0,
        Item::Pure(module) => parts_nodes(&module.inside.parts, place),
        Item::Resource(module) => parts_nodes(&module.inside.parts, place),
        Item::Plain(module) => parts_nodes(&module.parts, place),
        Item::Program(program) => tail_nodes(&program.body, place),
    }
}

/// The nodes of items.
fn file_nodes(items: &[Item], place: Place) -> u64
    requires { file_nodes (λ p. true) (map item_tree items.now) < 2 ^ 64 }
    ensures { result ≡ file_nodes (λ p. is_before p place) (map item_tree items.now) }
{
    let mut count = 0;
    for item in items {
        count += item_nodes(item, place);
    }
    count
}

/// How many expression nodes of a file have their mark before the place; the tree has fewer than 2^64 of
/// them. It takes no memory.
pub fn nodes_before(tree: &Tree, place: Place) -> u64
    requires { all_nodes (file_tree tree.now) < 2 ^ 64 }
    ensures { result ≡ count_before (file_tree tree.now) place }
{
    file_nodes(&tree.items, place)
}
