ghost use Rattle.std.specs.Prelude.{◌≡◌, IfOk, true};
ghost use Rattle.wy_syntax.specs.Nodes.{all_nodes, expr_nodes};
ghost use Rattle.wy_syntax.specs.Views.{expr_tree, file_tree};

use std::alloc::Global;
use std::test::Fail;
use wy_nodes::nodes_before;
use wy_syntax::expressions::{Expr, Operator};
use wy_syntax::items::{Item, PlainModule, Tree};
use wy_syntax::printing::print;
use wy_syntax::statements::{FieldKind, Part, Rhs};
use wy_syntax::types::{Name, TypeUse};
use wy_text::fault::Place;
use wy_text::list::Items;
use wy_text::text::{Memory, from_bytes};

fn at(line: u32, column: u32) -> Place {
    Place {
        file: 1,
        line,
        column,
    }
}

fn name(alloc: Global, text: &str) -> Result<Name, Memory> {
    let text = from_bytes(alloc, text.as_bytes())?;
    Ok(Name {
        text,
        place: at(1, 1),
    })
}

/// `(1 + 2) * -3`, with the marks that it has in the file below.
fn product(alloc: Global) -> Result<Expr, Fail>
    ensures { IfOk result (λ e. expr_nodes (λ p. true) (expr_tree e) ≡ 5) }
{
    let one = Box::new(alloc, Expr::Number(1, at(2, 17)))?;
    let two = Box::new(alloc, Expr::Number(2, at(2, 21)))?;
    let sum = Expr::Binary(Operator::Plus, one, two, at(2, 19));
    let sum = Box::new(alloc, sum)?;
    let three = Box::new(alloc, Expr::Number(-3, at(2, 26)))?;
    Ok(Expr::Binary(Operator::Times, sum, three, at(2, 24)))
}

/// A plain module with one field.
fn file(alloc: Global) -> Result<Tree, Fail>
    ensures { IfOk result (λ t. all_nodes (file_tree t) ≡ 5) }
{
    let value = Rhs::Value(product(alloc)?);
    let field = Part::Field(
        FieldKind::Val,
        name(alloc, "x")?,
        TypeUse::Int(at(2, 10)),
        value,
    );
    let mut parts = Vec::new(alloc);
    parts.push(field)?;
    let module = PlainModule {
        place: at(1, 1),
        name: name(alloc, "m")?,
        params: Items::new(alloc),
        sealed: name(alloc, "N")?,
        parts,
    };
    let mut items = Vec::new(alloc);
    items.push(Item::Plain(module))?;
    Ok(Tree { items })
}

#[test]
fn a_tree_is_printed_in_its_canonical_form(rt: HostRuntime) -> Result<(), Fail> {
    let text = print(rt.alloc(), &file(rt.alloc())?)?;
    assert_eq!(rt;
        text.as_bytes(),
        b"plain module m(): N\n  val x: Int = (1 + 2) * -3\n".as_slice()
    );
    Ok(())
}

#[test]
fn nodes_are_counted_before_a_place(rt: HostRuntime) -> Result<(), Fail> {
    let tree = file(rt.alloc())?;
    assert_eq!(rt; nodes_before(&tree, at(2, 21)), 2);
    assert_eq!(rt; nodes_before(&tree, at(1, 99)), 0);
    assert_eq!(rt; nodes_before(&tree, at(3, 1)), 5);
    Ok(())
}
