//! What is collected of bodies before their code is made: the texts that they write out, the names of the methods that they
//! call, the literals that they make, and their `val`s.

ghost use Rattle.std.specs.Prelude.{◌≡◌, ◌++◌, ◌∷◌, [], false};
ghost use Rattle.wy_types.specs.Vals.{expr_vals, value_vals, values_vals, block_vals, start_vals};
ghost use Rattle.wy_types.specs.Program.{start_of};
ghost use Rattle.wy_types.specs.View.{expr_of, value_of, values_of, block_of};
ghost use Rattle.wy_lower.specs.Parts.{expr_parts, value_parts, values_parts, block_parts, start_parts, each_once_after};
ghost use Rattle.wy_lower.specs.EmitGathers.{Gathers, statement_parts, statement_vals};

use crate::indexes::put_text;
use indexmap::IndexSet;
use wy_text::text::Text;
use wy_types::code::{Block, Expr, Stmt, Value};
use wy_types::resolved::Start;

/// The texts that bodies write out, and the names of the methods that they call, each once; and whether memory was wanting to
/// collect what bodies have.
#[derive(Drop)]
pub(crate) struct Names {
    pub texts: IndexSet<Text>,
    pub methods: IndexSet<Text>,
    pub wanting: bool,
}

/// What a body makes: objects of literals and values of `val`s, by their numbers.
#[derive(Drop)]
pub(crate) struct Found {
    pub makes: Vec<u32>,
    pub vals: Vec<u32>,
}

/// Adds a text that a body writes out.
fn add_text(names: &mut Names, text: &Text)
    ensures enough { names.new.wanting ≡ false → names.old.wanting ≡ false }
    ensures texts { names.new.wanting ≡ false → names.new.texts.keys ≡ each_once_after names.old.texts.keys (text.now ∷ []) }
    ensures methods { names.new.methods.keys ≡ names.old.methods.keys }
{
    if put_text(&mut names.texts, text).is_err() {
        names.wanting = true;
    }
}

/// Adds the name of a method that a body calls.
fn add_method(names: &mut Names, name: &Text)
    ensures enough { names.new.wanting ≡ false → names.old.wanting ≡ false }
    ensures texts { names.new.texts.keys ≡ names.old.texts.keys }
    ensures methods { names.new.wanting ≡ false → names.new.methods.keys ≡ each_once_after names.old.methods.keys (name.now ∷ []) }
{
    if put_text(&mut names.methods, name).is_err() {
        names.wanting = true;
    }
}

/// Adds a number to those of a body.
fn add_number(names: &mut Names, numbers: &mut Vec<u32>, number: u32)
    ensures enough { names.new.wanting ≡ false → names.old.wanting ≡ false }
    ensures texts { names.new.texts.keys ≡ names.old.texts.keys }
    ensures methods { names.new.methods.keys ≡ names.old.methods.keys }
    ensures numbers { names.new.wanting ≡ false → numbers.new.items ≡ numbers.old.items ++ number ∷ [] }
{
    if numbers.push(number).is_err() {
        names.wanting = true;
    }
}

/// Collects what an expression has.
#[cycle(gathering)]
fn gather_expr(names: &mut Names, found: &mut Found, expr: &Expr)
    ensures { Gathers names.old names.new found.old found.new (expr_parts (expr_of expr.now)) (expr_vals (expr_of expr.now)) }
{
    match expr {
        Expr::Int(_, _) => {},
        Expr::Text(_, text) => add_text(names, text),
        Expr::Bool(_, _) => {},
        Expr::Unit(_) => {},
        Expr::This(_) => {},
        Expr::Name(_, _) => {},
        Expr::Unary(_, _, x) => gather_expr(names, found, x),
        Expr::Binary(_, _, x, y) => {
            gather_expr(names, found, x);
            gather_expr(names, found, y)
        }
        Expr::TextCall(_, _, values) => gather_values(names, found, values),
        Expr::Call(_, receiver, name, values) => {
            gather_expr(names, found, receiver);
            gather_values(names, found, values);
            add_method(names, name)
        }
        Expr::New(_, literal, values) => {
            add_number(names, &mut found.makes, *literal);
            gather_values(names, found, values)
        }
        Expr::Ascribe(_, value, _) => gather_value(names, found, value),
        Expr::Assign(_, _, value) => gather_value(names, found, value),
    }
}

/// Collects what a value has.
#[cycle(gathering)]
fn gather_value(names: &mut Names, found: &mut Found, value: &Value)
    ensures { Gathers names.old names.new found.old found.new (value_parts (value_of value.now)) (value_vals (value_of value.now)) }
{
    match value {
        Value::Plain(expr) => gather_expr(names, found, expr),
        Value::If(_, test, first, second) => {
            gather_expr(names, found, test);
            gather_block(names, found, first);
            gather_block(names, found, second)
        }
    }
}

/// Collects what several values have.
#[cycle(gathering)]
fn gather_values(names: &mut Names, found: &mut Found, values: &Vec<Value>)
    ensures { Gathers names.old names.new found.old found.new (values_parts (values_of values.now.items)) (values_vals (values_of values.now.items)) }
{
    for i in 0..values.len() {
        gather_value(names, found, &values[i]);
    }
}

/// Collects what a statement has.
#[cycle(gathering)]
fn gather_statement(names: &mut Names, found: &mut Found, statement: &Stmt)
    ensures { Gathers names.old names.new found.old found.new (statement_parts statement.now) (statement_vals statement.now) }
{
    match statement {
        Stmt::Val(_, number, _, value) => {
            add_number(names, &mut found.vals, *number);
            gather_value(names, found, value)
        }
        Stmt::Do(value) => gather_value(names, found, value),
    }
}

/// Collects what a block has.
#[cycle(gathering)]
pub(crate) fn gather_block(names: &mut Names, found: &mut Found, block: &Block)
    ensures { Gathers names.old names.new found.old found.new (block_parts (block_of block.now)) (block_vals (block_of block.now)) }
{
    for i in 0..block.statements.len() {
        gather_statement(names, found, &block.statements[i]);
    }
    gather_value(names, found, &block.last)
}

/// Collects what the `init` or `run` of a scope has.
pub(crate) fn gather_start(names: &mut Names, found: &mut Found, start: &Start)
    ensures { Gathers names.old names.new found.old found.new (start_parts (start_of start.now)) (start_vals (start_of start.now)) }
{
    match start {
        Start::Init(values) => gather_values(names, found, values),
        Start::Run(block) => gather_block(names, found, block),
    }
}
