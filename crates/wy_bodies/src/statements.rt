//! Statements, literals and methods with their names resolved (docs/LANGUAGE.md, "Names"). Literals, methods
//! and `val`s are numbered by their order in the scope; no memory has room for more than the numbers of 32
//! bits.

ghost use Rattle.std.specs.Prelude.{◌≡◌, ◌≤◌, ◌+◌, ◌++◌, true, length, IfOk, OnOk};
ghost use Rattle.wy_types.specs.Code as code;
ghost use Rattle.wy_types.specs.View.{value_of, values_of, block_of};
ghost use Rattle.wy_types.specs.Program.{body_of};
ghost use Rattle.wy_syntax.specs.Trees as t;
ghost use Rattle.wy_syntax.specs.Views.{rhs_tree, stmt_tree, stmt_trees, part_trees, tail_tree};
ghost use Rattle.wy_bodies.specs.Sight.{Sight, with_params, written_of};
ghost use Rattle.wy_symbols.specs.TypeUses.{signature_refusals};
ghost use Rattle.wy_bodies.specs.InSight.{sight_of, entries, IsLonger, known_params};
ghost use Rattle.wy_bodies.specs.Lending.{lent_within};
ghost use Rattle.wy_bodies.specs.Bodies.{bound, typed_if, rhs_value, stmts_block, part_values, method_body, tail_block};
ghost use Rattle.wy_bodies.specs.BodyRefusals.{typed_refusals, typed_if_refusals, repeated_parts};
ghost use Rattle.wy_symbols.specs.Least.{noted};
ghost use Rattle.wy_bodies.specs.FoundBodies.{found_of, noting, one_method, with_literal, after_rhs, after_stmt, after_stmts, after_part, after_parts, after_tail, form_of, stmt_form, ended, with_stmt};

use crate::bodies::Within;
use crate::expressions::{bound, expr_value, operand_value};
use crate::literals::{literal_of, note_repeated_parts};
use crate::sight::{Frame, Variables};
use crate::values::{boxed, choice, last, object};
use std::alloc::Global;
use std::mem;
use wy_symbols::{Refusal, add, read_method, read_type};
use wy_syntax::statements::{Part, Rhs, Stmt, Tail};
use wy_syntax::types::{Name, Param, Signature, TypeUse};
use wy_text::fault::Place;
use wy_text::list::Items;
use wy_text::text::Memory;
use wy_types::code::{self, Binding, Block, Value, Variable};
use wy_types::resolved::{Body, Literal};
use wy_types::types::TypeRef;

/// How many `val`s, literals and methods of the scope stand before; the module itself is the literal 0.
#[derive(Clone, Copy)]
pub struct Count {
    pub vals: u32,
    pub literals: u32,
    pub bodies: u32,
}

/// What was found so far: the literals, the methods, and the refusal that comes first.
#[derive(Drop)]
pub struct Found {
    pub count: Count,
    pub literals: Items<Literal>,
    pub bodies: Vec<Body>,
    pub least: Option<Refusal>,
}

/// One more of what is counted.
fn one_more(count: u32) -> Result<u32, Memory>
    ensures { IfOk result (λ n. n ≡ count + 1) }
{
    count.checked_add(1).ok_or(Memory)
}

/// The type of a `val`, where one is written.
fn read_type_if(
    alloc: Global,
    within: &Within,
    type_use: &Option<TypeUse>,
    least: &mut Option<Refusal>,
) -> Result<Option<TypeRef>, Memory>
    ensures value { IfOk result (λ t. t ≡ typed_if (lent_within within.now) type_use.now) }
    ensures noted { OnOk result (least.new ≡ noted least.old (typed_if_refusals (lent_within within.now) type_use.now)) }
{
    match type_use {
        None => Ok(None),
        Some(type_use) => {
            let typ = read_type(alloc, within.atoms, within.plain, type_use, least)?;
            Ok(Some(typ))
        }
    }
}

/// Brings the parameters of a method into sight.
fn push_params(variables: &mut Variables, body: u32, params: &[Param]) -> Result<(), Memory>
    ensures { OnOk result (variables.new ≡ variables.old ++ known_params body 0 params.now) }
{
    let mut index: u16 = 0;
    for param in params {
        variables.push(&param.name.text, Variable::Parameter { body, index })?;
        index = index.checked_add(1).ok_or(Memory)?;
    }
    Ok(())
}

/// A block of these statements; the last is its value, or else it ends as with `()` at the place.
fn ended(alloc: Global, place: Place, mut statements: Vec<code::Stmt>) -> Result<Block, Memory>
    ensures { IfOk result (λ b. block_of b ≡ ended place statements.items) }
{
    match statements.pop() {
        None => last(alloc, Value::Plain(code::Expr::Unit(place))),
        Some(code::Stmt::Do(value)) => {
            let last = boxed(alloc, value)?;
            Ok(Block { statements, last })
        }
        Some(code::Stmt::Val(place_of, number, typ, value)) => {
            add(
                &mut statements,
                code::Stmt::Val(place_of, number, typ, value),
            )?;
            let last = boxed(alloc, Value::Plain(code::Expr::Unit(place)))?;
            Ok(Block { statements, last })
        }
    }
}

/// Adds the literal with these fields and methods. The refusals of their names are noted.
fn begin_literal(
    alloc: Global,
    within: &Within,
    variables: &Variables,
    found: &mut Found,
    parts: &[Part],
) -> Result<(), Memory>
    ensures { OnOk result (found_of found.new ≡ with_literal (lent_within within.now) (written_of (entries variables.now) (part_trees parts.now)) (found_of found.old) (part_trees parts.now)) }
{
    note_repeated_parts(alloc, parts, &mut found.least)?;
    let literal = literal_of(alloc, within, variables, parts)?;
    found.literals.push(literal)?;
    found.count.literals = one_more(found.count.literals)?;
    Ok(())
}

/// The value of a right side.
#[cycle(statements)]
pub fn rhs_value(
    alloc: Global,
    within: &Within,
    frame: &Frame,
    variables: &mut Variables,
    found: &mut Found,
    rhs: &Rhs,
) -> Result<Value, Memory>
    requires { frame.now.start ≤ length variables.old }
    ensures sight { OnOk result (variables.new ≡ variables.old) }
    ensures found { OnOk result (found_of found.new ≡ after_rhs (lent_within within.now) (sight_of frame.now variables.old) (found_of found.old) (rhs_tree rhs.now)) }
    ensures value { IfOk result (λ v. value_of v ≡ rhs_value (lent_within within.now) (sight_of frame.now variables.old) (found_of found.old).count (rhs_tree rhs.now)) }
{
    match rhs {
        Rhs::New(place, parts) => {
            literal_value(alloc, within, frame, variables, found, *place, parts)
        }
        Rhs::Branch(place, test, first, second) => {
            let test = operand_value(alloc, within, frame, variables, &mut found.least, test)?;
            let first = block(alloc, within, frame, variables, found, *place, first)?;
            let second = block(alloc, within, frame, variables, found, *place, second)?;
            Ok(choice(*place, test, first, second))
        }
        Rhs::Value(e) => expr_value(alloc, within, frame, variables, &mut found.least, e),
    }
}

/// A new object of a literal.
#[cycle(statements)]
fn literal_value(
    alloc: Global,
    within: &Within,
    frame: &Frame,
    variables: &mut Variables,
    found: &mut Found,
    place: Place,
    parts: &[Part],
) -> Result<Value, Memory>
    requires { frame.now.start ≤ length variables.old }
    ensures sight { OnOk result (variables.new ≡ variables.old) }
    ensures found { OnOk result (found_of found.new ≡ after_rhs (lent_within within.now) (sight_of frame.now variables.old) (found_of found.old) (t.literal place (part_trees parts.now))) }
    ensures value { IfOk result (λ v. value_of v ≡ rhs_value (lent_within within.now) (sight_of frame.now variables.old) (found_of found.old).count (t.literal place (part_trees parts.now))) }
{
    let number = found.count.literals;
    begin_literal(alloc, within, variables, found, parts)?;
    let inner = Frame::inside(alloc, variables.len(), parts)?;
    let values = part_values(
        alloc, within, frame, &inner, variables, found, number, parts,
    )?;
    Ok(object(place, number, values))
}

/// The values of the fields of an object, and its methods.
#[cycle(statements)]
pub fn part_values(
    alloc: Global,
    within: &Within,
    outer: &Frame,
    inner: &Frame,
    variables: &mut Variables,
    found: &mut Found,
    owner: u32,
    parts: &[Part],
) -> Result<Vec<Value>, Memory>
    requires outer { outer.now.start ≤ length variables.old }
    requires inner { inner.now.start ≤ length variables.old }
    requires in_method { inner.now.in_method ≡ true }
    ensures sight { OnOk result (variables.new ≡ variables.old) }
    ensures found { OnOk result (found_of found.new ≡ after_parts (lent_within within.now) (sight_of outer.now variables.old) (sight_of inner.now variables.old) owner (found_of found.old) (part_trees parts.now)) }
    ensures value { IfOk result (λ vs. values_of vs.items ≡ part_values (lent_within within.now) (sight_of outer.now variables.old) (found_of found.old).count (part_trees parts.now)) }
{
    let mut values = Vec::new(alloc);
    for part in parts {
        match part {
            Part::Field(_kind, _name, type_use, rhs) => {
                let value = field_value(alloc, within, outer, variables, found, type_use, rhs)?;
                add(&mut values, value)?;
            }
            Part::Method(signature, body) => {
                method(
                    alloc, within, inner, variables, found, owner, signature, body,
                )?;
            }
        }
    }
    Ok(values)
}

/// The value that a field begins with.
#[cycle(statements)]
fn field_value(
    alloc: Global,
    within: &Within,
    frame: &Frame,
    variables: &mut Variables,
    found: &mut Found,
    type_use: &TypeUse,
    rhs: &Rhs,
) -> Result<Value, Memory>
    requires { frame.now.start ≤ length variables.old }
    ensures sight { OnOk result (variables.new ≡ variables.old) }
    ensures found { OnOk result (found_of found.new ≡ after_rhs (lent_within within.now) (sight_of frame.now variables.old) (noting (found_of found.old) (typed_refusals (lent_within within.now) type_use.now)) (rhs_tree rhs.now)) }
    ensures value { IfOk result (λ v. value_of v ≡ rhs_value (lent_within within.now) (sight_of frame.now variables.old) (found_of found.old).count (rhs_tree rhs.now)) }
{
    read_type(
        alloc,
        within.atoms,
        within.plain,
        type_use,
        &mut found.least,
    )?;
    rhs_value(alloc, within, frame, variables, found, rhs)
}

/// A method of the literal of a number, which comes before those of the literals in it.
#[cycle(statements)]
fn method(
    alloc: Global,
    within: &Within,
    frame: &Frame,
    variables: &mut Variables,
    found: &mut Found,
    owner: u32,
    signature: &Signature,
    body: &Tail,
) -> Result<(), Memory>
    requires frame { frame.now.start ≤ length variables.old }
    requires in_method { frame.now.in_method ≡ true }
    ensures sight { OnOk result (variables.new ≡ variables.old) }
    ensures found { OnOk result ((s : Sight) → found_of found.new ≡ after_part (lent_within within.now) s (sight_of frame.now variables.old) owner (found_of found.old) (t.method signature.now (tail_tree body.now))) }
{
    let mut before = mem::replace(&mut found.bodies, Vec::new(alloc));
    let done = method_body(
        alloc, within, frame, variables, found, owner, signature, body,
    )?;
    add(&mut before, done)?;
    before.append(&mut found.bodies)?;
    found.bodies = before;
    Ok(())
}

/// The same, where those of the literals in it are found and it is not.
#[cycle(statements)]
fn method_body(
    alloc: Global,
    within: &Within,
    frame: &Frame,
    variables: &mut Variables,
    found: &mut Found,
    owner: u32,
    signature: &Signature,
    body: &Tail,
) -> Result<Body, Memory>
    requires frame { frame.now.start ≤ length variables.old }
    requires in_method { frame.now.in_method ≡ true }
    ensures sight { OnOk result (variables.new ≡ variables.old) }
    ensures found { OnOk result (found_of found.new ≡ after_tail (lent_within within.now) (with_params (sight_of frame.now variables.old) (found_of found.old).count.bodies signature.now.params) (one_method (found_of found.old) (signature_refusals (lent_within within.now).atoms (lent_within within.now).plain signature.now)) (tail_tree body.now)) }
    ensures body { IfOk result (λ b. body_of b ≡ method_body (lent_within within.now) (sight_of frame.now variables.old) (found_of found.old).count owner signature.now (tail_tree body.now)) }
{
    let depth = variables.len();
    let number = found.count.bodies;
    found.count.bodies = one_more(number)?;
    push_params(variables, number, signature.params.as_slice())?;
    let resolved = read_method(
        alloc,
        within.atoms,
        within.plain,
        signature,
        &mut found.least,
    )?;
    let block = tail_block(
        alloc,
        within,
        frame,
        variables,
        found,
        signature.place,
        body,
    )?;
    variables.truncate(depth);
    Ok(Body {
        owner,
        place: signature.place,
        signature: resolved,
        block,
    })
}

/// The block of a body.
#[cycle(statements)]
pub fn tail_block(
    alloc: Global,
    within: &Within,
    frame: &Frame,
    variables: &mut Variables,
    found: &mut Found,
    place: Place,
    body: &Tail,
) -> Result<Block, Memory>
    requires { frame.now.start ≤ length variables.old }
    ensures sight { OnOk result (variables.new ≡ variables.old) }
    ensures found { OnOk result (found_of found.new ≡ after_tail (lent_within within.now) (sight_of frame.now variables.old) (found_of found.old) (tail_tree body.now)) }
    ensures value { IfOk result (λ b. block_of b ≡ tail_block (lent_within within.now) place (sight_of frame.now variables.old) (found_of found.old).count (tail_tree body.now)) }
{
    match body {
        Tail::Short(rhs) => {
            let value = rhs_value(alloc, within, frame, variables, found, rhs)?;
            last(alloc, value)
        }
        Tail::Long(statements) => {
            block(alloc, within, frame, variables, found, place, statements)
        }
    }
}

/// A block; its `val`s are out of sight behind it.
#[cycle(statements)]
fn block(
    alloc: Global,
    within: &Within,
    frame: &Frame,
    variables: &mut Variables,
    found: &mut Found,
    place: Place,
    statements: &[Stmt],
) -> Result<Block, Memory>
    requires { frame.now.start ≤ length variables.old }
    ensures sight { OnOk result (variables.new ≡ variables.old) }
    ensures found { OnOk result (found_of found.new ≡ after_stmts (lent_within within.now) (sight_of frame.now variables.old) (found_of found.old) (stmt_trees statements.now)) }
    ensures value { IfOk result (λ b. block_of b ≡ stmts_block (lent_within within.now) place (sight_of frame.now variables.old) (found_of found.old).count (stmt_trees statements.now)) }
{
    let depth = variables.len();
    let mut done = Vec::new(alloc);
    for one in statements {
        add(
            &mut done,
            statement(alloc, within, frame, variables, found, one)?,
        )?;
    }
    variables.truncate(depth);
    ended(alloc, place, done)
}

/// A statement.
#[cycle(statements)]
fn statement(
    alloc: Global,
    within: &Within,
    frame: &Frame,
    variables: &mut Variables,
    found: &mut Found,
    one: &Stmt,
) -> Result<code::Stmt, Memory>
    requires { frame.now.start ≤ length variables.old }
    ensures sight { OnOk result (variables.new ≡ with_stmt variables.old (found_of found.old).count (stmt_tree one.now)) }
    ensures found { OnOk result (found_of found.new ≡ after_stmt (lent_within within.now) (sight_of frame.now variables.old) (found_of found.old) (stmt_tree one.now)) }
    ensures form { IfOk result (λ c. form_of c ≡ stmt_form (lent_within within.now) (sight_of frame.now variables.old) (found_of found.old).count (stmt_tree one.now)) }
{
    match one {
        Stmt::Val(name, type_use, rhs) => {
            let number = found.count.vals;
            found.count.vals = one_more(number)?;
            let typ = read_type_if(alloc, within, type_use, &mut found.least)?;
            let value = rhs_value(alloc, within, frame, variables, found, rhs)?;
            variables.push(&name.text, Variable::Local(number))?;
            Ok(code::Stmt::Val(name.place, number, typ, value))
        }
        Stmt::Assign(name, rhs) => {
            let bound = bound(within, frame, variables, &mut found.least, name)?;
            let value = rhs_value(alloc, within, frame, variables, found, rhs)?;
            let value = boxed(alloc, value)?;
            Ok(code::Stmt::Do(Value::Plain(code::Expr::Assign(name.place, bound, value))))
        }
        Stmt::Run(rhs) => {
            let value = rhs_value(alloc, within, frame, variables, found, rhs)?;
            Ok(code::Stmt::Do(value))
        }
    }
}
