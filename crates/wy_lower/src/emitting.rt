//! The code of the bodies of a scope: of its `init` or `run`, and then of its methods.

ghost use Rattle.std.specs.Prelude.{◌≡◌, ◌<◌, ◌++◌, ◌∷◌, [], ℕ, Some, false, slice_get, length, IfOk, OnOk};
ghost use Rattle.wy_types.specs.Program as plain;
ghost use Rattle.wy_types.specs.Vals.{literal_captures};
ghost use Rattle.wy_types.specs.Program.{start_of, body_of, scope_of};
ghost use Rattle.wy_meaning.specs.Eval.{body_text};
ghost use Rattle.wy_lower.specs.Capped.{capped};
ghost use Rattle.wy_lower.specs.Lowering.{is_program, inside_start, inside_body, body_with, start_name, start_listing, start_code, body_code, bodies_code};
ghost use Rattle.wy_lower.specs.Operands.{start_operands};
ghost use Rattle.wy_lower.specs.Emits.{inside_of, Becomes};
ghost use Rattle.wy_lower.specs.EmitScopes.{IsTabled};
ghost use Rattle.wy_lower.specs.EmitBodies.{IsWhole, whole_program, whole_starts};

use crate::expressions::{emit_block, emit_fields};
use crate::indexes::{Captures, sum};
use crate::instructions::{Instructions, put};
use crate::names::Inside;
use crate::operands::{block_operands, fields_operands};
use crate::scopes::Tables;
use indexmap::IndexSet;
use std::alloc::Global;
use wy_code::code;
use wy_code::instruction::Instruction;
use wy_text::list::Items;
use wy_text::text::{Memory, Text, from_bytes, from_vec};
use wy_types::linked::{Actual, Linked};
use wy_types::resolved::{Body, Core, Scope, ScopeKind, Start};

/// A program with its instances, what the program's own names stand for, the tables of its texts and method names, and what
/// is known of each scope.
#[derive(Drop)]
pub(crate) struct Whole<'a> {
    pub core: &'a Core,
    pub linked: &'a Linked,
    pub actuals: Vec<Actual>,
    pub texts: IndexSet<Text>,
    pub methods: IndexSet<Text>,
    pub tables: Vec<Tables>,
}

// ----------------------------------------------------------------------------
// What bodies see

/// Whether a scope is the program.
pub(crate) fn is_program(kind: ScopeKind) -> bool
    ensures { result ≡ is_program kind }
{
    match kind {
        ScopeKind::Program => true,
        ScopeKind::Pure | ScopeKind::Resource | ScopeKind::Plain => false,
    }
}

/// What the `init` or `run` of a scope sees.
pub(crate) fn inside_start<'a>(
    whole: &'a Whole<'a>,
    scope: &'a Scope,
    tables: &'a Tables,
) -> Inside<'a>
    requires whole { IsWhole whole.now }
    requires tables { IsTabled (scope_of scope.now) tables.now }
    ensures { inside_of result ≡ inside_start (whole_program whole.now) (whole_starts whole.now) (scope_of scope.now) }
{
    Inside {
        program: is_program(scope.kind),
        actuals: whole.actuals.as_slice(),
        owns: scope.names.len(),
        number: None,
        parameters: 0,
        vals: &tables.start,
        captures: &tables.nothing,
        texts: &whole.texts,
        methods: &whole.methods,
    }
}

/// What the objects of a method's owner captured.
fn captures_of<'a>(scope: &'a Scope, tables: &'a Tables, owner: u32) -> &'a Captures
    requires tables { IsTabled (scope_of scope.now) tables.now }
    ensures { result.now ≡ literal_captures (slice_get scope.now.literals owner) }
{
    match tables.captures.get(owner as usize) {
        Some(captures) => captures,
        None => &tables.nothing,
    }
}

/// What the method of a number sees.
pub(crate) fn inside_body<'a>(
    whole: &'a Whole<'a>,
    scope: &'a Scope,
    tables: &'a Tables,
    number: usize,
) -> Inside<'a>
    requires whole { IsWhole whole.now }
    requires tables { IsTabled (scope_of scope.now) tables.now }
    requires there { number < length scope.now.bodies }
    ensures { (b : plain.Body) → slice_get (scope_of scope.now).bodies number ≡ Some b → inside_of result ≡ inside_body (whole_program whole.now) (whole_starts whole.now) (scope_of scope.now) number b }
{
    let body = &scope.bodies.as_slice()[number];
    Inside {
        program: is_program(scope.kind),
        actuals: whole.actuals.as_slice(),
        owns: scope.names.len(),
        number: Some(number),
        parameters: body.signature.params.len(),
        vals: &tables.bodies[number],
        captures: captures_of(scope, tables, body.owner),
        texts: &whole.texts,
        methods: &whole.methods,
    }
}

// ----------------------------------------------------------------------------
// Bodies

/// A body of these instructions.
fn body_with(
    alloc: Global,
    name: Text,
    inside: &Inside,
    operands: usize,
    out: &mut Instructions,
) -> Result<code::Body, Memory>
    ensures { (n : ℕ) → operands ≡ capped n → IfOk result (λ b. (out.old.wanting ≡ false) × (b ≡ body_with name (inside_of inside.now) n out.old.list)) }
{
    let own = sum(sum(1, inside.parameters), inside.vals.len());
    let parameters = out.number(inside.parameters);
    let vals = out.number(inside.vals.len());
    let slots = out.number(sum(own, operands));
    let instructions = out.listed(alloc)?;
    Ok(code::Body {
        name,
        parameters,
        vals,
        slots,
        instructions,
    })
}

fn start_name(alloc: Global, start: &Start) -> Result<Text, Memory>
    ensures { IfOk result (λ t. t ≡ start_name (start_of start.now)) }
{
    match start {
        Start::Init(_) => from_bytes(alloc, b"init"),
        Start::Run(_) => from_bytes(alloc, b"run"),
    }
}

fn start_operands(start: &Start) -> usize
    ensures { result ≡ capped (start_operands (start_of start.now)) }
{
    match start {
        Start::Init(values) => fields_operands(values),
        Start::Run(block) => block_operands(block),
    }
}

fn emit_start(out: &mut Instructions, inside: &Inside, start: &Start)
    requires { out.old.list ≡ [] }
    ensures { Becomes out.old out.new (start_listing (inside_of inside.now) (start_of start.now)) }
{
    match start {
        Start::Init(values) => emit_fields(out, inside, values),
        Start::Run(block) => emit_block(out, inside, block),
    }
}

/// The code of the `init` or `run` of a scope.
fn start_code(
    alloc: Global,
    whole: &Whole,
    scope: &Scope,
    tables: &Tables,
) -> Result<code::Body, Memory>
    requires whole { IsWhole whole.now }
    requires tables { IsTabled (scope_of scope.now) tables.now }
    ensures { IfOk result (λ b. b ≡ start_code (whole_program whole.now) (whole_starts whole.now) (scope_of scope.now)) }
{
    let inside = inside_start(whole, scope, tables);
    let mut out = Instructions::new(alloc);
    emit_start(&mut out, &inside, &scope.start);
    put(&mut out, scope.start_place, Instruction::Finish);
    let name = start_name(alloc, &scope.start)?;
    body_with(alloc, name, &inside, start_operands(&scope.start), &mut out)
}

/// What a method is called in events.
fn body_text(alloc: Global, owner: u32, name: &Text) -> Result<Text, Memory>
    ensures { IfOk result (λ t. t ≡ body_text owner name.now) }
{
    if owner == 0 {
        return name.copy();
    }
    let digits = format!(in alloc; "new{owner}.")?;
    from_bytes(alloc, digits.as_bytes())?.joined(name)
}

/// The code of the method of a number.
fn body_code(
    alloc: Global,
    whole: &Whole,
    scope: &Scope,
    tables: &Tables,
    number: usize,
) -> Result<code::Body, Memory>
    requires whole { IsWhole whole.now }
    requires tables { IsTabled (scope_of scope.now) tables.now }
    requires there { number < length scope.now.bodies }
    ensures { IfOk result (λ c. (b : plain.Body) → slice_get (scope_of scope.now).bodies number ≡ Some b → c ≡ body_code (whole_program whole.now) (whole_starts whole.now) (scope_of scope.now) number b) }
{
    let inside = inside_body(whole, scope, tables, number);
    let body = &scope.bodies.as_slice()[number];
    let mut out = Instructions::new(alloc);
    emit_block(&mut out, &inside, &body.block);
    put(&mut out, body.place, Instruction::Return);
    let name = body_text(alloc, body.owner, &body.signature.name)?;
    body_with(alloc, name, &inside, block_operands(&body.block), &mut out)
}

/// Adds the code of the bodies of a scope.
pub(crate) fn add_bodies(
    alloc: Global,
    whole: &Whole,
    scope: &Scope,
    tables: &Tables,
    bodies: &mut Items<code::Body>,
) -> Result<(), Memory>
    requires whole { IsWhole whole.now }
    requires tables { IsTabled (scope_of scope.now) tables.now }
    ensures { OnOk result (bodies.new ≡ bodies.old ++ (start_code (whole_program whole.now) (whole_starts whole.now) (scope_of scope.now) ∷ bodies_code (whole_program whole.now) (whole_starts whole.now) (scope_of scope.now) 0 (scope_of scope.now).bodies)) }
{
    bodies.push(start_code(alloc, whole, scope, tables)?)?;
    for k in 0..scope.bodies.len() {
        bodies.push(body_code(alloc, whole, scope, tables, k)?)?;
    }
    Ok(())
}
