//! The kinds of objects of a scope: with what each captures, its fields and its methods.

ghost use Rattle.std.specs.Prelude.{◌≡◌, ◌+◌, ◌<◌, ◌++◌, ◌∷◌, [], ℕ, length, get_or, nat_eq, if◌then◌else◌, IfOk, OnOk};
ghost use Rattle.wy_types.specs.Program.{scope_of};
ghost use Rattle.wy_lower.specs.Capped.{capped};
ghost use Rattle.wy_lower.specs.Parts.{number_in};
ghost use Rattle.wy_lower.specs.Lowering.{methods_code, captures_code, literals_code};
ghost use Rattle.wy_lower.specs.EmitScopes.{IsTabled};
ghost use Rattle.wy_lower.specs.EmitBodies.{IsWhole, whole_program, whole_starts};

use crate::emitting::{Whole, inside_body, inside_start};
use crate::indexes::{number_in, sum, word};
use crate::names::capture_sources;
use crate::scopes::Tables;
use std::alloc::Global;
use wy_code::code::{Literal, Method, Source};
use wy_text::list::Items;
use wy_text::text::Memory;
use wy_types::code::Variable;
use wy_types::resolved::{self, Body, Scope};

/// No methods for each of so many kinds.
fn no_methods(alloc: Global, kinds: usize) -> Result<Vec<Items<Method>>, Memory>
    ensures long { IfOk result (λ m. length m.items ≡ kinds) }
    ensures none { IfOk result (λ m. (l : ℕ) → get_or m.items l [] ≡ []) }
{
    let mut methods = Vec::new(alloc);
    for kind in 0..kinds {
        methods.push(Items::new(alloc))?;
    }
    Ok(methods)
}

/// Adds a method to those of its owner.
fn add_method(methods: &mut Vec<Items<Method>>, owner: usize, method: Method) -> Result<(), Memory>
    ensures long { OnOk result (length methods.new.items ≡ length methods.old.items) }
    ensures added { OnOk result ((l : ℕ) → l < length methods.old.items → get_or methods.new.items l [] ≡ get_or methods.old.items l [] ++ (if nat_eq owner l then method ∷ [] else [])) }
{
    if owner < methods.len() {
        methods[owner].push(method)?;
    }
    Ok(())
}

/// Adds the method that has this number among all bodies to those of its owner.
fn add_body(
    whole: &Whole,
    body: &Body,
    number: usize,
    methods: &mut Vec<Items<Method>>,
) -> Result<(), Memory>
    ensures long { OnOk result (length methods.new.items ≡ length methods.old.items) }
    ensures added { (n : ℕ) → number ≡ capped n → OnOk result ((l : ℕ) → l < length methods.old.items → get_or methods.new.items l [] ≡ get_or methods.old.items l [] ++ (if nat_eq body.now.owner l then record { method = number_in whole.now.methods.keys body.now.signature.name; body = n } ∷ [] else [])) }
{
    let method = number_in(&whole.methods, &body.signature.name)?;
    let number = word(number)?;
    add_method(
        methods,
        body.owner as usize,
        Method {
            method,
            body: number,
        },
    )
}

/// The methods of each kind of objects; the `init` or `run` of the scope has this number among all bodies.
fn methods_of(
    alloc: Global,
    whole: &Whole,
    scope: &Scope,
    start: usize,
) -> Result<Vec<Items<Method>>, Memory>
    requires whole { IsWhole whole.now }
    ensures long { IfOk result (λ m. length m.items ≡ length scope.now.literals) }
    ensures each { IfOk result (λ m. (l : ℕ) → l < length scope.now.literals → get_or m.items l [] ≡ methods_code (whole_program whole.now) l (start + 1) (scope_of scope.now).bodies) }
{
    let mut methods = no_methods(alloc, scope.literals.len())?;
    let bodies = scope.bodies.as_slice();
    for k in 0..bodies.len() {
        add_body(whole, &bodies[k], sum(start, k + 1), &mut methods)?;
    }
    Ok(methods)
}

/// The same methods.
fn copied(alloc: Global, methods: &Items<Method>) -> Result<Items<Method>, Memory>
    ensures { IfOk result (λ m. m ≡ methods.now) }
{
    let mut all = Items::new(alloc);
    for method in methods.as_slice() {
        all.push(*method)?;
    }
    Ok(all)
}

/// Where `new` finds what the objects of a literal capture.
fn captures_code(
    alloc: Global,
    whole: &Whole,
    scope: &Scope,
    tables: &Tables,
    literal: usize,
    variables: &[Variable],
) -> Result<Items<Source>, Memory>
    requires whole { IsWhole whole.now }
    requires tables { IsTabled (scope_of scope.now) tables.now }
    requires there { literal < length scope.now.literals }
    ensures { IfOk result (λ s. s ≡ captures_code (whole_program whole.now) (whole_starts whole.now) (scope_of scope.now) literal variables.now) }
{
    if literal == 0 {
        return Ok(Items::new(alloc));
    }
    match tables.makers[literal] {
        Some(number) => {
            let inside = inside_body(whole, scope, tables, number);
            capture_sources(alloc, &inside, variables)
        }
        None => {
            let inside = inside_start(whole, scope, tables);
            capture_sources(alloc, &inside, variables)
        }
    }
}

/// Adds the kind of objects of the literal of a number, with these methods.
fn add_literal(
    alloc: Global,
    whole: &Whole,
    scope: &Scope,
    tables: &Tables,
    number: usize,
    literal: &resolved::Literal,
    methods: &Items<Method>,
    all: &mut Items<Literal>,
) -> Result<(), Memory>
    requires whole { IsWhole whole.now }
    requires tables { IsTabled (scope_of scope.now) tables.now }
    requires there { number < length scope.now.literals }
    ensures { OnOk result (all.new ≡ all.old ++ record {
      captures = captures_code (whole_program whole.now) (whole_starts whole.now) (scope_of scope.now) number literal.now.captures;
      fields = length literal.now.fields;
      methods = methods.now;
    } ∷ []) }
{
    let fields = word(literal.fields.len())?;
    let captures = literal.captures.as_slice();
    let captures = captures_code(alloc, whole, scope, tables, number, captures)?;
    let methods = copied(alloc, methods)?;
    all.push(Literal {
        captures,
        fields,
        methods,
    })
}

/// The kinds of objects of a scope whose `init` or `run` has this number among all bodies.
pub(crate) fn literals_code(
    alloc: Global,
    whole: &Whole,
    scope: &Scope,
    tables: &Tables,
    first: usize,
) -> Result<Items<Literal>, Memory>
    requires whole { IsWhole whole.now }
    requires tables { IsTabled (scope_of scope.now) tables.now }
    ensures { IfOk result (λ l. l ≡ literals_code (whole_program whole.now) (whole_starts whole.now) (scope_of scope.now) first 0 (scope_of scope.now).literals) }
{
    let methods = methods_of(alloc, whole, scope, first)?;
    let mut all = Items::new(alloc);
    let literals = scope.literals.as_slice();
    for k in 0..literals.len() {
        let literal = &literals[k];
        add_literal(
            alloc,
            whole,
            scope,
            tables,
            k,
            literal,
            &methods[k],
            &mut all,
        )?;
    }
    Ok(all)
}
