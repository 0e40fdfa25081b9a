//! What is known of a scope before its code is made: its `val`s, what its literals capture, and where each literal is made.

ghost use Rattle.std.specs.Prelude.{◌≡◌, ◌<◌, [], ℕ, false, None, Some, length, map, get_or, nat_eq, if◌then◌else◌, IfOk, OnOk};
ghost use Rattle.wy_types.specs.declared.resolved.Literal.{Literal};
ghost use Rattle.wy_types.specs.Vals.{block_vals, start_vals};
ghost use Rattle.wy_types.specs.Program.{body_of, scope_of, start_of};
ghost use Rattle.wy_types.specs.View.{block_of};
ghost use Rattle.wy_lower.specs.Parts.{each_once_after, texts_in, calls_in, block_parts, bodies_parts, start_parts, scope_parts, scopes_parts};
ghost use Rattle.wy_lower.specs.EmitGathers.{makes_in};
ghost use Rattle.wy_lower.specs.EmitScopes.{or_first, maker_noted, maker_of, bodies_vals, IsTabled, AreTabled};

use crate::gathering::{Found, Names, gather_block, gather_start};
use crate::indexes::{Captures, Vals};
use std::alloc::Global;
use wy_text::text::Memory;
use wy_types::resolved::{Body, Literal, Scope, Start};

/// What is known of a scope: the `val`s of its `init` or `run` and of each method, what each literal captures, and for each
/// literal the number of the first method that makes it.
#[derive(Drop)]
pub(crate) struct Tables {
    pub start: Vals,
    pub bodies: Vec<Vals>,
    pub captures: Vec<Captures>,
    pub makers: Vec<Option<usize>>,
    /// What the object of an `init` or `run` captures.
    pub nothing: Captures,
}

/// A body of which nothing was collected yet.
fn nothing_found(alloc: Global) -> Found
    ensures makes { result.makes.items ≡ [] }
    ensures vals { result.vals.items ≡ [] }
{
    Found {
        makes: Vec::new(alloc),
        vals: Vec::new(alloc),
    }
}

/// Notes a method as the maker of a literal, unless that has one.
fn note_maker(makers: &mut Vec<Option<usize>>, literal: usize, number: usize)
    ensures long { length makers.new.items ≡ length makers.old.items }
    ensures noted { (l : ℕ) → l < length makers.old.items → get_or makers.new.items l None ≡ (if nat_eq literal l then or_first (get_or makers.old.items l None) number else get_or makers.old.items l None) }
{
    if literal < makers.len() {
        if makers[literal].is_none() {
            makers[literal] = Some(number);
        }
    }
}

/// Notes a method as the maker of the literals of which it makes objects, unless they have one.
fn note_makers(makers: &mut Vec<Option<usize>>, makes: &[u32], number: usize)
    ensures long { length makers.new.items ≡ length makers.old.items }
    ensures noted { (l : ℕ) → l < length makers.old.items → get_or makers.new.items l None ≡ maker_noted number makes.now l (get_or makers.old.items l None) }
{
    for literal in makes {
        note_maker(makers, *literal as usize, number);
    }
}

/// Adds no maker for each of so many literals.
fn add_no_makers(makers: &mut Vec<Option<usize>>, literals: usize) -> Result<(), Memory>
    requires { makers.old.items ≡ [] }
    ensures long { OnOk result (length makers.new.items ≡ literals) }
    ensures none { OnOk result ((l : ℕ) → get_or makers.new.items l None ≡ None) }
{
    for literal in 0..literals {
        makers.push(None)?;
    }
    Ok(())
}

/// Adds what each literal captures.
fn add_captures(
    alloc: Global,
    captures: &mut Vec<Captures>,
    literals: &[Literal],
) -> Result<(), Memory>
    requires { captures.old.items ≡ [] }
    ensures { OnOk result (captures.new.items ≡ map (λ (l : Literal). l.captures) literals.now) }
{
    for literal in literals {
        captures.push(Captures::new(alloc, literal.captures.as_slice())?)?;
    }
    Ok(())
}

/// The `val`s that were collected, if memory sufficed for all that was.
fn vals_found(alloc: Global, names: &Names, vals: Vec<u32>) -> Result<Vals, Memory>
    ensures enough { OnOk result (names.now.wanting ≡ false) }
    ensures vals { IfOk result (λ v. v ≡ vals.items) }
{
    if names.wanting {
        return Err(Memory);
    }
    Vals::new(alloc, vals)
}

/// The `val`s of an `init` or `run`. The texts that it writes out and the names of the methods that it calls are put into their
/// tables.
fn start_vals(alloc: Global, names: &mut Names, start: &Start) -> Result<Vals, Memory>
    ensures texts { OnOk result (names.new.texts.keys ≡ each_once_after names.old.texts.keys (texts_in (start_parts (start_of start.now)))) }
    ensures methods { OnOk result (names.new.methods.keys ≡ each_once_after names.old.methods.keys (calls_in (start_parts (start_of start.now)))) }
    ensures vals { IfOk result (λ v. v ≡ start_vals (start_of start.now)) }
{
    let mut found = nothing_found(alloc);
    gather_start(names, &mut found, start);
    vals_found(alloc, names, found.vals)
}

/// The `val`s of the method of a number, which is noted as the maker of literals. The texts that it writes out and the names of
/// the methods that it calls are put into their tables.
fn body_vals(
    alloc: Global,
    names: &mut Names,
    makers: &mut Vec<Option<usize>>,
    body: &Body,
    number: usize,
) -> Result<Vals, Memory>
    ensures texts { OnOk result (names.new.texts.keys ≡ each_once_after names.old.texts.keys (texts_in (block_parts (block_of body.now.block)))) }
    ensures methods { OnOk result (names.new.methods.keys ≡ each_once_after names.old.methods.keys (calls_in (block_parts (block_of body.now.block)))) }
    ensures vals { IfOk result (λ v. v ≡ block_vals (block_of body.now.block)) }
    ensures long { length makers.new.items ≡ length makers.old.items }
    ensures makers { OnOk result ((l : ℕ) → l < length makers.old.items → get_or makers.new.items l None ≡ maker_noted number (makes_in (block_parts (block_of body.now.block))) l (get_or makers.old.items l None)) }
{
    let mut found = nothing_found(alloc);
    gather_block(names, &mut found, &body.block);
    note_makers(makers, &found.makes, number);
    vals_found(alloc, names, found.vals)
}

/// Adds the `val`s of each method. The literals that they make have these makers, and the texts that they write out and the names
/// of the methods that they call are put into their tables.
fn add_bodies(
    alloc: Global,
    names: &mut Names,
    makers: &mut Vec<Option<usize>>,
    all: &mut Vec<Vals>,
    bodies: &[Body],
) -> Result<(), Memory>
    requires { all.old.items ≡ [] }
    ensures texts { OnOk result (names.new.texts.keys ≡ each_once_after names.old.texts.keys (texts_in (bodies_parts (map body_of bodies.now)))) }
    ensures methods { OnOk result (names.new.methods.keys ≡ each_once_after names.old.methods.keys (calls_in (bodies_parts (map body_of bodies.now)))) }
    ensures vals { OnOk result (all.new.items ≡ bodies_vals (map body_of bodies.now)) }
    ensures long { length makers.new.items ≡ length makers.old.items }
    ensures makers { OnOk result ((l : ℕ) → l < length makers.old.items → get_or makers.old.items l None ≡ None → get_or makers.new.items l None ≡ maker_of l (map body_of bodies.now)) }
{
    for k in 0..bodies.len() {
        all.push(body_vals(alloc, names, makers, &bodies[k], k)?)?;
    }
    Ok(())
}

/// Adds what is known of a scope, and gives the `val`s of its `init` or `run`. The texts that it writes out and the names of the
/// methods that it calls are put into their tables.
fn fill_scope(
    alloc: Global,
    names: &mut Names,
    scope: &Scope,
    captures: &mut Vec<Captures>,
    makers: &mut Vec<Option<usize>>,
    bodies: &mut Vec<Vals>,
) -> Result<Vals, Memory>
    requires captures { captures.old.items ≡ [] }
    requires makers { makers.old.items ≡ [] }
    requires bodies { bodies.old.items ≡ [] }
    ensures texts { OnOk result (names.new.texts.keys ≡ each_once_after names.old.texts.keys (texts_in (scope_parts (scope_of scope.now)))) }
    ensures methods { OnOk result (names.new.methods.keys ≡ each_once_after names.old.methods.keys (calls_in (scope_parts (scope_of scope.now)))) }
    ensures start { IfOk result (λ v. v ≡ start_vals (scope_of scope.now).start) }
    ensures bodies { OnOk result (bodies.new.items ≡ bodies_vals (scope_of scope.now).bodies) }
    ensures captures { OnOk result (captures.new.items ≡ map (λ (l : Literal). l.captures) (scope_of scope.now).literals) }
    ensures long { OnOk result (length makers.new.items ≡ length (scope_of scope.now).literals) }
    ensures makers { OnOk result ((l : ℕ) → l < length (scope_of scope.now).literals → get_or makers.new.items l None ≡ maker_of l (scope_of scope.now).bodies) }
{
    add_captures(alloc, captures, scope.literals.as_slice())?;
    add_no_makers(makers, scope.literals.len())?;
    let start = start_vals(alloc, names, &scope.start)?;
    add_bodies(alloc, names, makers, bodies, scope.bodies.as_slice())?;
    Ok(start)
}

/// What is known of a scope. The texts that it writes out and the names of the methods that it calls are put into their
/// tables.
fn tables_of(alloc: Global, names: &mut Names, scope: &Scope) -> Result<Tables, Memory>
    ensures texts { OnOk result (names.new.texts.keys ≡ each_once_after names.old.texts.keys (texts_in (scope_parts (scope_of scope.now)))) }
    ensures methods { OnOk result (names.new.methods.keys ≡ each_once_after names.old.methods.keys (calls_in (scope_parts (scope_of scope.now)))) }
    ensures tables { IfOk result (λ t. IsTabled (scope_of scope.now) t) }
{
    let mut captures = Vec::new(alloc);
    let mut makers = Vec::new(alloc);
    let mut bodies = Vec::new(alloc);
    let start = fill_scope(alloc, names, scope, &mut captures, &mut makers, &mut bodies)?;
    Ok(Tables {
        start,
        bodies,
        captures,
        makers,
        nothing: Captures::none(alloc),
    })
}

/// Adds what is known of each scope. The texts that they write out and the names of the methods that they call are put into
/// their tables.
pub(crate) fn tables_of_scopes(
    alloc: Global,
    names: &mut Names,
    scopes: &[Scope],
    all: &mut Vec<Tables>,
) -> Result<(), Memory>
    requires { all.old.items ≡ [] }
    ensures texts { OnOk result (names.new.texts.keys ≡ each_once_after names.old.texts.keys (texts_in (scopes_parts (map scope_of scopes.now)))) }
    ensures methods { OnOk result (names.new.methods.keys ≡ each_once_after names.old.methods.keys (calls_in (scopes_parts (map scope_of scopes.now)))) }
    ensures tables { OnOk result (AreTabled (map scope_of scopes.now) all.new.items) }
{
    for scope in scopes {
        all.push(tables_of(alloc, names, scope)?)?;
    }
    Ok(())
}
