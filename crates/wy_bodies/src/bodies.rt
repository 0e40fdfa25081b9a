//! The bodies of a scope.

ghost use Rattle.std.specs.Prelude.{◌≡◌, ◌∷◌, ◌++◌, [], List, map, IfOk, OnOk};
ghost use Rattle.wy_types.specs.Program.{body_of, start_of, Init, Run};
ghost use Rattle.wy_syntax.specs.Views.{part_trees, tail_tree};
ghost use Rattle.wy_symbols.specs.Least.{noted};
ghost use Rattle.wy_bodies.specs.Sight.{outermost, inside};
ghost use Rattle.wy_bodies.specs.Bodies.{at_start, part_values, tail_block, literal_of, parts_literals, tail_literals, parts_bodies, tail_bodies};
ghost use Rattle.wy_bodies.specs.BodyRefusals.{repeated_parts, parts_refusals, tail_refusals};
ghost use Rattle.wy_bodies.specs.Lending.{lent_within};
ghost use Rattle.wy_bodies.specs.FoundBodies.{found_of, begun, after_parts, after_tail};
ghost use Rattle.wy_types.specs.View.{values_of, block_of};

use crate::literals::{literal_of, note_repeated_parts};
use crate::sight::{Frame, Variables};
use crate::statements::{Count, Found, part_values, tail_block};
use std::alloc::Global;
use wy_symbols::{AtomScope, Refusal, Table};
use wy_syntax::statements::{Part, Tail};
use wy_text::fault::Place;
use wy_text::list::Items;
use wy_text::text::Memory;
use wy_types::bodies::Bodies;
use wy_types::code::{Block, Value};
use wy_types::resolved::{Literal, Start};

/// A scope as its bodies see it: its atoms, whether it is a plain module, and its own names.
#[derive(Drop)]
pub struct Within<'a> {
    pub atoms: &'a AtomScope<'a>,
    pub plain: bool,
    pub own: &'a Table,
}

/// What the bodies of a scope stand for.
#[derive(Drop)]
pub struct Resolved {
    pub literals: Items<Literal>,
    pub start: Start,
    pub bodies: Bodies,
}

/// What is found at the start of a scope whose literal 0 is this one.
fn begun(alloc: Global, literal: Literal, least: Option<Refusal>) -> Result<Found, Memory>
    ensures { IfOk result (λ f. found_of f ≡ begun literal least) }
{
    let mut literals = Items::new(alloc);
    literals.push(literal)?;
    let count = Count {
        vals: 0,
        literals: 1,
        bodies: 0,
    };
    let bodies = Vec::new(alloc);
    Ok(Found {
        count,
        literals,
        bodies,
        least,
    })
}

/// The literal 0 of the program, which has nothing.
fn no_fields(alloc: Global) -> Literal
    ensures { result ≡ record { captures = []; fields = [] } }
{
    Literal {
        captures: Items::new(alloc),
        fields: Items::new(alloc),
    }
}

/// What is found, and what the scope does when it starts.
fn with_start(alloc: Global, found: Found, start: Start) -> Result<Resolved, Memory>
    ensures literals { IfOk result (λ r. r.literals ≡ found.literals) }
    ensures start { IfOk result (λ r. start_of r.start ≡ start_of start) }
    ensures bodies { IfOk result (λ r. map body_of r.bodies ≡ map body_of found.bodies.items) }
{
    let Found {
        literals,
        bodies,
        ..
    } = found;
    let bodies = Bodies::new(alloc, bodies)?;
    Ok(Resolved {
        literals,
        start,
        bodies,
    })
}

/// What is found at the start of a module, which is its literal 0.
fn module_begun(
    alloc: Global,
    within: &Within,
    parts: &[Part],
    least: Option<Refusal>,
) -> Result<Found, Memory>
    ensures { IfOk result (λ f. found_of f ≡ begun (literal_of (lent_within within.now) outermost (part_trees parts.now)) least) }
{
    let variables = Variables::new(alloc);
    let literal = literal_of(alloc, within, &variables, parts)?;
    begun(alloc, literal, least)
}

/// The values of a module's fields, and its methods, where nothing else is in sight.
fn first_values(
    alloc: Global,
    within: &Within,
    found: &mut Found,
    parts: &[Part],
) -> Result<Vec<Value>, Memory>
    ensures found { OnOk result (found_of found.new ≡ after_parts (lent_within within.now) outermost (inside outermost (part_trees parts.now)) 0 (found_of found.old) (part_trees parts.now)) }
    ensures value { IfOk result (λ vs. values_of vs.items ≡ part_values (lent_within within.now) outermost (found_of found.old).count (part_trees parts.now)) }
{
    let outer = Frame::outermost(alloc);
    let inner = Frame::inside(alloc, 0, parts)?;
    let mut variables = Variables::new(alloc);
    part_values(
        alloc,
        within,
        &outer,
        &inner,
        &mut variables,
        found,
        0,
        parts,
    )
}

/// The fields and methods of a module. Their refusals are noted.
pub fn module_parts(
    alloc: Global,
    within: &Within,
    parts: &[Part],
    least: &mut Option<Refusal>,
) -> Result<Resolved, Memory>
    ensures literals { IfOk result (λ r. r.literals ≡ literal_of (lent_within within.now) outermost (part_trees parts.now) ∷ parts_literals (lent_within within.now) outermost (inside outermost (part_trees parts.now)) at_start (part_trees parts.now)) }
    ensures start { IfOk result (λ r. start_of r.start ≡ Init (part_values (lent_within within.now) outermost at_start (part_trees parts.now))) }
    ensures bodies { IfOk result (λ r. map body_of r.bodies ≡ parts_bodies (lent_within within.now) outermost (inside outermost (part_trees parts.now)) 0 at_start (part_trees parts.now)) }
    ensures noted { OnOk result (least.new ≡ noted least.old (repeated_parts (part_trees parts.now) ++ parts_refusals (lent_within within.now) outermost (inside outermost (part_trees parts.now)) at_start (part_trees parts.now))) }
{
    note_repeated_parts(alloc, parts, least)?;
    let mut found = module_begun(alloc, within, parts, *least)?;
    let values = first_values(alloc, within, &mut found, parts)?;
    *least = found.least;
    with_start(alloc, found, Start::Init(values))
}

/// The block of the program, where nothing else is in sight.
fn first_block(
    alloc: Global,
    within: &Within,
    found: &mut Found,
    run: Place,
    body: &Tail,
) -> Result<Block, Memory>
    ensures found { OnOk result (found_of found.new ≡ after_tail (lent_within within.now) outermost (found_of found.old) (tail_tree body.now)) }
    ensures value { IfOk result (λ b. block_of b ≡ tail_block (lent_within within.now) run outermost (found_of found.old).count (tail_tree body.now)) }
{
    let frame = Frame::outermost(alloc);
    let mut variables = Variables::new(alloc);
    tail_block(alloc, within, &frame, &mut variables, found, run, body)
}

/// The program's block. Its refusals are noted.
pub fn program_block(
    alloc: Global,
    within: &Within,
    run: Place,
    body: &Tail,
    least: &mut Option<Refusal>,
) -> Result<Resolved, Memory>
    ensures literals { IfOk result (λ r. r.literals ≡ record { captures = []; fields = [] } ∷ tail_literals (lent_within within.now) outermost at_start (tail_tree body.now)) }
    ensures start { IfOk result (λ r. start_of r.start ≡ Run (tail_block (lent_within within.now) run outermost at_start (tail_tree body.now))) }
    ensures bodies { IfOk result (λ r. map body_of r.bodies ≡ tail_bodies (lent_within within.now) outermost at_start (tail_tree body.now)) }
    ensures noted { OnOk result (least.new ≡ noted least.old (tail_refusals (lent_within within.now) outermost at_start (tail_tree body.now))) }
{
    let literal = no_fields(alloc);
    let mut found = begun(alloc, literal, *least)?;
    let block = first_block(alloc, within, &mut found, run, body)?;
    *least = found.least;
    with_start(alloc, found, Start::Run(block))
}
