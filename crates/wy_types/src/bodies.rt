ghost use Rattle.std.specs.Prelude.{◌≡◌, ◌≤◌, ◌-◌, ℕ, IfOk, length, take, drop, slice_get, nat_eq};
ghost use Rattle.std.specs.Option.{option_copied};
ghost use Rattle.indexmap.specs.IndexMap.{get};
ghost use Rattle.wy_types.specs.Bodies.{StandIn, owned_by};

use crate::resolved::Body;
use indexmap::IndexMap;
use std::alloc::Global;
use std::marker::Model;
use wy_text::text::Memory;

/// Where the bodies of each owner stand: from the first of them to behind the last.
fn spans_of(alloc: Global, bodies: &[Body]) -> Result<IndexMap<u32, (usize, usize)>, Memory>
    ensures { IfOk result (λ m. (owner : ℕ) → StandIn bodies.now owner (get nat_eq m owner)) }
{
    let mut spans = IndexMap::new(alloc);
    for i in 0..bodies.len() {
        let owner = bodies[i].owner;
        let first = match spans.get(&owner) {
            Some(&(first, _)) => first,
            None => i,
        };
        spans.insert(owner, (first, i + 1))?;
    }
    Ok(spans)
}

/// The bodies from one place up to another.
fn part(bodies: &[Body], first: usize, end: usize) -> &[Body]
    requires { (first ≤ end) × (end ≤ length bodies.now) }
    ensures { result.now ≡ take (end - first) (drop first bodies.now) }
{
    &bodies[first..end]
}

/// The bodies of a scope in the order of their `def` words. Those of one owner are found without
/// looking at all of them: they stand together, but for those of literals inside.
#[derive(Drop)]
pub struct Bodies {
    items: Vec<Body>,
    spans: IndexMap<u32, (usize, usize)>,
}

impl Model for Bodies {
    ghost use Rattle.std.specs.Prelude.{ℕ, List, nat_eq};
    ghost use Rattle.std.specs.Coded.{codes};
    ghost use Rattle.indexmap.specs.IndexMap.{get};
    ghost use Rattle.wy_types.specs.contracts.code.Block as b;
    ghost use Rattle.wy_types.specs.Bodies.{StandIn};
    ghost use Rattle.wy_types.specs.declared.resolved.Body.{Body};

    ghost Value = { List Body };

    ghost coded = { Prim.hlevel (codes, b.the_row.coded) };

    ghost view = { λ x. x.items.items };

    ghost invariant = { λ x. (owner : ℕ) → StandIn x.items.items owner (get nat_eq x.spans owner) };
}

impl Bodies {
    /// The bodies of a list.
    pub fn new(alloc: Global, items: Vec<Body>) -> Result<Bodies, Memory>
        ensures { IfOk result (λ b. b ≡ items.items) }
    {
        let spans = spans_of(alloc, &items)?;
        Ok(Bodies { items, spans })
    }

    /// How many there are. It takes no memory.
    pub fn len(&self) -> usize
        ensures { result ≡ length self.now }
    {
        self.items.len()
    }

    /// All of them, in order. It takes no memory.
    pub fn as_slice(&self) -> &[Body]
        ensures { result.now ≡ self.now }
    {
        self.items.as_slice()
    }

    /// The one at a place, counted from 0; `None` exactly where the place is not below `len`.
    /// It takes no memory.
    pub fn get(&self, at: usize) -> Option<&Body>
        ensures { option_copied result ≡ slice_get self.now at }
    {
        self.items.get(at)
    }

    /// Bodies among which are all those of an owner, in order: the shortest such part of the list.
    /// It takes no memory.
    pub fn around(&self, owner: u32) -> &[Body]
        ensures { owned_by owner result.now ≡ owned_by owner self.now }
    {
        match self.spans.get(&owner) {
            Some(&(first, end)) => part(self.items.as_slice(), first, end),
            None => &[],
        }
    }
}
