ghost use Rattle.std.specs.Prelude.{◌≡◌, IfOk, true};
ghost use Rattle.wy_subtype.specs.Nodes.{is_open, open_node};

use crate::verdict::Cause;
use std::alloc::Global;
use wy_text::list::Items;
use wy_text::text::Memory;
use wy_types::types::TypeRef;

/// What is known of a pair.
#[derive(Drop)]
pub enum Outcome {
    /// Nothing: the pair was met, and not unfolded.
    Open,
    /// The pair fails by itself.
    Fails(Cause),
    /// The pair is closed by those of these numbers, and by pairs of equal base types.
    Asks(Items<usize>),
    /// The first type is a subtype of the second.
    Holds,
}

/// A pair that was met, and what is known of it.
#[derive(Drop)]
pub struct Node {
    pub left: TypeRef,
    pub right: TypeRef,
    pub outcome: Outcome,
}

impl Node {
    /// A pair of which nothing is known.
    pub fn open(alloc: Global, left: &TypeRef, right: &TypeRef) -> Result<Node, Memory>
        ensures { IfOk result (λ k. k ≡ open_node (left.now, right.now)) }
    {
        Ok(Node {
            left: left.copy(alloc)?,
            right: right.copy(alloc)?,
            outcome: Outcome::Open,
        })
    }

    /// Whether it was not unfolded.
    pub fn is_open(&self) -> bool
        ensures { result ≡ is_open self.now.outcome }
    {
        match &self.outcome {
            Outcome::Open => true,
            Outcome::Fails(_) | Outcome::Asks(_) | Outcome::Holds => false,
        }
    }

    /// Whether the first type is known to be a subtype of the second.
    pub fn holds(&self) -> bool
        ensures { (result ≡ true) → self.now.outcome ≡ Outcome.Holds }
    {
        match &self.outcome {
            Outcome::Holds => true,
            Outcome::Open | Outcome::Fails(_) | Outcome::Asks(_) => false,
        }
    }
}
