//! The pairs that a table met, each once.

ghost use Rattle.std.specs.Prelude.{◌≡◌, ◌↔◌, ◌<◌, [], IfOk, OnOk, IsTrue, Some, length, map, slice_get};
ghost use Rattle.wy_text.specs.Members.{In as IsIn};
ghost use Rattle.wy_types.specs.Keys.{pair_key};
ghost use Rattle.wy_subtype.specs.Verdict.{AreSameBase};
ghost use Rattle.wy_subtype.specs.Steps.{Pair};
ghost use Rattle.wy_subtype.specs.Unfolding.{sides};
ghost use Rattle.wy_subtype.specs.Nodes.{node_pair, with_outcome, Meets, AreMore, IsNumbered, AreNumbersOf};

use crate::node::{Node, Outcome};
use crate::unfolding::UnfoldedPair;
use indexmap::IndexSet;
use std::alloc::Global;
use std::marker::Model;
use wy_text::list::Items;
use wy_text::text::Memory;
use wy_types::key::{Key, key_of_pair};
use wy_types::types::TypeRef;

/// Pairs, each once, with what is known of them. Contracts see the list of them; the number of a
/// pair is its place there, counted from 0.
#[derive(Drop)]
pub struct Nodes {
    alloc: Global,
    nodes: Vec<Node>,
    keys: IndexSet<Key>,
}

impl Model for Nodes {
    ghost use Rattle.std.specs.Prelude.{◌≡◌, List, map};
    ghost use Rattle.wy_subtype.specs.declared.node.Node.{Node};
    ghost use Rattle.wy_subtype.specs.Nodes.{node_key};

    ghost Value = { List Node };

    ghost view = { λ n. n.nodes.items };

    ghost invariant = { λ n. n.keys.keys ≡ map node_key n.nodes.items };
}

/// Whether both types are the same base type: such a pair closes itself, and needs no number.
fn is_same_base(pair: &UnfoldedPair) -> bool
    ensures { IsTrue result ↔ AreSameBase (sides pair.now) }
{
    !pair.left.is_object() && pair.left.same(&pair.right)
}

impl Nodes {
    /// No pairs. It takes no memory.
    pub fn new(alloc: Global) -> Nodes
        ensures { result ≡ [] }
    {
        Nodes {
            alloc,
            nodes: Vec::new(alloc),
            keys: IndexSet::new(alloc),
        }
    }

    /// The pair of a number, with what is known of it.
    pub fn at(&self, number: usize) -> &Node
        requires { number < length self.now }
        ensures { slice_get self.now number ≡ Some result.now }
    {
        &self.nodes[number]
    }

    /// Writes what is known of the pair of a number.
    pub fn learn(&mut self, number: usize, outcome: Outcome)
        requires { number < length self.old }
        ensures { self.new ≡ with_outcome self.old number outcome }
    {
        self.nodes[number].outcome = outcome;
    }

    /// The number of a pair, which is added where it isn't there.
    pub fn number_of(&mut self, left: &TypeRef, right: &TypeRef) -> Result<usize, Memory>
        ensures at { IfOk result (λ n. slice_get (map node_pair self.new) n ≡ Some (left.now, right.now)) }
        ensures meets { Meets (left.now, right.now) self.old self.new }
    {
        let key = key_of_pair(self.alloc, left, right)?;
        if let Some(number) = self.keys.get_index_of(&key) {
            return Ok(number);
        }
        self.add(key, left, right)
    }

    /// Adds a pair that isn't there.
    fn add(&mut self, key: Key, left: &TypeRef, right: &TypeRef) -> Result<usize, Memory>
        requires key { key ≡ pair_key left.now right.now }
        requires absent { IsIn {X = Pair} (left.now, right.now) (map node_pair self.old) → ⊥ }
        ensures at { IfOk result (λ n. slice_get (map node_pair self.new) n ≡ Some (left.now, right.now)) }
        ensures meets { Meets (left.now, right.now) self.old self.new }
    {
        let number = self.nodes.len();
        self.nodes.reserve(1)?;
        let node = Node::open(self.alloc, left, right)?;
        self.keys.insert(key)?;
        self.nodes.push_reserved(node);
        Ok(number)
    }

    /// Adds the number of a pair, but for one that closes itself.
    fn add_number(&mut self, numbers: &mut Items<usize>, pair: &UnfoldedPair) -> Result<(), Memory>
        ensures more { AreMore self.old self.new }
        ensures numbered { OnOk result (IsNumbered (map node_pair self.new) (sides pair.now) numbers.old numbers.new) }
    {
        if is_same_base(pair) {
            return Ok(());
        }
        let number = self.number_of(&pair.left, &pair.right)?;
        numbers.push(number)?;
        Ok(())
    }

    /// The numbers of the pairs that another asks for, but for those that close themselves.
    pub fn numbers_of(&mut self, asked: &[UnfoldedPair]) -> Result<Items<usize>, Memory>
        ensures more { AreMore self.old self.new }
        ensures numbers { IfOk result (AreNumbersOf (map node_pair self.new) (map sides asked.now)) }
    {
        let mut numbers = Items::new(self.alloc);
        for pair in asked {
            self.add_number(&mut numbers, pair)?;
        }
        Ok(numbers)
    }
}
