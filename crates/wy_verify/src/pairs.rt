//! Decides whether types are subtypes of each other.

ghost use Rattle.std.specs.Prelude.{◌≡◌, ◌↔◌, ◌<◌, [], ◌∷◌, IfOk, OnOk, IsTrue, Some, length, slice_get, take};
ghost use Rattle.wy_verified.specs.Kinds.{Fits, IsObject};
ghost use Rattle.wy_verify.specs.Closing.{AreClosed, IsAdded, IsClosing, IsCovering, IsGrown};
ghost use Rattle.wy_verify.specs.Closing.{both, exchanged, kind_key, rests_on};
ghost use Rattle.wy_verify.specs.Judging.{kind_numbers};

use crate::judged::Judged;
use crate::methods::FoundMethod;
use indexmap::IndexSet;
use std::alloc::Global;
use std::marker::Model;
use wy_text::text::Memory;
use wy_verified::Kind;

/// How many pairs an image may ask for. A pair takes about 100 bytes.
const MOST_PAIRS: usize = 1_048_576;

/// How many units of work an image may ask for. A unit takes about eight nanoseconds.
const MOST_WORK: usize = 134_217_728;

/// What a test of a pair or of a method costs, in units of work.
const TEST: usize = 8;

/// A type as a part of a key.
type KindKey = (u32, u32, u32);

/// A pair of types as a key.
type PairKey = (KindKey, KindKey);

/// A pair of types: the left one is to be a subtype of the right one.
#[derive(Clone, Copy, PartialEq, Eq)]
pub struct KindPair {
    pub left: Kind,
    pub right: Kind,
}

/// Pairs that were asked for, and those that such pairs rest on, each once. Contracts see the list of them. `left` is how
/// many more units of work an image may ask for.
#[derive(Drop)]
pub struct Pairs {
    pairs: Vec<KindPair>,
    keys: IndexSet<PairKey>,
    left: usize,
}

impl Model for Pairs {
    ghost use Rattle.std.specs.Prelude.{◌≡◌, List, map};
    ghost use Rattle.wy_verified.specs.Kinds.{Pair};
    ghost use Rattle.wy_verify.specs.Closing.{both, pair_key};

    ghost Value = { List Pair };

    ghost view = { λ p. map both p.pairs.items };

    ghost invariant = { λ p. p.keys.keys ≡ map pair_key p.pairs.items };
}

/// Returns whether two types are the same.
pub(crate) fn is_same(left: Kind, right: Kind) -> bool
    ensures { IsTrue result ↔ (left ≡ right) }
{
    match (left, right) {
        (Kind::Ints, Kind::Ints) => true,
        (Kind::Truths, Kind::Truths) => true,
        (Kind::Texts, Kind::Texts) => true,
        (Kind::Units, Kind::Units) => true,
        (Kind::Named(m), Kind::Named(n)) => m == n,
        (Kind::Own(x, l), Kind::Own(y, m)) => x == y && l == m,
        (Kind::Granted(m), Kind::Granted(n)) => m == n,
        _ => false,
    }
}

/// Returns whether a type is one of objects.
fn is_object(kind: Kind) -> bool
    ensures { IsTrue result ↔ IsObject kind }
{
    match kind {
        Kind::Named(_) | Kind::Own(_, _) | Kind::Granted(_) => true,
        Kind::Ints | Kind::Truths | Kind::Texts | Kind::Units => false,
    }
}

/// Returns a type as a part of a key.
fn key_of(kind: Kind) -> KindKey
    ensures { result ≡ kind_key kind }
{
    match kind {
        Kind::Ints => (0, 0, 0),
        Kind::Truths => (1, 0, 0),
        Kind::Texts => (2, 0, 0),
        Kind::Units => (3, 0, 0),
        Kind::Named(number) => (4, number, 0),
        Kind::Own(instance, literal) => (5, instance, literal),
        Kind::Granted(number) => (6, number, 0),
    }
}

impl Pairs {
    /// Makes an empty list. Takes no memory.
    pub fn new(alloc: Global) -> Pairs
        ensures { result ≡ [] }
    {
        Pairs {
            pairs: Vec::new(alloc),
            keys: IndexSet::new(alloc),
            left: MOST_WORK,
        }
    }

    /// Counts units of work. An image that asks for too many is refused as if memory ran out.
    pub(crate) fn spend(&mut self, units: usize) -> Result<(), Memory>
        ensures { OnOk result (self.new ≡ self.old) }
    {
        let Some(left) = self.left.checked_sub(units) else {
            return Err(Memory);
        };
        self.left = left;
        Ok(())
    }

    /// Returns the number of pairs.
    fn len(&self) -> usize
        ensures { result ≡ length self.now }
    {
        self.pairs.len()
    }

    /// Removes the pairs after the first `count`.
    fn cut(&mut self, count: usize)
        ensures { self.new ≡ take count self.old }
    {
        self.pairs.truncate(count);
        self.keys.truncate(count);
    }

    /// Returns the pair of a number.
    fn pair_at(&self, at: usize) -> KindPair
        requires { at < length self.now }
        ensures { slice_get self.now at ≡ Some (both result) }
    {
        self.pairs[at]
    }

    /// Adds a pair, unless it is there.
    fn add(&mut self, left: Kind, right: Kind) -> Result<(), Memory>
        ensures { OnOk result (IsAdded self.old (left, right) self.new) }
    {
        let key = (key_of(left), key_of(right));
        if self.keys.contains(&key) {
            self.spend(TEST)?;
            return Ok(());
        }
        if self.pairs.len() >= MOST_PAIRS {
            return Err(Memory);
        }
        self.pairs.reserve(1)?;
        self.keys.insert(key)?;
        self.pairs.push_reserved(KindPair { left, right });
        Ok(())
    }

    /// Adds the pairs of the parameters of two methods, with sides exchanged.
    fn add_parameters(
        &mut self,
        left: &FoundMethod<'_>,
        right: &FoundMethod<'_>,
    ) -> Result<(), Memory>
        requires { length left.now.params ≡ length right.now.params }
        ensures { OnOk result (IsGrown self.old self.new (exchanged left.now.params right.now.params)) }
    {
        let count = left.parameter_count();
        for at in 0..count {
            let asked = right.parameter(at);
            let found = left.parameter(at);
            self.add(asked, found)?;
        }
        Ok(())
    }

    /// Adds the pairs that must hold for a method to be called in place of another.
    fn add_rests(&mut self, left: &FoundMethod<'_>, right: &FoundMethod<'_>) -> Result<(), Memory>
        requires { length left.now.params ≡ length right.now.params }
        ensures { OnOk result (IsGrown self.old self.new (rests_on left.now right.now)) }
    {
        self.add_parameters(left, right)?;
        let found = left.result();
        let asked = right.result();
        self.add(found, asked)
    }

    /// Adds the pairs that the cover of a method rests on, or returns that there is none.
    fn cover(
        &mut self,
        judged: &Judged<'_>,
        left: Kind,
        right: Kind,
        number: u32,
    ) -> Result<bool, Memory>
        ensures { IfOk result (IsCovering judged.now left right (number ∷ []) self.old self.new) }
    {
        self.spend(TEST)?;
        let Some(asked) = judged.method(right, number) else {
            return Ok(true);
        };
        let Some(found) = judged.method(left, number) else {
            return Ok(false);
        };
        if found.parameter_count() != asked.parameter_count() {
            return Ok(false);
        }
        if !found.is_within_method(&asked) {
            return Ok(false);
        }
        self.add_rests(&found, &asked)?;
        Ok(true)
    }

    /// Adds the pairs that the covers of a type's methods rest on, or returns that one has none.
    fn cover_all(&mut self, judged: &Judged<'_>, left: Kind, right: Kind) -> Result<bool, Memory>
        ensures { IfOk result (IsCovering judged.now left right (kind_numbers judged.now right) self.old self.new) }
    {
        for at in 0..usize::MAX {
            let Some(number) = judged.number_at(right, at) else {
                return Ok(true);
            };
            if !self.cover(judged, left, right, number)? {
                return Ok(false);
            }
        }
        Err(Memory)
    }

    /// Adds the pairs that the pair of a number rests on, or returns that it cannot be closed.
    fn close(&mut self, judged: &Judged<'_>, at: usize) -> Result<bool, Memory>
        requires { at < length self.old }
        ensures { IfOk result (IsClosing judged.now self.old at self.new) }
    {
        let pair = self.pair_at(at);
        if is_object(pair.left) && is_object(pair.right) {
            self.cover_all(judged, pair.left, pair.right)
        } else {
            Ok(is_same(pair.left, pair.right))
        }
    }

    /// Returns whether a type is the other or a subtype of it. Fails only if memory runs out.
    pub fn fits(&mut self, judged: &Judged<'_>, left: Kind, right: Kind) -> Result<bool, Memory>
        requires { AreClosed judged.now self.old }
        ensures decided { IfOk result (λ b. IsTrue b ↔ Fits judged.now left right) }
        ensures kept { OnOk result (AreClosed judged.now self.new) }
    {
        if is_same(left, right) {
            return Ok(true);
        }
        let base = self.len();
        self.add(left, right)?;
        for at in base..usize::MAX {
            if at >= self.len() {
                return Ok(true);
            }
            if !self.close(judged, at)? {
                self.cut(base);
                return Ok(false);
            }
        }
        Err(Memory)
    }
}
