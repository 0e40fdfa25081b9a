//! Sets of numbers below 512, as words of 64 bits.

ghost use Rattle.std.specs.Prelude.{◌≡◌, ◌<◌, ◌≤◌, ◌↔◌, ℕ, [], IfNone, IfSome, IsTrue, count_ones, length};
ghost use Rattle.std.specs.Int.{bit_at};
ghost use Rattle.std.specs.List.{sum_by};
ghost use Rattle.wy_lanes.specs.Numbers.{AllIn, IsAscending, first_from, is_in, numbers_of, union_numbers, with_number, without_numbers};
ghost use Rattle.wy_lanes.specs.Rows.{IsRow, others};

use crate::words::{includes_words, union_words};
use std::marker::Model;
use std::simd::prelude::*;

/// A finite set of numbers below 512, as eight words of 64 bits: a number n is there exactly where
/// bit n % 64 of word n / 64 is set. Contracts see the ascending list of its numbers.
#[derive(Drop)]
pub struct NumberSet {
    words: [u64; 8],
}

impl Model for NumberSet {
    ghost use Rattle.std.specs.Prelude.{ℕ, List};
    ghost use Rattle.wy_lanes.specs.Numbers.{numbers_of};

    ghost Value = { List ℕ };

    ghost view = { λ s. numbers_of s.words };
}

impl PartialEq for NumberSet {
    ghost use Rattle.std.specs.Prelude.{◌==◌};
    ghost use Rattle.std.specs.Cmp.Lexicographic.{pointwise};
    ghost use Rattle.std.proofs.Common.{rules};
    ghost use Rattle.std.specs.Cmp.Rules.{comparing};

    ghost eq = { pointwise ◌==◌ };

    ghost laws = { Prim.search (comparing, rules) };

    fn eq(&self, other: &NumberSet) -> bool {
        self.same(other)
    }
}

impl Eq for NumberSet {
    ghost use Rattle.std.proofs.Common.{rules};
    ghost use Rattle.std.specs.Cmp.Rules.{comparing};

    ghost laws = { Prim.search (comparing, rules) };
}

/// Whether each bit that is set in the inner words is set in the outer.
#[inline(always)]
fn has_all(outer: u64x8, inner: u64x8) -> bool
    ensures { IsTrue result ↔ AllIn (numbers_of inner) (numbers_of outer) }
{
    includes_words(&outer.to_array(), &inner.to_array())
}

/// The bits of the first words that are not set in the second.
#[inline(always)]
fn bits_without(words: u64x8, others: u64x8) -> u64x8
    ensures { numbers_of result ≡ without_numbers (numbers_of words) (numbers_of others) }
{
    words & !others
}

/// Whether the same bits are set in both.
#[inline(always)]
fn has_same(left: u64x8, right: u64x8) -> bool
    ensures { IsTrue result ↔ (numbers_of left ≡ numbers_of right) }
{
    left.to_array() == right.to_array()
}

/// The words, as a row.
#[inline(always)]
fn row_of(words: u64x8) -> [u64; 8]
    ensures same { result ≡ words }
    ensures fits { IsRow result }
{
    words.to_array()
}

/// The word's lowest set bit from `low` on.
#[inline(always)]
pub(crate) fn lowest_bit(word: u64, low: u16) -> Option<u16>
    requires { low < 64 }
    ensures there { IfSome result (λ bit. (low ≤ bit) × (bit < 64) × (bit_at word bit ≡ 1)) }
    ensures lowest { IfSome result (λ bit. (i : ℕ) → low ≤ i → i < bit → bit_at word i ≡ 0) }
    ensures none { IfNone result ((i : ℕ) → low ≤ i → i < 64 → bit_at word i ≡ 0) }
{
    let left = word >> low;
    if left == 0 {
        return None;
    }
    Some(low + left.trailing_zeros() as u16)
}

/// The number of the lowest set bit from `from` on.
fn first_bit(words: &[u64; 8], from: u16) -> Option<u16>
    ensures { result ≡ first_from from (numbers_of words.now) }
{
    for at in from / 64..8 {
        let low = from.saturating_sub(64 * at);
        if let Some(bit) = lowest_bit(words[at as usize], low) {
            return Some(64 * at + bit);
        }
    }
    None
}

/// How many bits are set in at most eight words.
fn count_bits(words: &[u64]) -> usize
    requires { length words.now ≤ 8 }
    ensures { result ≡ sum_by count_ones words.now }
{
    let mut count = 0;
    for word in words {
        count += word.count_ones() as usize;
    }
    count
}

/// How many numbers the words have.
#[inline(always)]
fn count_numbers(words: u64x8) -> usize
    ensures { result ≡ length (numbers_of words) }
{
    count_bits(&words.to_array())
}

impl NumberSet {
    /// The empty set. Takes no memory.
    pub fn empty() -> NumberSet
        ensures { result ≡ [] }
    {
        NumberSet { words: [0; 8] }
    }

    /// Whether the set has the number; it has none from 512 on. Takes no memory.
    pub fn has(&self, number: u16) -> bool
        ensures { result ≡ is_in number self.now }
    {
        let place = number as usize / 64;
        place < 8 && self.words[place] >> (number % 64) & 1 == 1
    }

    /// Puts in a number below 512. Takes no memory.
    pub fn insert(&mut self, number: u16)
        requires { number < 512 }
        ensures { self.new ≡ with_number number self.old }
    {
        self.words[number as usize / 64] |= 1 << (number % 64);
    }

    /// Puts in the numbers of the other set. Takes no memory.
    pub fn unite(&mut self, other: &NumberSet)
        ensures { self.new ≡ union_numbers other.now self.old }
    {
        union_words(&mut self.words, &other.words);
    }

    /// Whether every number of the inner set is in this one. Takes no memory.
    pub fn includes(&self, inner: &NumberSet) -> bool
        ensures { IsTrue result ↔ AllIn inner.now self.now }
    {
        has_all(
            u64x8::from_array(self.words),
            u64x8::from_array(inner.words),
        )
    }

    /// The numbers of this set that are not in the other. Takes no memory.
    pub fn without(&self, other: &NumberSet) -> NumberSet
        ensures { result ≡ without_numbers self.now other.now }
    {
        let words = u64x8::from_array(self.words);
        let left = bits_without(words, u64x8::from_array(other.words));
        NumberSet {
            words: left.to_array(),
        }
    }

    /// The numbers below 512 that are not in this set. Takes no memory.
    pub fn complement(&self) -> NumberSet
        ensures { result ≡ others self.now }
    {
        let all = NumberSet {
            words: [u64::MAX; 8],
        };
        all.without(self)
    }

    /// The words of the set.
    pub(crate) fn row(&self) -> [u64; 8]
        ensures numbers { numbers_of result ≡ self.now }
        ensures fits { IsRow result }
    {
        row_of(u64x8::from_array(self.words))
    }

    /// The set's least number from `from` on; `None` where it has none there. Takes no memory.
    pub fn next(&self, from: u16) -> Option<u16>
        ensures { result ≡ first_from from self.now }
    {
        first_bit(&self.words, from)
    }

    /// How many numbers the set has. Takes no memory.
    pub fn len(&self) -> usize
        ensures { result ≡ length self.now }
    {
        count_numbers(u64x8::from_array(self.words))
    }

    /// Whether the other set has the same numbers. Takes no memory.
    pub fn same(&self, other: &NumberSet) -> bool
        ensures { IsTrue result ↔ (self.now ≡ other.now) }
    {
        has_same(
            u64x8::from_array(self.words),
            u64x8::from_array(other.words),
        )
    }

    /// A set of the same numbers. Takes no memory.
    pub fn copy(&self) -> NumberSet
        ensures { result ≡ self.now }
    {
        NumberSet { words: self.words }
    }

    /// States what every set keeps: its numbers ascend, and are below 512.
    pub fn is_ascending(&self)
        ensures { IsAscending 512 self.now }
    {
        let _words = &self.words;
    }
}
