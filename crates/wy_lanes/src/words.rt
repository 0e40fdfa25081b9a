//! Words of 64 bits as sets of bits: union, inclusion, and the first row of words outside a bound.

ghost use Rattle.std.specs.Prelude.{◌≡◌, ◌+◌, ◌*◌, ◌%◌, ◌<◌, ◌≤◌, ◌↔◌, ℕ, IfNone, IfSome, IsTrue, bit_or, length};
ghost use Rattle.std.specs.Simd.Lanes.{chunk, put_chunk, zip2};
ghost use Rattle.wy_lanes.specs.Words.{AllInside, row_of, union_of};

use std::simd::prelude::*;

/// Makes the eight words from `at` on the bitwise or of them and the others'.
#[inline(always)]
fn union_block(into: &mut [u64], from: &[u64], at: usize)
    requires room { at + 8 ≤ length into.old }
    requires others { at + 8 ≤ length from.now }
    ensures { into.new
        ≡ put_chunk at into.old (zip2 bit_or (chunk at 8 into.old) (chunk at 8 from.now)) }
{
    let united = u64x8::from_slice(&into[at..]) | u64x8::from_slice(&from[at..]);
    united.copy_to_slice(&mut into[at..]);
}

/// `union_words`, one word at a time.
fn union_singly(into: &mut [u64], from: &[u64])
    requires { length into.old ≡ length from.now }
    ensures { into.new ≡ union_of into.old from.now }
{
    for at in 0..into.len() {
        into[at] |= from[at];
    }
}

/// Makes each word the bitwise or of it and the word in its place in the other list, which is as
/// long. Takes no memory.
pub fn union_words(into: &mut [u64], from: &[u64])
    requires { length into.old ≡ length from.now }
    ensures { into.new ≡ union_of into.old from.now }
{
    let blocks = into.len() / 8;
    for block in 0..blocks {
        union_block(into, from, 8 * block);
    }
    union_singly(&mut into[8 * blocks..], &from[8 * blocks..]);
}

/// Whether none of the eight words from `at` on has a bit outside the bound in its place.
#[inline(always)]
fn is_block_inside(words: &[u64], at: usize, bound: u64x8) -> bool
    requires { at + 8 ≤ length words.now }
    ensures { IsTrue result ↔ AllInside (chunk at 8 words.now) bound }
{
    let block = u64x8::from_slice(&words[at..]);
    (block | bound).simd_ne(bound).to_bitmask() == 0
}

/// `includes_words`, one word at a time.
fn includes_singly(outer: &[u64], inner: &[u64]) -> bool
    requires { length outer.now ≡ length inner.now }
    ensures { IsTrue result ↔ AllInside inner.now outer.now }
{
    for at in 0..inner.len() {
        if inner[at] | outer[at] != outer[at] {
            return false;
        }
    }
    true
}

/// Whether no word of the inner list has a bit outside the word in its place in the outer list,
/// which is as long. Takes no memory.
pub fn includes_words(outer: &[u64], inner: &[u64]) -> bool
    requires { length outer.now ≡ length inner.now }
    ensures { IsTrue result ↔ AllInside inner.now outer.now }
{
    let blocks = inner.len() / 8;
    for block in 0..blocks {
        let bound = u64x8::from_slice(&outer[8 * block..]);
        if !is_block_inside(inner, 8 * block, bound) {
            return false;
        }
    }
    includes_singly(&outer[8 * blocks..], &inner[8 * blocks..])
}

/// The number, from 0, of the first row of eight words that has a bit outside the bound's word in
/// its place; `None` where no row has one. The rows stand one after another. Takes no memory.
pub fn any_outside(rows: &[u64], bound: &[u64; 8]) -> Option<usize>
    requires { length rows.now % 8 ≡ 0 }
    ensures row { IfSome result (λ row. 8 * row < length rows.now) }
    ensures outside { IfSome result (λ row. ¬ AllInside (row_of rows.now row) bound.now) }
    ensures first { IfSome result (λ row. (earlier : ℕ)
        → earlier < row
        → AllInside (row_of rows.now earlier) bound.now) }
    ensures none { IfNone result ((row : ℕ)
        → 8 * row < length rows.now
        → AllInside (row_of rows.now row) bound.now) }
{
    let limit = u64x8::from_array(*bound);
    for row in 0..rows.len() / 8 {
        if !is_block_inside(rows, 8 * row, limit) {
            return Some(row);
        }
    }
    None
}
