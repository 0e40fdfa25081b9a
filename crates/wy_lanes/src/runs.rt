//! How far the bytes of a class go at the front, by the masks of 64 bytes at a time.

ghost use Rattle.std.specs.Prelude.{◌≡◌, ◌≤◌, length, not};
ghost use Rattle.wy_lanes.specs.Classes.{mask_of};
ghost use Rattle.wy_lanes.specs.Runs.{front_len, is_of};

use crate::classes::class_masks;
use crate::number_set::lowest_bit;

/// The classes of bytes that `class_masks` tells, in its order.
#[derive(Clone, Copy)]
pub enum Class {
    Newline,
    Space,
    Word,
    Quote,
}

/// Bit i says that byte i of at most 64 is of the class.
#[inline(always)]
fn mask(bytes: &[u8], class: Class) -> u64
    requires { length bytes.now ≤ 64 }
    ensures { result ≡ mask_of (is_of class) bytes.now }
{
    let mut masks = [0; 4];
    class_masks(bytes, &mut masks);
    match class {
        Class::Newline => masks[0],
        Class::Space => masks[1],
        Class::Word => masks[2],
        Class::Quote => masks[3],
    }
}

/// How many of at most 64 bytes stand before the first one of the class.
#[inline(always)]
fn gap_in(bytes: &[u8], class: Class) -> usize
    requires { length bytes.now ≤ 64 }
    ensures value { result ≡ front_len (λ b. not (is_of class b)) bytes.now }
    ensures within { result ≤ length bytes.now }
{
    match lowest_bit(mask(bytes, class), 0) {
        Some(bit) => bit as usize,
        None => bytes.len(),
    }
}

/// How many of at most 64 bytes stand before the first one that is not of the class.
#[inline(always)]
fn run_in(bytes: &[u8], class: Class) -> usize
    requires { length bytes.now ≤ 64 }
    ensures value { result ≡ front_len (is_of class) bytes.now }
    ensures within { result ≤ length bytes.now }
{
    match lowest_bit(!mask(bytes, class), 0) {
        Some(bit) => bytes.len().min(bit as usize),
        None => bytes.len(),
    }
}

/// How many bytes stand before the first one of the class; all where there is none. Takes no memory.
pub fn gap_len(bytes: &[u8], class: Class) -> usize
    ensures value { result ≡ front_len (λ b. not (is_of class b)) bytes.now }
    ensures within { result ≤ length bytes.now }
{
    let mut rest = bytes;
    while !rest.is_empty() {
        let (block, more) = rest.split_at(rest.len().min(64));
        let found = gap_in(block, class);
        if found < block.len() {
            return bytes.len() - rest.len() + found;
        }
        rest = more;
    }
    bytes.len()
}

/// How many bytes of the class stand at the front. Takes no memory.
pub fn run_len(bytes: &[u8], class: Class) -> usize
    ensures value { result ≡ front_len (is_of class) bytes.now }
    ensures within { result ≤ length bytes.now }
{
    let mut rest = bytes;
    while !rest.is_empty() {
        let (block, more) = rest.split_at(rest.len().min(64));
        let found = run_in(block, class);
        if found < block.len() {
            return bytes.len() - rest.len() + found;
        }
        rest = more;
    }
    bytes.len()
}
