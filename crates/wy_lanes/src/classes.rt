//! Which bytes of a block are of a class, as bits.

ghost use Rattle.std.specs.Prelude.{◌≡◌, ◌-◌, ◌≤◌, ◌==◌, ◌++◌, length, replicate};
ghost use Rattle.wy_lanes.specs.Classes.{is_word, mask_of, masks_of};

use std::simd::prelude::*;

/// The bytes, and zeroes up to 64.
fn padded(bytes: &[u8]) -> u8x64
    requires { length bytes.now ≤ 64 }
    ensures { result ≡ bytes.now ++ replicate (64 - length bytes.now) 0 }
{
    let mut block = [0; 64];
    block[..bytes.len()].copy_from_slice(bytes);
    u8x64::from_array(block)
}

/// The bytes as a block, with zeroes up to 64: none of the classes has the zero.
#[tactic(auto, using(crate::proofs::Masks::whole_block))]
fn block_of(bytes: &[u8]) -> u8x64
    requires { length bytes.now ≤ 64 }
    ensures { result ≡ bytes.now ++ replicate (64 - length bytes.now) 0 }
{
    if bytes.len() == 64 {
        u8x64::from_slice(bytes)
    } else {
        padded(bytes)
    }
}

/// Bit i says that byte i of the block is this byte.
#[inline(always)]
fn equal_mask(block: u8x64, byte: u8) -> u64
    ensures { result ≡ mask_of (λ b. b == byte) block }
{
    block.simd_eq(u8x64::splat(byte)).to_bitmask()
}

/// Bit i says that byte i of the block is a word byte.
#[inline(always)]
fn word_mask(block: u8x64) -> u64
    ensures { result ≡ mask_of is_word block }
{
    // A large letter and its small one differ in this bit alone.
    let small = block | u8x64::splat(0x20);
    let letters = (small - u8x64::splat(b'a')).simd_lt(u8x64::splat(26));
    let digits = (block - u8x64::splat(b'0')).simd_lt(u8x64::splat(10));
    let others = block.simd_eq(u8x64::splat(b'_')) | block.simd_gt(u8x64::splat(0x7f));
    (letters | digits | others).to_bitmask()
}

/// Says of at most 64 bytes which are newlines, spaces, word bytes (letters, digits and `_` of
/// ASCII, and every byte from 128 on) and double quotes, in this order of the masks: bit i is for
/// byte i, and a bit past the last byte is 0. Takes no memory.
#[inline(always)]
pub fn class_masks(bytes: &[u8], masks: &mut [u64; 4])
    requires { length bytes.now ≤ 64 }
    ensures { masks.new ≡ masks_of bytes.now }
{
    let block = block_of(bytes);
    *masks = [
        equal_mask(block, b'\n'),
        equal_mask(block, b' '),
        word_mask(block),
        equal_mask(block, b'"'),
    ];
}
