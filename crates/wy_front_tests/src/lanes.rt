use std::alloc::{AllocError, Global};
use std::test::Fail;
use wy_lanes::classes::class_masks;
use wy_lanes::number_set::NumberSet;
use wy_lanes::runs::{Class, gap_len, run_len};
use wy_lanes::words::{any_outside, includes_words, union_words};

/// Lengths round the ends of blocks of 8 and of 64.
const LENGTHS: [u16; 9] = [0, 1, 7, 8, 9, 63, 64, 65, 512];

const BOUND: [u64; 8] = [0, 1, u64::MAX, 0xf0f0, 1 << 63, 7, 0x5555_5555, 12];

/// So many words in no order; another seed gives others.
fn mixed_words(alloc: Global, count: u16, seed: u64) -> Result<Vec<u64>, AllocError> {
    let mut words = Vec::new(alloc);
    let mut word = seed;
    for _ in 0..count {
        word = word
            .wrapping_mul(6_364_136_223_846_793_005)
            .wrapping_add(1_442_695_040_888_963_407);
        words.push(word)?;
    }
    Ok(words)
}

fn both(alloc: Global, left: &[u64], right: &[u64]) -> Result<Vec<u64>, AllocError> {
    let mut words = Vec::new(alloc);
    for (a, b) in left.iter().zip(right) {
        words.push(*a & *b)?;
    }
    Ok(words)
}

fn either(alloc: Global, left: &[u64], right: &[u64]) -> Result<Vec<u64>, AllocError> {
    let mut words = Vec::new(alloc);
    for (a, b) in left.iter().zip(right) {
        words.push(*a | *b)?;
    }
    Ok(words)
}

/// Whether so many words are united one by one.
fn are_united(alloc: Global, length: u16) -> Result<bool, AllocError> {
    let mut into = mixed_words(alloc, length, 3)?;
    let from = mixed_words(alloc, length, 5)?;
    let want = either(alloc, into.as_slice(), from.as_slice())?;
    if into.len() != from.len() {
        return Ok(false);
    }
    union_words(into.as_mut_slice(), from.as_slice());
    Ok(into.as_slice() == want.as_slice())
}

#[test]
fn words_are_united_at_each_length(rt: HostRuntime) -> Result<(), Fail> {
    let alloc = rt.alloc();
    for length in LENGTHS {
        assert!(rt; are_united(alloc, length)?, "at {length}");
    }
    Ok(())
}

/// Some of the bits of these words, which are so many.
fn some_of(alloc: Global, length: u16, words: &[u64]) -> Result<Vec<u64>, AllocError> {
    let others = mixed_words(alloc, length, 9)?;
    both(alloc, words, others.as_slice())
}

/// Whether the words include the others, of which each lacks bits, and do so no more without the bits of the last one.
fn is_found(outer: &mut [u64], inner: &[u64]) -> bool {
    if outer.len() != inner.len() {
        return false;
    }
    let none = outer.is_empty();
    let before = includes_words(outer, inner) && includes_words(inner, outer) == none;
    if let Some(last) = outer.last_mut() {
        *last = 0;
    }
    before && outer.len() == inner.len() && includes_words(outer, inner) == none
}

#[test]
fn a_bit_outside_the_last_word_is_found(rt: HostRuntime) -> Result<(), Fail> {
    let alloc = rt.alloc();
    for length in LENGTHS {
        let mut outer = mixed_words(alloc, length, 7)?;
        let inner = some_of(alloc, length, outer.as_slice())?;
        assert!(rt;
            is_found(outer.as_mut_slice(), inner.as_slice()),
            "at {length}"
        );
    }
    Ok(())
}

/// So many rows whose words are those of the bound.
fn rows_inside(alloc: Global, count: u16) -> Result<Vec<u64>, AllocError> {
    let mut rows = Vec::new(alloc);
    for _ in 0..count {
        rows.extend_from_slice(&BOUND)?;
    }
    Ok(rows)
}

/// The first of these rows that is outside; `None` where they are no rows of eight words each.
fn first_outside(rows: &[u64]) -> Option<Option<usize>> {
    if rows.len() % 8 != 0 {
        return None;
    }
    Some(any_outside(rows, &BOUND))
}

/// Whether of so many rows none is outside, then the last one, and then one in the middle.
fn are_outside(rows: &mut [u64], count: usize) -> bool {
    let none = first_outside(rows) == Some(None);
    if let Some(last) = rows.last_mut() {
        *last = 13;
    }
    let last = first_outside(rows) == Some(count.checked_sub(1));
    let middle = count / 2;
    if let Some(first) = rows.get_mut(middle.saturating_mul(8)) {
        *first = 1;
    }
    let want = if count == 0 { None } else { Some(middle) };
    none && last && first_outside(rows) == Some(want)
}

#[test]
fn the_first_row_outside_is_found(rt: HostRuntime) -> Result<(), Fail> {
    let alloc = rt.alloc();
    for count in LENGTHS {
        let mut rows = rows_inside(alloc, count)?;
        assert!(rt;
            are_outside(rows.as_mut_slice(), count as usize),
            "at {count}"
        );
    }
    Ok(())
}

/// The masks, a byte at a time.
fn masks_by_byte(bytes: &[u8]) -> [u64; 4] {
    let mut masks = [0; 4];
    let mut bit = 1u64;
    for byte in bytes {
        match *byte {
            b'\n' => masks[0] |= bit,
            b' ' => masks[1] |= bit,
            b'a'..=b'z' | b'A'..=b'Z' | b'0'..=b'9' | b'_' | 128..=255 => masks[2] |= bit,
            b'"' => masks[3] |= bit,
            _ => {}
        }
        bit = bit.wrapping_mul(2);
    }
    masks
}

/// Whether these are the masks of the bytes.
fn are_masks(bytes: &[u8], wanted: [u64; 4]) -> bool {
    if bytes.len() > 64 {
        return false;
    }
    let mut masks = [u64::MAX; 4];
    class_masks(bytes, &mut masks);
    masks == wanted
}

fn all_bytes(alloc: Global) -> Result<Vec<u8>, AllocError> {
    let mut bytes = Vec::new(alloc);
    for byte in 0..=255u8 {
        bytes.push(byte)?;
    }
    Ok(bytes)
}

#[test]
fn each_byte_is_of_its_class(rt: HostRuntime) -> Result<(), Fail> {
    let bytes = all_bytes(rt.alloc())?;
    for (i, block) in bytes.as_slice().chunks(64).enumerate() {
        for length in [0, 1, 63, 64] {
            let part = block.get(..length).unwrap_or(&[]);
            assert!(rt; are_masks(part, masks_by_byte(part)), "at {i}, {length}");
        }
    }
    assert!(rt; are_masks(b"a_1 \"-\"\n\xc3\xa9", [0x80, 0x08, 0x307, 0x50]));
    Ok(())
}

/// So many spaces, and then these bytes.
fn spaces_before(alloc: Global, count: u16, last: &[u8]) -> Result<Vec<u8>, AllocError> {
    let mut bytes = Vec::new(alloc);
    for _ in 0..count {
        bytes.push(b' ')?;
    }
    bytes.extend_from_slice(last)?;
    Ok(bytes)
}

#[test]
fn a_class_goes_as_far_as_its_bytes(rt: HostRuntime) -> Result<(), Fail> {
    let alloc = rt.alloc();
    for length in LENGTHS {
        let count = length as usize;
        let all = spaces_before(alloc, length, b"")?;
        assert_eq!(rt; run_len(all.as_slice(), Class::Space), count);
        assert_eq!(rt; gap_len(all.as_slice(), Class::Newline), count);
        let line = spaces_before(alloc, length, b"\n \"a")?;
        assert_eq!(rt; run_len(line.as_slice(), Class::Space), count);
        assert_eq!(rt; gap_len(line.as_slice(), Class::Newline), count);
        assert_eq!(rt;
            gap_len(line.as_slice(), Class::Quote),
            count.wrapping_add(2)
        );
        assert_eq!(rt;
            gap_len(line.as_slice(), Class::Word),
            count.wrapping_add(3)
        );
    }
    Ok(())
}

/// The set of these numbers, each below 512.
fn set_of(numbers: &[u16]) -> NumberSet {
    let mut set = NumberSet::empty();
    for number in numbers {
        set.insert(*number % 512);
    }
    set
}

/// Numbers, and the next one of that set from each on.
static NEXT: [(u16, Option<u16>); 10] = [
    (0, Some(0)),
    (1, Some(63)),
    (63, Some(63)),
    (64, Some(64)),
    (65, Some(127)),
    (127, Some(127)),
    (128, Some(511)),
    (511, Some(511)),
    (512, None),
    (u16::MAX, None),
];

#[test]
fn numbers_at_the_ends_of_words_are_found(rt: HostRuntime) -> Result<(), Fail> {
    let set = set_of(&[511, 64, 0, 127, 63, 64]);
    for number in [0, 63, 64, 127, 511] {
        assert!(rt; set.has(number), "{number}");
    }
    for number in [1, 62, 65, 126, 128, 510, 512, 575, u16::MAX] {
        assert!(rt; !set.has(number), "{number}");
    }
    for (number, next) in &NEXT {
        assert!(rt; set.next(*number) == *next, "{number}");
    }
    assert!(rt; set.len() == 5);
    Ok(())
}

/// The numbers of both sets.
fn united(left: &NumberSet, right: &NumberSet) -> NumberSet {
    let mut both = left.copy();
    both.unite(right);
    both
}

#[test]
fn sets_are_united(rt: HostRuntime) -> Result<(), Fail> {
    let left = set_of(&[0, 63, 64]);
    let right = set_of(&[63, 127, 511]);
    let both = united(&left, &right);
    assert!(rt; both == set_of(&[0, 63, 64, 127, 511]));
    assert!(rt; both.includes(&left) && both.includes(&right) && !left.includes(&both));
    Ok(())
}

#[test]
fn sets_are_subtracted(rt: HostRuntime) -> Result<(), Fail> {
    let left = set_of(&[0, 63, 64]);
    let right = set_of(&[63, 127, 511]);
    assert!(rt; left.without(&right) == set_of(&[0, 64]));
    assert!(rt; right.without(&left) == set_of(&[127, 511]));
    assert!(rt; left.without(&left) == NumberSet::empty());
    Ok(())
}

#[test]
fn the_empty_set_has_no_number(rt: HostRuntime) -> Result<(), Fail> {
    let empty = NumberSet::empty();
    assert!(rt; empty.next(0).is_none() && empty.len() == 0);
    Ok(())
}
