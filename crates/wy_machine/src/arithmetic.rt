//! Operators on numbers and truth values, and the texts that are made of numbers.

ghost use Rattle.std.specs.Prelude.{◌≡◌, ◌∷◌, [], ◌+ℤ◌, ◌-ℤ◌, ◌*ℤ◌, neg_ℤ, not, int_lt, int_le, IfOk};
ghost use Rattle.wy_code.specs.Stores.{Store, operand};
ghost use Rattle.wy_device.specs.Operators.{within_range, quotient_of, remainder_of, one_byte, on_numbers, on_number, on_truth, GivesTruth, Builds};
ghost use Rattle.std.specs.Fmt.{signed_decimal};
ghost use Rattle.wy_machine.specs.Computing.{computed_meant, ranged, both, natural};
ghost use Rattle.wy_machine.specs.Words.{int_of, truth_of};

use crate::computed::Computed;
use crate::run_end::TrapKind;
use crate::word::Word;
use std::alloc::Global;
use wy_text::text::{Memory, from_bytes};

/// What a calculation gives, where only a number out of range has no result.
fn in_range(number: Option<i64>) -> Computed
    ensures { computed_meant result ≡ ranged number }
{
    match number {
        Some(number) => Computed::Number(number),
        None => Computed::Trap(TrapKind::Overflow),
    }
}

/// The number as an index; `None` exactly where it is negative.
pub fn index(number: i64) -> Option<usize>
    ensures { result ≡ natural number }
{
    match usize::try_from(number) {
        Ok(index) => Some(index),
        Err(_) => None,
    }
}

/// The two numbers that words are, if both are numbers.
pub fn numbers(x: Word, y: Word) -> Option<(i64, i64)>
    ensures { result ≡ both (int_of x) (int_of y) }
{
    match x.int() {
        Some(a) => match y.int() {
            Some(b) => Some((a, b)),
            None => None,
        },
        None => None,
    }
}

/// The two truth values that words are, if both are truth values.
pub fn truths(x: Word, y: Word) -> Option<(bool, bool)>
    ensures { result ≡ both (truth_of x) (truth_of y) }
{
    match x.truth() {
        Some(a) => match y.truth() {
            Some(b) => Some((a, b)),
            None => None,
        },
        None => None,
    }
}

fn quotient_in(a: i64, b: i64) -> Computed
    ensures { computed_meant result ≡ quotient_of a b }
{
    if b == 0 {
        Computed::Trap(TrapKind::ZeroDivisor)
    } else {
        in_range(a.checked_div(b))
    }
}

fn remainder_in(a: i64, b: i64) -> Computed
    ensures { computed_meant result ≡ remainder_of a b }
{
    if b == 0 {
        Computed::Trap(TrapKind::ZeroDivisor)
    } else {
        Computed::Number(a.wrapping_rem(b))
    }
}

/// The sum.
pub fn sum(x: Word, y: Word) -> Computed
    ensures { (w : Store) → computed_meant result ≡ on_numbers (λ x y. within_range (x +ℤ y)) (operand w x ∷ operand w y ∷ []) }
{
    match numbers(x, y) {
        Some((a, b)) => in_range(a.checked_add(b)),
        None => Computed::Misfit,
    }
}

/// The difference.
pub fn difference(x: Word, y: Word) -> Computed
    ensures { (w : Store) → computed_meant result ≡ on_numbers (λ x y. within_range (x -ℤ y)) (operand w x ∷ operand w y ∷ []) }
{
    match numbers(x, y) {
        Some((a, b)) => in_range(a.checked_sub(b)),
        None => Computed::Misfit,
    }
}

/// The product.
pub fn product(x: Word, y: Word) -> Computed
    ensures { (w : Store) → computed_meant result ≡ on_numbers (λ x y. within_range (x *ℤ y)) (operand w x ∷ operand w y ∷ []) }
{
    match numbers(x, y) {
        Some((a, b)) => in_range(a.checked_mul(b)),
        None => Computed::Misfit,
    }
}

/// The quotient, which goes toward zero.
pub fn quotient(x: Word, y: Word) -> Computed
    ensures { (w : Store) → computed_meant result ≡ on_numbers (quotient_of) (operand w x ∷ operand w y ∷ []) }
{
    match numbers(x, y) {
        Some((a, b)) => quotient_in(a, b),
        None => Computed::Misfit,
    }
}

/// The remainder, with the dividend's sign.
pub fn remainder(x: Word, y: Word) -> Computed
    ensures { (w : Store) → computed_meant result ≡ on_numbers (remainder_of) (operand w x ∷ operand w y ∷ []) }
{
    match numbers(x, y) {
        Some((a, b)) => remainder_in(a, b),
        None => Computed::Misfit,
    }
}

/// Whether the first is less.
pub fn less(x: Word, y: Word) -> Computed
    ensures { (w : Store) → computed_meant result ≡ on_numbers (λ x y. GivesTruth (int_lt x y)) (operand w x ∷ operand w y ∷ []) }
{
    match numbers(x, y) {
        Some((a, b)) => Computed::Truth(a < b),
        None => Computed::Misfit,
    }
}

/// Whether the first is no greater.
pub fn less_or_equal(x: Word, y: Word) -> Computed
    ensures { (w : Store) → computed_meant result ≡ on_numbers (λ x y. GivesTruth (int_le x y)) (operand w x ∷ operand w y ∷ []) }
{
    match numbers(x, y) {
        Some((a, b)) => Computed::Truth(a <= b),
        None => Computed::Misfit,
    }
}

/// Whether the first is greater.
pub fn greater(x: Word, y: Word) -> Computed
    ensures { (w : Store) → computed_meant result ≡ on_numbers (λ x y. GivesTruth (int_lt y x)) (operand w x ∷ operand w y ∷ []) }
{
    match numbers(x, y) {
        Some((a, b)) => Computed::Truth(a > b),
        None => Computed::Misfit,
    }
}

/// Whether the first is no less.
pub fn greater_or_equal(x: Word, y: Word) -> Computed
    ensures { (w : Store) → computed_meant result ≡ on_numbers (λ x y. GivesTruth (int_le y x)) (operand w x ∷ operand w y ∷ []) }
{
    match numbers(x, y) {
        Some((a, b)) => Computed::Truth(a >= b),
        None => Computed::Misfit,
    }
}

/// The number with the other sign.
pub fn negated(x: Word) -> Computed
    ensures { (w : Store) → computed_meant result ≡ on_number (λ x. within_range (neg_ℤ x)) (operand w x ∷ []) }
{
    match x.int() {
        Some(a) => in_range(a.checked_neg()),
        None => Computed::Misfit,
    }
}

/// The other truth value.
pub fn negation(x: Word) -> Computed
    ensures { (w : Store) → computed_meant result ≡ on_truth (λ x. GivesTruth (not x)) (operand w x ∷ []) }
{
    match x.truth() {
        Some(a) => Computed::Truth(!a),
        None => Computed::Misfit,
    }
}

fn byte_text(alloc: Global, a: i64) -> Result<Computed, Memory>
    ensures { IfOk result (λ c. computed_meant c ≡ one_byte a) }
{
    match u8::try_from(a) {
        Ok(byte) => {
            let text = from_bytes(alloc, &[byte])?;
            Ok(Computed::Text(text))
        }
        Err(_) => Ok(Computed::Trap(TrapKind::BadPart)),
    }
}

/// The text of one byte.
pub fn byte(alloc: Global, x: Word) -> Result<Computed, Memory>
    ensures { IfOk result (λ c. (w : Store) → computed_meant c ≡ on_number one_byte (operand w x ∷ [])) }
{
    match x.int() {
        Some(a) => {
            let given = byte_text(alloc, a)?;
            Ok(given)
        }
        None => Ok(Computed::Misfit),
    }
}

fn decimal_text(alloc: Global, a: i64) -> Result<Computed, Memory>
    ensures { IfOk result (λ c. computed_meant c ≡ Builds (signed_decimal a)) }
{
    let digits = format!(in alloc; "{a}")?;
    let text = from_bytes(alloc, digits.as_bytes())?;
    Ok(Computed::Text(text))
}

/// The text that shows a number.
pub fn shown(alloc: Global, x: Word) -> Result<Computed, Memory>
    ensures { IfOk result (λ c. (w : Store) → computed_meant c ≡ on_number (λ x. Builds (signed_decimal x)) (operand w x ∷ [])) }
{
    match x.int() {
        Some(a) => {
            let given = decimal_text(alloc, a)?;
            Ok(given)
        }
        None => Ok(Computed::Misfit),
    }
}
