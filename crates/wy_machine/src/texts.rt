//! Texts by their words, and the operators on them.

ghost use Rattle.std.specs.Prelude.{◌≡◌, ◌∷◌, [], ◌++◌, ◌<◌, ◌≤◌, ◌^◌, pos, length, slice_get, IfOk};
ghost use Rattle.std.specs.Option.{option_copied};
ghost use Rattle.wy_code.specs.Operations.{operand_text};
ghost use Rattle.wy_code.specs.Stores.{operand};
ghost use Rattle.wy_device.specs.Operators.{on_text, on_texts, on_text_and_number, on_text_and_numbers, part_of, byte_at, GivesNumber};
ghost use Rattle.wy_device.specs.Operators as meant;
ghost use Rattle.wy_device.specs.Tapes.{Tapes};
ghost use Rattle.wy_device.specs.Traps.{text_limit};
ghost use Rattle.wy_machine.specs.Computing.{computed_meant, same_operand};
ghost use Rattle.wy_machine.specs.States.{store_of};

use crate::arithmetic::{index, numbers, truths};
use crate::computed::Computed;
use crate::run_end::TrapKind;
use crate::store::Store;
use crate::word::Word;
use std::alloc::Global;
use wy_code::code::Code;
use wy_device::operation::LONGEST_TEXT;
use wy_text::text::{Memory, Text, from_bytes};

/// The text of a number; `None` exactly where there is none.
fn text_at<'t>(code: &'t Code, store: &'t Store, at: usize) -> Option<&'t Text>
    ensures { option_copied result ≡ slice_get (code.now.texts ++ store.now.texts) at }
{
    let count = code.texts.len();
    if at < count {
        code.texts.get(at)
    } else {
        store.text(at - count)
    }
}

/// The text that a word names; `None` exactly where it names none.
pub fn text_named<'t>(code: &'t Code, store: &'t Store, word: Word) -> Option<&'t Text>
    ensures { (tapes : Tapes) → option_copied result ≡ operand_text (operand (store_of code.now store.now tapes) word) }
{
    match word.text() {
        Some(text) => text_at(code, store, text as usize),
        None => None,
    }
}

fn text_size(text: &Text) -> Computed
    ensures { computed_meant result ≡ GivesNumber (pos (length text.now)) }
{
    Computed::Number(text.as_bytes().len() as i64)
}

/// How many bytes a text has.
pub fn size(code: &Code, store: &Store, x: Word) -> Computed
    ensures { (tapes : Tapes) → computed_meant result
        ≡ on_text (λ s. GivesNumber (pos (length s))) (operand (store_of code.now store.now tapes) x ∷ []) }
{
    match text_named(code, store, x) {
        Some(text) => text_size(text),
        None => Computed::Misfit,
    }
}

fn join_texts(s: &Text, t: &Text) -> Result<Computed, Memory>
    ensures { IfOk result (λ c. computed_meant c ≡ meant.joined text_limit s.now t.now) }
{
    if s.as_bytes().len() + t.as_bytes().len() <= LONGEST_TEXT {
        let text = s.joined(t)?;
        Ok(Computed::Text(text))
    } else {
        Ok(Computed::Trap(TrapKind::LongText))
    }
}

/// Two texts joined.
pub fn joined(code: &Code, store: &Store, x: Word, y: Word) -> Result<Computed, Memory>
    ensures { IfOk result (λ c. (tapes : Tapes) →
        computed_meant c ≡ on_texts (meant.joined text_limit) (operand (store_of code.now store.now tapes) x ∷ operand (store_of code.now store.now tapes) y ∷ [])) }
{
    match text_named(code, store, x) {
        Some(s) => match text_named(code, store, y) {
            Some(t) => {
                let given = join_texts(s, t)?;
                Ok(given)
            }
            None => Ok(Computed::Misfit),
        },
        None => Ok(Computed::Misfit),
    }
}

fn byte_of(text: &Text, at: i64) -> Computed
    ensures { computed_meant result ≡ byte_at text.now at }
{
    match index(at) {
        Some(at) => match text.as_bytes().get(at) {
            Some(byte) => Computed::Number(i64::from(*byte)),
            None => Computed::Trap(TrapKind::BadPart),
        },
        None => Computed::Trap(TrapKind::BadPart),
    }
}

/// A byte of a text.
pub fn byte_in(code: &Code, store: &Store, x: Word, y: Word) -> Computed
    ensures { (tapes : Tapes) → computed_meant result
        ≡ on_text_and_number byte_at (operand (store_of code.now store.now tapes) x ∷ operand (store_of code.now store.now tapes) y ∷ []) }
{
    match text_named(code, store, x) {
        Some(text) => match y.int() {
            Some(at) => byte_of(text, at),
            None => Computed::Misfit,
        },
        None => Computed::Misfit,
    }
}

fn part_in(alloc: Global, text: &Text, from: i64, to: i64) -> Result<Computed, Memory>
    ensures { IfOk result (λ c. computed_meant c ≡ part_of text.now from to) }
{
    match index(from) {
        Some(from) => match index(to) {
            Some(to) => {
                let bytes = text.as_bytes();
                if from <= to && to <= bytes.len() {
                    let part = from_bytes(alloc, &bytes[from..to])?;
                    Ok(Computed::Text(part))
                } else {
                    Ok(Computed::Trap(TrapKind::BadPart))
                }
            }
            None => Ok(Computed::Trap(TrapKind::BadPart)),
        },
        None => Ok(Computed::Trap(TrapKind::BadPart)),
    }
}

/// A part of a text.
pub fn part(
    alloc: Global,
    code: &Code,
    store: &Store,
    x: Word,
    y: Word,
    z: Word,
) -> Result<Computed, Memory>
    ensures { IfOk result (λ c. (tapes : Tapes) →
        computed_meant c ≡ on_text_and_numbers part_of (operand (store_of code.now store.now tapes) x ∷ operand (store_of code.now store.now tapes) y ∷ operand (store_of code.now store.now tapes) z ∷ [])) }
{
    match text_named(code, store, x) {
        Some(text) => match numbers(y, z) {
            Some((from, to)) => {
                let given = part_in(alloc, text, from, to)?;
                Ok(given)
            }
            None => Ok(Computed::Misfit),
        },
        None => Ok(Computed::Misfit),
    }
}

/// Whether two words are the same number, truth value or text; `None` exactly where they are not both
/// of one of these.
pub fn same(code: &Code, store: &Store, x: Word, y: Word) -> Option<bool>
    ensures { (tapes : Tapes) → result ≡ same_operand (operand (store_of code.now store.now tapes) x) (operand (store_of code.now store.now tapes) y) }
{
    match numbers(x, y) {
        Some((a, b)) => Some(a == b),
        None => match truths(x, y) {
            Some((a, b)) => Some(a == b),
            None => match text_named(code, store, x) {
                Some(s) => match text_named(code, store, y) {
                    Some(t) => Some(s.as_bytes() == t.as_bytes()),
                    None => None,
                },
                None => None,
            },
        },
    }
}
