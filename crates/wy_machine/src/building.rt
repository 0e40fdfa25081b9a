//! Operators: what they give is pushed, and the texts that they build are kept.

ghost use Rattle.std.specs.Prelude.{◌≡◌, ◌<◌, ◌≤◌, ◌++◌, ◌∷◌, [], length, IfOk, OnOk};
ghost use Rattle.wy_code.specs.Stores as words;
ghost use Rattle.wy_code.specs.declared.instruction.Instruction.TheVariants.{Op as Operate};
ghost use Rattle.wy_device.specs.Devices.{DevicesState};
ghost use Rattle.wy_machine.specs.Steps.{acting, IsNotStuck, IsStep};
ghost use Rattle.wy_machine.specs.Wanting.{builds_text, WantsOnly};

use crate::computed::Computed;
use crate::machine::Machine;
use crate::operators::{computed, operand_count};
use crate::run_end::{RunEnd, TrapKind};
use crate::store::Store;
use crate::word::{Word, WordKind};
use wy_code::code::Code;
use wy_code::instruction::Operator;
use wy_text::fault::Place;
use wy_text::text::{Memory, Text};

/// How many texts a run may build.
pub const MOST_TEXTS: usize = 4_194_304;

/// The number that a new text gets.
pub fn next_text(code: &Code, store: &Store) -> Result<u32, Memory>
    ensures { IfOk result (λ number. number ≡ length (code.now.texts ++ store.now.texts)) }
{
    match code.texts.len().checked_add(store.built()) {
        Some(count) => match u32::try_from(count) {
            Ok(number) => Ok(number),
            Err(_) => Err(Memory),
        },
        None => Err(Memory),
    }
}

/// Adds a text that was built, and gives its word.
fn build(code: &Code, store: &mut Store, text: Text) -> Result<Word, Memory>
    ensures word { IfOk result (λ v. v ≡ words.Text (length (code.now.texts ++ store.old.texts))) }
    ensures added { OnOk result (store.new ≡ record store.old { texts = store.old.texts ++ text ∷ [] }) }
    ensures first { store.new.first ≡ store.old.first }
{
    let number = next_text(code, store)?;
    store.add_text(text)?;
    Ok(Word::new(WordKind::Text(number)))
}

/// Does an operator.
pub fn operate(
    code: &Code,
    machine: &mut Machine,
    place: Place,
    operator: Operator,
) -> Result<(), RunEnd>
    requires { IsNotStuck (acting code.now 0 place machine.old.stack machine.old.store (Operate operator)) }
    ensures step { (d : DevicesState) → IsStep code.now machine.new.stack machine.new.store
        (acting code.now 0 place machine.old.stack machine.old.store (Operate operator)) d d result }
    ensures wants { WantsOnly (builds_text operator) result }
    ensures limits { machine.new.stack.limits ≡ machine.old.stack.limits }
    ensures first { machine.new.store.first ≡ machine.old.store.first }
{
    let count = operand_count(operator);
    let alloc = machine.store.alloc();
    match computed(alloc, code, &machine.store, &machine.stack, operator)? {
        Computed::Number(number) => {
            machine.stack.give(count, Word::new(WordKind::Int(number)));
            Ok(())
        }
        Computed::Truth(truth) => {
            machine.stack.give(count, Word::new(WordKind::Truth(truth)));
            Ok(())
        }
        Computed::Text(text) => {
            if machine.store.built() < MOST_TEXTS {
                let word = build(code, &mut machine.store, text)?;
                machine.stack.give(count, word);
                Ok(())
            } else {
                Err(RunEnd::Trap {
                    kind: TrapKind::Crowded,
                    place,
                })
            }
        }
        Computed::Trap(kind) => Err(RunEnd::Trap { kind, place }),
        Computed::Misfit => unreachable!(),
    }
}
