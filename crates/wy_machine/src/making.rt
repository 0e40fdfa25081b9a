//! `New`: an object of a literal, with what it captures.

ghost use Rattle.std.specs.Prelude.{◌≡◌, ◌<◌, ◌≤◌, length, IsSome, IfOk, Some};
ghost use Rattle.wy_code.specs.Machine.{literal_of};
ghost use Rattle.wy_code.specs.declared.instruction.Instruction.TheVariants.{New};
ghost use Rattle.wy_device.specs.Devices.{DevicesState};
ghost use Rattle.wy_machine.specs.Captures.{word_found, words_found, values_found};
ghost use Rattle.wy_machine.specs.Loading.{IsLoaded};
ghost use Rattle.wy_machine.specs.Steps.{acting, IsNotStuck, IsStep};

use crate::lookup::literal_at;
use crate::machine::{Machine, value};
use crate::object::Object;
use crate::run_end::{RunEnd, TrapKind};
use crate::store::Store;
use crate::word::{Word, WordKind};
use wy_code::code::{Code, Literal, Source};
use wy_text::fault::Place;
use wy_text::text::Memory;

/// How many objects a run may make by `New`.
const MOST_OBJECTS: u64 = 4_194_304;

/// A word that an object captures; `None` exactly where it is not there.
fn word_from(machine: &Machine, source: Source) -> Option<Word>
    ensures { result ≡ word_found machine.now.stack machine.now.store source }
{
    match source {
        Source::Slot(slot) => machine.stack.slots().get(slot as usize).copied(),
        Source::Value(at) => value(&machine.store, machine.stack.this(), at as usize),
    }
}

/// The words that an object captures.
fn captured(machine: &Machine, sources: &[Source]) -> Result<Vec<Word>, Memory>
    requires { IsSome (words_found machine.now.stack machine.now.store sources.now) }
    ensures { IfOk result (λ words. words_found machine.now.stack machine.now.store sources.now ≡ Some words.items) }
{
    let mut words = Vec::new(machine.store.alloc());
    for source in sources {
        match word_from(machine, *source) {
            Some(word) => words.push(word)?,
            None => unreachable!(),
        }
    }
    Ok(words)
}

/// The values of a new object: what it captures, and then its fields, the topmost operands.
fn values_of(machine: &Machine, kind: &Literal) -> Result<Vec<Word>, Memory>
    requires captures { IsSome (words_found machine.now.stack machine.now.store kind.now.captures) }
    requires fields { kind.now.fields ≤ length machine.now.stack.running.operands }
    ensures { IfOk result (λ values. values_found machine.now.stack machine.now.store kind.now ≡ Some values.items) }
{
    let mut values = captured(machine, kind.captures.as_slice())?;
    values.extend_from_slice(machine.stack.arguments(kind.fields as usize))?;
    Ok(values)
}

/// The number that a new object gets.
fn next_object(store: &Store) -> Result<u32, Memory>
    ensures { IfOk result (λ number. number ≡ length store.now.objects) }
{
    match u32::try_from(store.objects()) {
        Ok(number) => Ok(number),
        Err(_) => Err(Memory),
    }
}

/// Makes an object of a literal, whose fields are the topmost operands.
fn make_object(
    code: &Code,
    machine: &mut Machine,
    place: Place,
    literal: u32,
    kind: &Literal,
) -> Result<(), RunEnd>
    requires here { literal_of code.now machine.old.stack.running.instance literal ≡ Some kind.now }
    requires loaded { IsLoaded code.now machine.old.stack.limits machine.old.store.first }
    requires sound { IsNotStuck (acting code.now 0 place machine.old.stack machine.old.store (New literal)) }
    ensures step { (d : DevicesState) → IsStep code.now machine.new.stack machine.new.store
        (acting code.now 0 place machine.old.stack machine.old.store (New literal)) d d result }
    ensures limits { machine.new.stack.limits ≡ machine.old.stack.limits }
    ensures first { machine.new.store.first ≡ machine.old.store.first }
{
    let count = kind.fields as usize;
    let values = values_of(machine, kind)?;
    if machine.store.made() < MOST_OBJECTS {
        let number = next_object(&machine.store)?;
        let object = Object::new(machine.stack.instance(), literal, values);
        machine.store.make_object(object)?;
        machine.stack.drop_operands(count);
        machine.stack.push(Word::new(WordKind::Object(number)));
        Ok(())
    } else {
        Err(RunEnd::Trap {
            kind: TrapKind::Crowded,
            place,
        })
    }
}

/// Makes an object of the literal of a number.
pub fn make(code: &Code, machine: &mut Machine, place: Place, literal: u32) -> Result<(), RunEnd>
    requires loaded { IsLoaded code.now machine.old.stack.limits machine.old.store.first }
    requires sound { IsNotStuck (acting code.now 0 place machine.old.stack machine.old.store (New literal)) }
    ensures step { (d : DevicesState) → IsStep code.now machine.new.stack machine.new.store
        (acting code.now 0 place machine.old.stack machine.old.store (New literal)) d d result }
    ensures limits { machine.new.stack.limits ≡ machine.old.stack.limits }
    ensures first { machine.new.store.first ≡ machine.old.store.first }
{
    match literal_at(code, machine.stack.instance() as usize, literal as usize) {
        Some(kind) => make_object(code, machine, place, literal, kind),
        None => unreachable!(),
    }
}
