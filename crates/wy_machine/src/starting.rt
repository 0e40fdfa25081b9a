//! The instances one after the other, and then the program.

ghost use Rattle.std.specs.Prelude.{◌≡◌, List, [], IfErr};
ghost use Rattle.wy_code.specs.Machine as machine;
ghost use Rattle.wy_code.specs.declared.instruction.Instruction.TheVariants.{Finish};
ghost use Rattle.wy_device.specs.Devices.{DevicesState};
ghost use Rattle.wy_device.specs.declared.deed.Event.{Event};
ghost use Rattle.wy_machine.specs.declared.run_end.RunEnd.TheVariants.{Ended};
ghost use Rattle.wy_machine.specs.Loading.{IsLoaded};
ghost use Rattle.wy_machine.specs.Steps.{acting, beginning, AreQuiet, IsNotStuck, IsStep};

use crate::lookup::{instance_at, start_of};
use crate::machine::Machine;
use crate::run_end::RunEnd;
use crate::word::{Word, WordKind};
use wy_code::code::Code;
use wy_text::fault::Place;

/// The current object of a body that starts: the instance's own, and none for the program.
fn this_at_start(code: &Code, instance: u32) -> Word
    ensures { result ≡ machine.this_at_start code.now instance }
{
    if (instance as usize) < code.instances.len() {
        Word::new(WordKind::Object(instance))
    } else {
        Word::new(WordKind::Unit)
    }
}

/// Begins the instance that starts next, or the program, or ends the run where nothing is left to start.
pub fn begin(code: &Code, machine: &mut Machine) -> Result<(), RunEnd>
    requires loaded { IsLoaded code.now machine.old.stack.limits machine.old.store.first }
    requires sound { IsNotStuck (beginning code.now [] machine.old.store) }
    ensures step { (events : List Event) → AreQuiet events → (d : DevicesState) → IsStep code.now machine.new.stack machine.new.store
        (beginning code.now events machine.old.store) d d result }
    ensures ends { IfErr result (λ end. end ≡ Ended) }
    ensures limits { machine.new.stack.limits ≡ machine.old.stack.limits }
    ensures first { machine.new.store.first ≡ machine.old.store.first }
{
    let next = machine.store.next();
    match instance_at(code, next) {
        Some(instance) => match code.scopes.get(instance.scope as usize) {
            Some(scope) => match start_of(code, scope) {
                Some(body) => {
                    let number = next as u32;
                    let this = this_at_start(code, number);
                    machine.stack.begin(number, scope.start, this, body.vals);
                    machine.store.count_next();
                    Ok(())
                }
                None => unreachable!(),
            },
            None => unreachable!(),
        },
        None => Err(RunEnd::Ended),
    }
}

/// Ends the body that an instance starts with, and begins what starts next.
pub fn finish(code: &Code, machine: &mut Machine, place: Place) -> Result<(), RunEnd>
    requires loaded { IsLoaded code.now machine.old.stack.limits machine.old.store.first }
    requires sound { IsNotStuck (acting code.now 0 place machine.old.stack machine.old.store Finish) }
    ensures step { (d : DevicesState) → IsStep code.now machine.new.stack machine.new.store
        (acting code.now 0 place machine.old.stack machine.old.store Finish) d d result }
    ensures ends { IfErr result (λ end. end ≡ Ended) }
    ensures limits { machine.new.stack.limits ≡ machine.old.stack.limits }
    ensures first { machine.new.store.first ≡ machine.old.store.first }
{
    begin(code, machine)
}
