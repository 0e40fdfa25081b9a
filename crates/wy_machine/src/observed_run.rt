//! Whole runs before an observer.

ghost use Rattle.std.specs.Prelude.{◌≡◌, ◌≤◌, false, IfErr};
ghost use Rattle.wy_code.specs.Running.{NeverStuck};
ghost use Rattle.wy_device.specs.Devices.{DevicesState, IsInOrder};
ghost use Rattle.wy_machine.specs.declared.run_end.RunEnd.TheVariants.{Ended};
ghost use Rattle.wy_machine.specs.Devices.{states};
ghost use Rattle.wy_machine.specs.Loading.{IsLoaded};
ghost use Rattle.wy_machine.specs.Observing.{IsObserved, RunsTold};
ghost use Rattle.wy_machine.specs.Steps.{starting, outcome, IsNotStuck, IsStep};

use crate::devices::Devices;
use crate::machine::Machine;
use crate::observing::Observer;
use crate::outcome::went_on;
use crate::run_end::RunEnd;
use crate::starting::begin;
use crate::step::step;
use wy_code::code::Code;
use wy_device::device::Device;

/// Begins a run; nothing of an earlier one is left. It takes no memory.
fn start(code: &Code, machine: &mut Machine) -> Result<(), RunEnd>
    requires loaded { IsLoaded code.now machine.old.stack.limits machine.old.store.first }
    requires sound { IsNotStuck (starting code.now) }
    ensures step { (d : DevicesState) → IsStep code.now machine.new.stack machine.new.store (starting code.now) d d result }
    ensures ends { IfErr result (λ end. end ≡ Ended) }
    ensures limits { machine.new.stack.limits ≡ machine.old.stack.limits }
    ensures first { machine.new.store.first ≡ machine.old.store.first }
{
    machine.store.restart();
    begin(code, machine)
}

/// Begins a run, and tells so; gives whether the run goes on, else how it ends is put aside.
fn start_or_end<W: Observer>(
    code: &Code,
    machine: &mut Machine,
    observer: &mut W,
    end: &mut RunEnd,
) -> bool
    requires loaded { IsLoaded code.now machine.old.stack.limits machine.old.store.first }
    requires sound { IsNotStuck (starting code.now) }
    ensures step { (d : DevicesState) → IsObserved W.hears code.now 0 machine.new.stack machine.new.store (starting code.now) false d d observer.old observer.new (outcome result end.new) }
    ensures limits { machine.new.stack.limits ≡ machine.old.stack.limits }
    ensures first { machine.new.store.first ≡ machine.old.store.first }
{
    if went_on(start(code, machine), end) {
        observer.entered(code, machine.stack.instance(), machine.stack.body(), end)
    } else {
        false
    }
}

/// Runs code from its start, at most so many steps, and tells of each event when it has happened.
pub fn run_observing<D: Device, W: Observer>(
    code: &Code,
    depth: u32,
    machine: &mut Machine,
    devices: &mut Devices<D>,
    steps: u64,
    observer: &mut W,
) -> RunEnd
    requires order { IsInOrder (states D.state devices.old) }
    requires loaded { IsLoaded code.now machine.old.stack.limits machine.old.store.first }
    requires deep { depth ≤ machine.old.stack.limits.depth }
    requires sound { NeverStuck code.now }
    ensures runs { RunsTold W.hears code.now depth steps (states D.state devices.old) (states D.state devices.new) observer.old observer.new result }
    ensures limits { machine.new.stack.limits ≡ machine.old.stack.limits }
    ensures first { machine.new.store.first ≡ machine.old.store.first }
{
    let mut end = RunEnd::Spent;
    if !start_or_end(code, machine, observer, &mut end) {
        return end;
    }
    for done in 0..steps {
        if !step(code, depth, machine, devices, observer, &mut end) {
            return end;
        }
    }
    // Let go here by one call: at the end each of its texts would be proved dropped by itself.
    drop(end);
    RunEnd::Spent
}
