//! Loading, and whole runs.

ghost use Rattle.std.specs.Prelude.{◌≡◌, ◌≤◌, length, IfOk};
ghost use Rattle.wy_code.specs.Running.{NeverStuck};
ghost use Rattle.wy_device.specs.Devices.{IsInOrder};
ghost use Rattle.wy_machine.specs.Devices.{states};
ghost use Rattle.wy_machine.specs.Loading as loading;
ghost use Rattle.wy_machine.specs.Loading.{IsLoaded};
ghost use Rattle.wy_machine.specs.Observed.{RunsObserved};
ghost use Rattle.wy_machine.specs.Observing.{instance_names};
ghost use Rattle.wy_machine.specs.Runs.{Runs};
ghost use Rattle.wy_machine.specs.Traces.{RunsTraced};
ghost use Rattle.wy_meaning.specs.Accounts.{unused};

use crate::devices::Devices;
use crate::instances::first_objects;
use crate::machine::Machine;
use crate::observed_run::run_observing;
use crate::observing::Silent;
use crate::run_end::RunEnd;
use crate::stack::{Limits, Stack};
use crate::store::Store;
use crate::tracing::Tracing;
use std::alloc::Global;
use std::marker::Model;
use wy_code::code::{Body, Code};
use wy_device::device::Device;
use wy_meaning::Used;
use wy_text::sink::Sink;
use wy_text::text::Memory;

/// Code that is to run, how many calls on objects may be open at once, and the state of its runs.
#[derive(Drop)]
pub struct Image<'a> {
    code: &'a Code,
    depth: u32,
    machine: Machine,
}

impl<'a> Model for Image<'a> {
    ghost use Rattle.std.specs.Prelude.{◌≤◌};
    ghost use Rattle.wy_machine.specs.Loading.{IsLoaded};
    ghost use Rattle.wy_machine.specs.Runs.{ImageState};

    ghost Value = { ImageState };

    ghost view = { λ i. record { code = i.code.now; depth = i.depth } };

    ghost invariant = { λ i. IsLoaded i.code.now i.machine.stack.limits i.machine.store.first × (i.depth ≤ i.machine.stack.limits.depth) };
}

/// How many slots and operands a body has at most.
fn most_words(bodies: &[Body]) -> usize
    ensures { result ≡ loading.most_words bodies.now }
{
    let mut most = 1;
    for body in bodies {
        let begun = 1 + body.parameters as usize + body.vals as usize;
        most = most.max(begun).max(body.slots as usize);
    }
    most
}

/// Takes code to run, and the space of all bodies that may be open and of the instances' objects: after it a
/// run takes memory only for `New`, for a text that it builds, and for a call on a grant.
pub fn load<'a>(alloc: Global, code: &'a Code, depth: u32) -> Result<Image<'a>, Memory>
    ensures { IfOk result (λ image. image ≡ record { code = code.now; depth = depth }) }
{
    if u32::try_from(code.instances.len()).is_err() {
        return Err(Memory);
    }
    let limits = Limits {
        words: most_words(code.bodies.as_slice()),
        depth,
    };
    let stack = Stack::new(alloc, limits)?;
    let objects = first_objects(alloc, code)?;
    let first = first_objects(alloc, code)?;
    let machine = Machine {
        stack,
        store: Store::new(alloc, objects, first),
    };
    Ok(Image {
        code,
        depth,
        machine,
    })
}

/// Runs code from its start, at most so many steps, before nobody.
fn run_code<D: Device>(
    code: &Code,
    depth: u32,
    machine: &mut Machine,
    devices: &mut Devices<D>,
    steps: u64,
) -> RunEnd
    requires order { IsInOrder (states D.state devices.old) }
    requires loaded { IsLoaded code.now machine.old.stack.limits machine.old.store.first }
    requires deep { depth ≤ machine.old.stack.limits.depth }
    requires sound { NeverStuck code.now }
    ensures runs { Runs code.now depth steps (states D.state devices.old) (states D.state devices.new) result }
    ensures limits { machine.new.stack.limits ≡ machine.old.stack.limits }
    ensures first { machine.new.store.first ≡ machine.old.store.first }
{
    run_observing(code, depth, machine, devices, steps, &mut Silent)
}

/// Runs code from its start, at most so many steps, before who writes the line of each event.
fn run_tracing<D: Device, O: Sink>(
    code: &Code,
    depth: u32,
    machine: &mut Machine,
    devices: &mut Devices<D>,
    steps: u64,
    tracing: &mut Tracing<'_, O>,
) -> RunEnd
    requires order { IsInOrder (states D.state devices.old) }
    requires loaded { IsLoaded code.now machine.old.stack.limits machine.old.store.first }
    requires deep { depth ≤ machine.old.stack.limits.depth }
    requires sound { NeverStuck code.now }
    ensures runs { RunsTraced code.now depth steps (states D.state devices.old) (states D.state devices.new) (O.state tracing.old.out.now) (O.state tracing.new.out.now) result }
    ensures same_reference { tracing.new.out.ghost_name ≡ tracing.old.out.ghost_name }
    ensures limits { machine.new.stack.limits ≡ machine.old.stack.limits }
    ensures first { machine.new.store.first ≡ machine.old.store.first }
{
    run_observing(code, depth, machine, devices, steps, tracing)
}

/// Runs code from its start, at most so many steps, and writes the line of each event.
fn run_code_traced<D: Device, O: Sink>(
    alloc: Global,
    code: &Code,
    depth: u32,
    machine: &mut Machine,
    devices: &mut Devices<D>,
    steps: u64,
    out: &mut O,
) -> RunEnd
    requires order { IsInOrder (states D.state devices.old) }
    requires loaded { IsLoaded code.now machine.old.stack.limits machine.old.store.first }
    requires deep { depth ≤ machine.old.stack.limits.depth }
    requires sound { NeverStuck code.now }
    ensures runs { RunsTraced code.now depth steps (states D.state devices.old) (states D.state devices.new) (O.state out.old) (O.state out.new) result }
    ensures limits { machine.new.stack.limits ≡ machine.old.stack.limits }
    ensures first { machine.new.store.first ≡ machine.old.store.first }
{
    let mut tracing = Tracing { alloc, out };
    run_tracing(code, depth, machine, devices, steps, &mut tracing)
}

/// Runs code from its start, at most so many steps, and keeps up what is used of each instance.
fn run_code_observed<D: Device>(
    code: &Code,
    depth: u32,
    machine: &mut Machine,
    devices: &mut Devices<D>,
    steps: u64,
    used: &mut Used<'_>,
) -> RunEnd
    requires order { IsInOrder (states D.state devices.old) }
    requires loaded { IsLoaded code.now machine.old.stack.limits machine.old.store.first }
    requires deep { depth ≤ machine.old.stack.limits.depth }
    requires sound { NeverStuck code.now }
    requires unused { used.old ≡ unused used.old.atoms (length (instance_names code.now)) }
    ensures runs { RunsObserved code.now depth steps (states D.state devices.old) (states D.state devices.new) used.old used.new result }
    ensures limits { machine.new.stack.limits ≡ machine.old.stack.limits }
    ensures first { machine.new.store.first ≡ machine.old.store.first }
{
    run_observing(code, depth, machine, devices, steps, used)
}

/// Runs the code from its start, at most so many steps.
pub fn run<D: Device>(image: &mut Image<'_>, devices: &mut Devices<D>, steps: u64) -> RunEnd
    requires order { IsInOrder (states D.state devices.old) }
    requires sound { NeverStuck image.old.code }
    ensures runs { Runs image.old.code image.old.depth steps (states D.state devices.old) (states D.state devices.new) result }
    ensures same { image.new ≡ image.old }
{
    run_code(image.code, image.depth, &mut image.machine, devices, steps)
}

/// Runs the code as `run` does, and writes the line of each event to `out` when it has happened
/// (docs/LANGUAGE.md, "Events"). Where the line of an event could not be written whole, the run ends at
/// that step, whatever it did: with `SinkFailed` only where the sink counted a fault, else with `Memory`.
/// A deed whose line is missing is the last one that was done.
pub fn run_traced<D: Device, O: Sink>(
    alloc: Global,
    image: &mut Image<'_>,
    devices: &mut Devices<D>,
    steps: u64,
    out: &mut O,
) -> RunEnd
    requires order { IsInOrder (states D.state devices.old) }
    requires sound { NeverStuck image.old.code }
    ensures runs { RunsTraced image.old.code image.old.depth steps (states D.state devices.old) (states D.state devices.new) (O.state out.old) (O.state out.new) result }
    ensures same { image.new ≡ image.old }
{
    run_code_traced(
        alloc,
        image.code,
        image.depth,
        &mut image.machine,
        devices,
        steps,
        out,
    )
}

/// Runs the code as `run` does, with the same answer, and keeps up what is used of each instance (docs/LANGUAGE.md,
/// "Observation"). It begins with nothing used of as many instances as the code has, and its program; where the names of
/// the instances are apart, what is kept then follows the events of this run. It takes no more memory than `run`.
pub fn run_observed<D: Device>(
    image: &mut Image<'_>,
    devices: &mut Devices<D>,
    steps: u64,
    used: &mut Used<'_>,
) -> RunEnd
    requires order { IsInOrder (states D.state devices.old) }
    requires sound { NeverStuck image.old.code }
    requires unused { used.old ≡ unused used.old.atoms (length (instance_names image.old.code)) }
    ensures runs { RunsObserved image.old.code image.old.depth steps (states D.state devices.old) (states D.state devices.new) used.old used.new result }
    ensures same { image.new ≡ image.old }
{
    run_code_observed(
        image.code,
        image.depth,
        &mut image.machine,
        devices,
        steps,
        used,
    )
}
