//! The observer that writes the line of each event.

ghost use Rattle.std.specs.Prelude.{◌≡◌, ◌∷◌, [], ◌≤◌, IfOk, slice_get};
ghost use Rattle.std.specs.Option.{option_copied};
ghost use Rattle.wy_code.specs.Machine.{all_instances, name_in};
ghost use Rattle.wy_device.specs.declared.deed.Event.TheVariants as event;
ghost use Rattle.wy_meaning.specs.EventLines as lines;
ghost use Rattle.wy_machine.specs.Observing.{entering, event_told};
ghost use Rattle.wy_machine.specs.States.{body_at};
ghost use Rattle.wy_machine.specs.Steps.{outcome};
ghost use Rattle.wy_machine.specs.Traces.{Wrote};

use crate::lookup::instance_at;
use crate::observing::Observer;
use crate::outcome::went_on;
use crate::run_end::RunEnd;
use std::alloc::Global;
use wy_code::code::Code;
use wy_device::deed::{Deed, Event};
use wy_device::operation::{Answer, Op};
use wy_meaning::event_line;
use wy_text::sink::{Sink, WriteError};
use wy_text::text::{Memory, Text, from_bytes};
use wy_text::writing::write_all;

/// Writes the line of each event to a sink, and ends the run where one cannot be written whole.
#[derive(Drop)]
pub struct Tracing<'o, O: Sink> {
    pub alloc: Global,
    pub out: &'o mut O,
}

/// The name of an instance, or of the program; none where there is none.
fn instance_name(alloc: Global, code: &Code, instance: u32) -> Result<Text, Memory>
    ensures { IfOk result (λ name. name ≡ name_in (slice_get (all_instances code.now) instance)) }
{
    match instance_at(code, instance as usize) {
        Some(instance) => instance.name.copy(),
        None => from_bytes(alloc, b""),
    }
}

/// The name of a body; none where there is none.
fn body_name(alloc: Global, code: &Code, body: u32) -> Result<Text, Memory>
    ensures { IfOk result (λ name. name ≡ (body_at code.now body).name) }
{
    match code.bodies.get(body as usize) {
        Some(body) => body.name.copy(),
        None => from_bytes(alloc, b""),
    }
}

/// That a body is entered.
fn entry(alloc: Global, code: &Code, instance: u32, body: u32) -> Result<Event, Memory>
    ensures { IfOk result (λ told. told ≡ event_told (entering code.now instance body)) }
{
    let instance = instance_name(alloc, code, instance)?;
    let body = body_name(alloc, code, body)?;
    Ok(Event::Enter { instance, body })
}

/// That an operation was done, or failed.
fn deed(grant: &Text, op: &Op, answer: Option<&Answer>) -> Result<Event, Memory>
    ensures { IfOk result (λ told. told ≡ event.Deed (record { grant = grant.now; op = op.now; answer = option_copied answer.entry })) }
{
    match answer {
        Some(answer) => Ok(Event::Deed(Deed::done(grant, op, answer)?)),
        None => Ok(Event::Deed(Deed::failed(grant, op)?)),
    }
}

/// The line of an event, which is let go.
fn line_of(alloc: Global, event: Event) -> Result<Text, Memory>
    ensures { IfOk result (λ line. line ≡ lines.event_line event) }
{
    let line = event_line(alloc, &event);
    // Let go here by one call, as an operation is in `performing`.
    drop(event);
    line
}

/// Writes the line of an event, as one piece.
fn write_event<O: Sink>(alloc: Global, event: Event, out: &mut O) -> Result<(), RunEnd>
    ensures wrote { Wrote (event ∷ []) (O.state out.old) (O.state out.new) result }
    ensures counted { (O.state out.old).faults ≤ (O.state out.new).faults }
{
    let line = line_of(alloc, event)?;
    match write_all(out, line.as_bytes()) {
        Ok(()) => Ok(()),
        Err(WriteError::Failed) => Err(RunEnd::SinkFailed),
        Err(WriteError::Memory) => Err(RunEnd::Memory),
    }
}

/// Writes that a body is entered.
fn write_entry<O: Sink>(
    alloc: Global,
    code: &Code,
    instance: u32,
    body: u32,
    out: &mut O,
) -> Result<(), RunEnd>
    ensures wrote { Wrote (event_told (entering code.now instance body) ∷ []) (O.state out.old) (O.state out.new) result }
    ensures counted { (O.state out.old).faults ≤ (O.state out.new).faults }
{
    let event = entry(alloc, code, instance, body)?;
    write_event(alloc, event, out)
}

/// Writes that an operation was done, or failed.
fn write_deed<O: Sink>(
    alloc: Global,
    grant: &Text,
    op: &Op,
    answer: Option<&Answer>,
    out: &mut O,
) -> Result<(), RunEnd>
    ensures wrote { Wrote (event.Deed (record { grant = grant.now; op = op.now; answer = option_copied answer.entry }) ∷ []) (O.state out.old) (O.state out.new) result }
    ensures counted { (O.state out.old).faults ≤ (O.state out.new).faults }
{
    let event = deed(grant, op, answer)?;
    write_event(alloc, event, out)
}

impl<'o, O: Sink> Observer for Tracing<'o, O> {
    ghost use Rattle.std.specs.Prelude.{◌≡◌, ◌≤◌, ◌∷◌, []};
    ghost use Rattle.wy_machine.specs.Observing.{event_told};
    ghost use Rattle.wy_machine.specs.Traces.{Wrote};

    ghost hears = { λ told a b r. (b.out.ghost_name ≡ a.out.ghost_name) × Wrote (event_told told ∷ []) (O.state a.out.now) (O.state b.out.now) r × ((O.state a.out.now).faults ≤ (O.state b.out.now).faults) };

    fn entered(&mut self, code: &Code, instance: u32, body: u32, end: &mut RunEnd) -> bool {
        went_on(write_entry(self.alloc, code, instance, body, self.out), end)
    }

    fn left(&mut self, _instance: u32, end: &mut RunEnd) -> bool {
        went_on(write_event(self.alloc, Event::Leave, self.out), end)
    }

    fn performed(
        &mut self,
        grant: &Text,
        op: &Op,
        answer: Option<&Answer>,
        end: &mut RunEnd,
    ) -> bool {
        went_on(write_deed(self.alloc, grant, op, answer, self.out), end)
    }
}
