//! Calls on grants: their traps, and then the device.

ghost use Rattle.std.specs.Prelude.{◌≡◌, ◌≢◌, ◌<◌, length, slice_get, true, IfOk, Some, None};
ghost use Rattle.wy_code.specs.Stores.{Grant as GrantWord};
ghost use Rattle.wy_code.specs.declared.instruction.Instruction.TheVariants.{Call};
ghost use Rattle.wy_device.specs.Devices.{IsInOrder};
ghost use Rattle.wy_machine.specs.Devices.{states};
ghost use Rattle.wy_device.specs.Requests as requests;
ghost use Rattle.wy_machine.specs.Requesting.{is_answered_by_text, HasPlace, word_received, store_received, IsReceived, IsAsking, IsRequest};
ghost use Rattle.wy_machine.specs.Observing.{Did, EndsByFailure, IsObserved};
ghost use Rattle.wy_machine.specs.Steps.{acting, IsNotStuck};
ghost use Rattle.wy_machine.specs.Wanting.{TrapsFirst};

use crate::building::next_text;
use crate::deeds::{requested, text_in, word_in};
use crate::devices::Devices;
use crate::machine::Machine;
use crate::observing::Observer;
use crate::outcome::came;
use crate::requests::{answers_text, operation_called, refusal};
use crate::run_end::RunEnd;
use crate::store::Store;
use crate::word::{Word, WordKind};
use wy_code::code::{Code, Grant};
use wy_device::device::{Device, DeviceError};
use wy_device::operation::{Answer, Op, OpName};
use wy_text::fault::Place;
use wy_text::text::{Memory, Text};

/// Makes the place of the text that answers an operation, where one does, and gives its number.
fn make_place(code: &Code, store: &mut Store, operation: OpName) -> Result<Option<u32>, Memory>
    ensures made { IfOk result (HasPlace code.now store.old store.new (is_answered_by_text operation)) }
    ensures first { store.new.first ≡ store.old.first }
{
    if answers_text(operation) {
        let number = next_text(code, store)?;
        store.make_room()?;
        Ok(Some(number))
    } else {
        Ok(None)
    }
}

/// The word of an answer; a text is put into the place that was made for it. `None` exactly where it does not fit.
fn received(store: &mut Store, place: Option<u32>, answer: Answer) -> Option<Word>
    requires { place ≢ None → 0 < length store.old.texts }
    ensures word { result ≡ word_received place answer }
    ensures kept { store.new ≡ store_received place answer store.old }
{
    match place {
        Some(number) => match text_in(answer) {
            Some(text) => {
                store.fill_room(text);
                Some(Word::new(WordKind::Text(number)))
            }
            None => None,
        },
        None => word_in(answer),
    }
}

/// Takes an answer where a call with so many arguments asked for it.
fn receive(machine: &mut Machine, place: Option<u32>, answer: Answer, count: u32)
    requires place { place ≢ None → 0 < length machine.old.store.texts }
    requires fits { word_received place answer ≢ None }
    requires there { count < length machine.old.stack.running.operands }
    ensures { IsReceived place answer count machine.old.stack machine.new.stack machine.old.store machine.new.store }
{
    match received(&mut machine.store, place, answer) {
        Some(word) => machine.stack.give(count as usize + 1, word),
        None => unreachable!(),
    }
}

/// Tells the observer what an operation was answered, and takes the answer.
fn tell_and_receive<W: Observer>(
    machine: &mut Machine,
    place: Option<u32>,
    count: u32,
    grant: &Text,
    op: &Op,
    answer: Answer,
    observer: &mut W,
) -> Result<(), RunEnd>
    requires place { place ≢ None → 0 < length machine.old.store.texts }
    requires fits { word_received place answer ≢ None }
    requires there { count < length machine.old.stack.running.operands }
    ensures told { W.hears (Did (record { grant = grant.now; op = op.now; answer = Some answer })) observer.old observer.new result }
    ensures received { IsReceived place answer count machine.old.stack machine.new.stack machine.old.store machine.new.store }
{
    let mut end = RunEnd::Spent;
    let told = observer.performed(grant, op, Some(&answer), &mut end);
    receive(machine, place, answer, count);
    came(told, end)
}

/// Tells the observer that an operation failed, which ends the run.
fn tell_and_fail<W: Observer>(grant: Text, op: &Op, observer: &mut W) -> Result<(), RunEnd>
    ensures { EndsByFailure W.hears (record { grant = grant; op = op.now; answer = None }) observer.old observer.new result }
{
    let mut end = RunEnd::Spent;
    if observer.performed(&grant, op, None, &mut end) {
        drop(end);
        Err(RunEnd::DeviceFailed {
            grant,
            op: op.name(),
        })
    } else {
        Err(end)
    }
}

/// Asks the device for an operation whose name is good, where a text may be built if it answers one. The text's place
/// and the grant's name are there before the device is asked, so that its answer is kept, and its failure told. The
/// observer is told what was asked and answered.
fn ask<D: Device, W: Observer>(
    code: &Code,
    depth: u32,
    machine: &mut Machine,
    devices: &mut Devices<D>,
    place: Place,
    method: u32,
    count: u32,
    grant: &Grant,
    op: &Op,
    observer: &mut W,
) -> Result<(), RunEnd>
    requires order { IsInOrder (states D.state devices.old) }
    requires request { IsRequest code.now machine.old.stack machine.old.store method count grant.now op.now }
    requires good { requests.has_good_name op.now ≡ true }
    requires room { requests.answers_text op.now ≡ true → length machine.old.store.texts < 4194304 }
    requires sound { IsNotStuck (acting code.now depth place machine.old.stack machine.old.store (Call method count)) }
    ensures step { IsObserved W.hears code.now machine.old.stack.running.instance machine.new.stack machine.new.store
        (acting code.now depth place machine.old.stack machine.old.store (Call method count)) true (states D.state devices.old) (states D.state devices.new) observer.old observer.new result }
    ensures limits { machine.new.stack.limits ≡ machine.old.stack.limits }
    ensures first { machine.new.store.first ≡ machine.old.store.first }
{
    let text = make_place(code, &mut machine.store, op.name())?;
    let name = grant.name.copy()?;
    match devices.ask(&grant.name, op) {
        Ok(answer) => tell_and_receive(machine, text, count, &grant.name, op, answer, observer),
        Err(DeviceError::Failed) => tell_and_fail(name, op, observer),
        Err(DeviceError::Memory) => Err(RunEnd::Memory),
    }
}

/// Does an operation that was asked for: where it is refused it traps; else memory is taken, and the device is asked.
fn request<D: Device, W: Observer>(
    code: &Code,
    depth: u32,
    machine: &mut Machine,
    devices: &mut Devices<D>,
    place: Place,
    method: u32,
    count: u32,
    grant: &Grant,
    operation: OpName,
    observer: &mut W,
) -> Result<(), RunEnd>
    requires order { IsInOrder (states D.state devices.old) }
    requires asking { IsAsking code.now machine.old.stack method count grant.now operation }
    requires sound { IsNotStuck (acting code.now depth place machine.old.stack machine.old.store (Call method count)) }
    ensures step { IsObserved W.hears code.now machine.old.stack.running.instance machine.new.stack machine.new.store
        (acting code.now depth place machine.old.stack machine.old.store (Call method count)) true (states D.state devices.old) (states D.state devices.new) observer.old observer.new result }
    ensures traps { TrapsFirst (acting code.now depth place machine.old.stack machine.old.store (Call method count)) result }
    ensures limits { machine.new.stack.limits ≡ machine.old.stack.limits }
    ensures first { machine.new.store.first ≡ machine.old.store.first }
{
    match refusal(
        code,
        &machine.store,
        operation,
        machine.stack.arguments(count as usize),
    ) {
        Some(kind) => Err(RunEnd::Trap { kind, place }),
        None => match requested(code, machine, operation, count as usize)? {
            Some(op) => {
                let asked = ask(
                    code, depth, machine, devices, place, method, count, grant, &op, observer,
                );
                // Let go here by one call: at the end of the arm each of its texts would be proved dropped by itself.
                drop(op);
                asked
            }
            None => unreachable!(),
        },
    }
}

/// Does a call on the grant of a number.
pub fn perform<D: Device, W: Observer>(
    code: &Code,
    depth: u32,
    machine: &mut Machine,
    devices: &mut Devices<D>,
    place: Place,
    method: u32,
    count: u32,
    number: u16,
    observer: &mut W,
) -> Result<(), RunEnd>
    requires order { IsInOrder (states D.state devices.old) }
    requires receiver { slice_get machine.old.stack.running.operands count ≡ Some (GrantWord number) }
    requires sound { IsNotStuck (acting code.now depth place machine.old.stack machine.old.store (Call method count)) }
    ensures step { IsObserved W.hears code.now machine.old.stack.running.instance machine.new.stack machine.new.store
        (acting code.now depth place machine.old.stack machine.old.store (Call method count)) true (states D.state devices.old) (states D.state devices.new) observer.old observer.new result }
    ensures traps { TrapsFirst (acting code.now depth place machine.old.stack machine.old.store (Call method count)) result }
    ensures limits { machine.new.stack.limits ≡ machine.old.stack.limits }
    ensures first { machine.new.store.first ≡ machine.old.store.first }
{
    match code.grants.get(number as usize) {
        Some(grant) => match code.methods.get(method as usize) {
            Some(name) => match operation_called(grant.primitive, name.as_bytes()) {
                Some(operation) => request(
                    code, depth, machine, devices, place, method, count, grant, operation, observer,
                ),
                None => unreachable!(),
            },
            None => unreachable!(),
        },
        None => unreachable!(),
    }
}
