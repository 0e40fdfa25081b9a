//! One step: the instruction that comes next.

ghost use Rattle.std.specs.Prelude.{◌≡◌, ◌+◌, ◌<◌, ◌≤◌, length, slice_get, Some, false, true};
ghost use Rattle.wy_code.specs.Machine as machine;
ghost use Rattle.wy_code.specs.declared.instruction.Instruction.TheVariants.{Op, New, Call, Finish};
ghost use Rattle.wy_code.specs.Stores.{Grant as GrantWord};
ghost use Rattle.wy_device.specs.Devices.{DevicesState, IsInOrder};
ghost use Rattle.wy_machine.specs.declared.run_end.RunEnd.TheVariants.{TooDeep};
ghost use Rattle.wy_machine.specs.Devices.{states};
ghost use Rattle.wy_machine.specs.Loading.{IsLoaded};
ghost use Rattle.wy_machine.specs.Stacks.{at_address};
ghost use Rattle.wy_machine.specs.States.{body_at};
ghost use Rattle.wy_machine.specs.Observing.{IsObserved};
ghost use Rattle.wy_machine.specs.Steps.{acting, stepping, outcome, IsNotStuck, IsStep};
ghost use Rattle.wy_machine.specs.Wanting.{builds_text, is_grant, takes_memory, next_takes, WantsOnly};

use crate::building::operate;
use crate::calls::enter;
use crate::devices::Devices;
use crate::machine::Machine;
use crate::making::make;
use crate::observing::Observer;
use crate::operators::computed_plainly;
use crate::outcome::went_on;
use crate::performing::perform;
use crate::run_end::RunEnd;
use crate::stack::Stack;
use crate::starting::finish;
use crate::word::{Word, WordKind};
use wy_code::code::Code;
use wy_code::instruction::{Constant, Instruction, Operator, Placed};
use wy_device::device::Device;
use wy_text::fault::Place;

/// The instruction that comes next; the body goes on after it.
fn fetch<'c>(code: &'c Code, stack: &mut Stack) -> &'c Placed
    requires { stack.old.running.at < length (body_at code.now stack.old.running.body).instructions }
    ensures next { slice_get (body_at code.now stack.old.running.body).instructions stack.old.running.at ≡ Some result.now }
    ensures after { stack.new ≡ at_address (stack.old.running.at + 1) stack.old }
{
    let at = stack.at();
    match code.bodies.get(stack.body() as usize) {
        Some(body) => match body.instructions.as_slice().get(at) {
            Some(placed) => {
                stack.jump(at + 1);
                placed
            }
            None => unreachable!(),
        },
        None => unreachable!(),
    }
}

/// The word of a constant.
fn constant_word(constant: Constant) -> Word
    ensures { result ≡ machine.word_of constant }
{
    match constant {
        Constant::Int(number) => Word::new(WordKind::Int(number)),
        Constant::Truth(truth) => Word::new(WordKind::Truth(truth)),
        Constant::Unit => Word::new(WordKind::Unit),
        Constant::Text(text) => Word::new(WordKind::Text(text)),
        Constant::Grant(grant) => Word::new(WordKind::Grant(grant)),
        Constant::Instance(instance) => Word::new(WordKind::Object(u32::from(instance))),
    }
}

/// Does any operator; gives whether the run goes on, else how it ends is put aside.
#[inline(never)]
fn operate_or_end(
    code: &Code,
    machine: &mut Machine,
    place: &Place,
    operator: Operator,
    end: &mut RunEnd,
) -> bool
    requires { IsNotStuck (acting code.now 0 place.now machine.old.stack machine.old.store (Op operator)) }
    ensures step { (d : DevicesState) → IsStep code.now machine.new.stack machine.new.store
        (acting code.now 0 place.now machine.old.stack machine.old.store (Op operator)) d d (outcome result end.new) }
    ensures wants { WantsOnly (builds_text operator) (outcome result end.new) }
    ensures limits { machine.new.stack.limits ≡ machine.old.stack.limits }
    ensures first { machine.new.store.first ≡ machine.old.store.first }
{
    went_on(operate(code, machine, *place, operator), end)
}

/// Does an operator, by the short way where there is one; gives whether the run goes on, else how it ends is put aside.
#[inline(always)]
fn do_operator(
    code: &Code,
    machine: &mut Machine,
    place: &Place,
    operator: Operator,
    end: &mut RunEnd,
) -> bool
    requires { IsNotStuck (acting code.now 0 place.now machine.old.stack machine.old.store (Op operator)) }
    ensures step { (d : DevicesState) → IsStep code.now machine.new.stack machine.new.store
        (acting code.now 0 place.now machine.old.stack machine.old.store (Op operator)) d d (outcome result end.new) }
    ensures wants { WantsOnly (builds_text operator) (outcome result end.new) }
    ensures limits { machine.new.stack.limits ≡ machine.old.stack.limits }
    ensures first { machine.new.store.first ≡ machine.old.store.first }
{
    match computed_plainly(&machine.stack, operator) {
        Some(word) => {
            machine.stack.give(2, word);
            true
        }
        None => operate_or_end(code, machine, place, operator, end),
    }
}

/// Makes an object; gives whether the run goes on, else how it ends is put aside.
#[inline(never)]
fn make_or_end(
    code: &Code,
    machine: &mut Machine,
    place: &Place,
    literal: u32,
    end: &mut RunEnd,
) -> bool
    requires loaded { IsLoaded code.now machine.old.stack.limits machine.old.store.first }
    requires sound { IsNotStuck (acting code.now 0 place.now machine.old.stack machine.old.store (New literal)) }
    ensures step { (d : DevicesState) → IsStep code.now machine.new.stack machine.new.store
        (acting code.now 0 place.now machine.old.stack machine.old.store (New literal)) d d (outcome result end.new) }
    ensures limits { machine.new.stack.limits ≡ machine.old.stack.limits }
    ensures first { machine.new.store.first ≡ machine.old.store.first }
{
    went_on(make(code, machine, *place, literal), end)
}

/// Ends the body that an instance starts with, and tells so; gives whether the run goes on, else how it ends is put aside.
#[inline(never)]
fn finish_or_end<W: Observer>(
    code: &Code,
    machine: &mut Machine,
    place: &Place,
    observer: &mut W,
    end: &mut RunEnd,
) -> bool
    requires loaded { IsLoaded code.now machine.old.stack.limits machine.old.store.first }
    requires sound { IsNotStuck (acting code.now 0 place.now machine.old.stack machine.old.store Finish) }
    ensures step { (d : DevicesState) → IsObserved W.hears code.now machine.old.stack.running.instance machine.new.stack machine.new.store
        (acting code.now 0 place.now machine.old.stack machine.old.store Finish) false d d observer.old observer.new (outcome result end.new) }
    ensures limits { machine.new.stack.limits ≡ machine.old.stack.limits }
    ensures first { machine.new.store.first ≡ machine.old.store.first }
{
    let instance = machine.stack.instance();
    let own = finish(code, machine, *place);
    if !observer.left(instance, end) {
        drop(own);
        return false;
    }
    match own {
        Ok(()) => observer.entered(code, machine.stack.instance(), machine.stack.body(), end),
        Err(stop) => {
            *end = stop;
            false
        }
    }
}

/// Does a call on the grant of a number; gives whether the run goes on, else how it ends is put aside.
#[inline(never)]
fn perform_or_end<D: Device, W: Observer>(
    code: &Code,
    depth: u32,
    machine: &mut Machine,
    devices: &mut Devices<D>,
    place: &Place,
    method: u32,
    count: u32,
    grant: u16,
    observer: &mut W,
    end: &mut RunEnd,
) -> bool
    requires order { IsInOrder (states D.state devices.old) }
    requires receiver { slice_get machine.old.stack.running.operands count ≡ Some (GrantWord grant) }
    requires sound { IsNotStuck (acting code.now depth place.now machine.old.stack machine.old.store (Call method count)) }
    ensures step { IsObserved W.hears code.now machine.old.stack.running.instance machine.new.stack machine.new.store
        (acting code.now depth place.now machine.old.stack machine.old.store (Call method count)) true (states D.state devices.old) (states D.state devices.new) observer.old observer.new (outcome result end.new) }
    ensures limits { machine.new.stack.limits ≡ machine.old.stack.limits }
    ensures first { machine.new.store.first ≡ machine.old.store.first }
{
    went_on(
        perform(
            code, depth, machine, devices, *place, method, count, grant, observer,
        ),
        end,
    )
}

/// Puts aside that a call was too deep: the run does not go on.
#[inline(never)]
fn end_too_deep(end: &mut RunEnd) -> bool
    ensures stops { result ≡ false }
    ensures deep { end.new ≡ TooDeep }
{
    *end = RunEnd::TooDeep;
    false
}

/// Calls a method of the word below the arguments, an object or a grant. Gives whether the run goes on; else how
/// it ends is put aside.
fn call<D: Device, W: Observer>(
    code: &Code,
    depth: u32,
    machine: &mut Machine,
    devices: &mut Devices<D>,
    place: &Place,
    method: u32,
    count: u32,
    observer: &mut W,
    end: &mut RunEnd,
) -> bool
    requires order { IsInOrder (states D.state devices.old) }
    requires loaded { IsLoaded code.now machine.old.stack.limits machine.old.store.first }
    requires deep { depth ≤ machine.old.stack.limits.depth }
    requires sound { IsNotStuck (acting code.now depth place.now machine.old.stack machine.old.store (Call method count)) }
    ensures step { IsObserved W.hears code.now machine.old.stack.running.instance machine.new.stack machine.new.store
        (acting code.now depth place.now machine.old.stack machine.old.store (Call method count)) (is_grant (slice_get machine.old.stack.running.operands count)) (states D.state devices.old) (states D.state devices.new) observer.old observer.new (outcome result end.new) }
    ensures limits { machine.new.stack.limits ≡ machine.old.stack.limits }
    ensures first { machine.new.store.first ≡ machine.old.store.first }
{
    match machine.stack.operand(count as usize).kind() {
        WordKind::Object(object) => {
            if machine.stack.waiting() < depth as usize {
                enter(code, depth, machine, *place, object, method, count);
                observer.entered(code, machine.stack.instance(), machine.stack.body(), end)
            } else {
                end_too_deep(end)
            }
        }
        WordKind::Grant(grant) => perform_or_end(
            code, depth, machine, devices, place, method, count, grant, observer, end,
        ),
        WordKind::Int(_) => unreachable!(),
        WordKind::Truth(_) => unreachable!(),
        WordKind::Unit => unreachable!(),
        WordKind::Text(_) => unreachable!(),
    }
}

/// Does an instruction, as `call` does a call.
#[inline(always)]
fn act<D: Device, W: Observer>(
    code: &Code,
    depth: u32,
    machine: &mut Machine,
    devices: &mut Devices<D>,
    placed: &Placed,
    observer: &mut W,
    end: &mut RunEnd,
) -> bool
    requires order { IsInOrder (states D.state devices.old) }
    requires loaded { IsLoaded code.now machine.old.stack.limits machine.old.store.first }
    requires deep { depth ≤ machine.old.stack.limits.depth }
    requires sound { IsNotStuck (acting code.now depth placed.now.place machine.old.stack machine.old.store placed.now.instruction) }
    ensures step { IsObserved W.hears code.now machine.old.stack.running.instance machine.new.stack machine.new.store
        (acting code.now depth placed.now.place machine.old.stack machine.old.store placed.now.instruction) (takes_memory placed.now.instruction machine.old.stack.running.operands) (states D.state devices.old) (states D.state devices.new) observer.old observer.new (outcome result end.new) }
    ensures limits { machine.new.stack.limits ≡ machine.old.stack.limits }
    ensures first { machine.new.store.first ≡ machine.old.store.first }
{
    match placed.instruction {
        Instruction::Push(constant) => {
            machine.stack.push(constant_word(constant));
            true
        }
        Instruction::Load(slot) => {
            machine.stack.load(slot as usize);
            true
        }
        Instruction::Store(slot) => {
            machine.stack.store(slot as usize);
            true
        }
        Instruction::Get(at) => {
            machine.get(at as usize);
            true
        }
        Instruction::Set(at) => {
            machine.set(at as usize);
            true
        }
        Instruction::Drop => {
            machine.stack.drop_operands(1);
            true
        }
        Instruction::Op(operator) => do_operator(code, machine, &placed.place, operator, end),
        Instruction::Jump(to) => {
            machine.stack.jump(to as usize);
            true
        }
        Instruction::JumpFalse(to) => {
            machine.stack.jump_false(to as usize);
            true
        }
        Instruction::New(literal) => make_or_end(code, machine, &placed.place, literal, end),
        Instruction::Call(method, count) => call(
            code,
            depth,
            machine,
            devices,
            &placed.place,
            method,
            count,
            observer,
            end,
        ),
        Instruction::Return => {
            let instance = machine.stack.instance();
            let word = machine.stack.pop();
            machine.stack.leave(word);
            observer.left(instance, end)
        }
        Instruction::Finish => finish_or_end(code, machine, &placed.place, observer, end),
    }
}

/// One step of a run: gives whether the run goes on; else how it ends is put aside.
#[inline(always)]
pub fn step<D: Device, W: Observer>(
    code: &Code,
    depth: u32,
    machine: &mut Machine,
    devices: &mut Devices<D>,
    observer: &mut W,
    end: &mut RunEnd,
) -> bool
    requires order { IsInOrder (states D.state devices.old) }
    requires loaded { IsLoaded code.now machine.old.stack.limits machine.old.store.first }
    requires deep { depth ≤ machine.old.stack.limits.depth }
    requires sound { IsNotStuck (stepping code.now depth machine.old.stack machine.old.store) }
    ensures step { IsObserved W.hears code.now machine.old.stack.running.instance machine.new.stack machine.new.store
        (stepping code.now depth machine.old.stack machine.old.store) (next_takes code.now machine.old.stack) (states D.state devices.old) (states D.state devices.new) observer.old observer.new (outcome result end.new) }
    ensures limits { machine.new.stack.limits ≡ machine.old.stack.limits }
    ensures first { machine.new.store.first ≡ machine.old.store.first }
{
    let placed = fetch(code, &mut machine.stack);
    act(code, depth, machine, devices, placed, observer, end)
}
