//! Calls on objects: the body of a method is entered.

ghost use Rattle.std.specs.Prelude.{◌≡◌, ◌<◌, ◌≤◌, length, slice_get, Some, Ok};
ghost use Rattle.wy_code.specs.Machine.{literal_of};
ghost use Rattle.wy_code.specs.Stores.{Object as ObjectWord};
ghost use Rattle.wy_code.specs.declared.instruction.Instruction.TheVariants.{Call};
ghost use Rattle.wy_device.specs.Devices.{DevicesState};
ghost use Rattle.wy_machine.specs.Calls.{number_called};
ghost use Rattle.wy_machine.specs.Loading.{IsLoaded};
ghost use Rattle.wy_machine.specs.Steps.{acting, IsNotStuck, IsStep};

use crate::lookup::{body_called, literal_at};
use crate::machine::Machine;
use crate::object::Object;
use wy_code::code::Code;
use wy_text::fault::Place;

/// The number of the body of an object's method; `None` exactly where there is none.
fn method_body(code: &Code, object: &Object, method: u32) -> Option<u32>
    ensures { result ≡ number_called (literal_of code.now object.now.instance object.now.literal) method }
{
    match literal_at(code, object.instance() as usize, object.literal() as usize) {
        Some(literal) => body_called(literal.methods.as_slice(), method),
        None => None,
    }
}

/// Enters the body of an object's method, with the object and the arguments, the topmost operands, as its
/// first slots.
#[inline(always)]
pub fn enter(
    code: &Code,
    depth: u32,
    machine: &mut Machine,
    place: Place,
    object: u32,
    method: u32,
    count: u32,
)
    requires receiver { slice_get machine.old.stack.running.operands count ≡ Some (ObjectWord object) }
    requires few { length machine.old.stack.callers < depth }
    requires loaded { IsLoaded code.now machine.old.stack.limits machine.old.store.first }
    requires deep { depth ≤ machine.old.stack.limits.depth }
    requires sound { IsNotStuck (acting code.now depth place machine.old.stack machine.old.store (Call method count)) }
    ensures step { (d : DevicesState) → IsStep code.now machine.new.stack machine.new.store
        (acting code.now depth place machine.old.stack machine.old.store (Call method count)) d d (Ok tt) }
    ensures limits { machine.new.stack.limits ≡ machine.old.stack.limits }
    ensures first { machine.new.store.first ≡ machine.old.store.first }
{
    match machine.store.object(object as usize) {
        Some(thing) => {
            let instance = thing.instance();
            match method_body(code, thing, method) {
                Some(number) => match code.bodies.get(number as usize) {
                    Some(body) => {
                        machine.stack.enter(instance, number, count, body.vals);
                    }
                    None => unreachable!(),
                },
                None => unreachable!(),
            }
        }
        None => unreachable!(),
    }
}
