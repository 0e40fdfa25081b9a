//! What the machine does, with expected answers from docs/LANGUAGE.md.

ghost use Rattle.std.specs.Prelude.{◌≡◌, IfOk};

use crate::asking::read;
use std::alloc::Global;
use std::test::Fail;
use wy_device::device::{Device, DeviceError};
use wy_device::handed::Handed;
use wy_device::operation::{Kind, Op};
use wy_device::shut::Shut;
use wy_machine::devices::Devices;
use wy_machine::devices::handing_in::devices;
use wy_memory::MemConsole;
use wy_text::list::Items;
use wy_text::text::{Memory, from_bytes};

/// A console with a line.
fn console(alloc: Global) -> Result<Handed, Fail>
    ensures { IfOk result (λ device. (⟦<Handed as Device>⟧.state device).kind ≡ Kind.Console) }
{
    let console = MemConsole::new(alloc, from_bytes(alloc, b"line\n")?, Items::new(alloc))?;
    let console: Box<dyn Device> = Box::new(alloc, console)?;
    Ok(Handed::new(console))
}

/// A shut device.
fn shut(alloc: Global, kind: Kind) -> Result<Handed, Fail>
    ensures { IfOk result (λ device. (⟦<Handed as Device>⟧.state device).kind ≡ kind) }
{
    let device: Box<dyn Device> = Box::new(alloc, Shut::new(kind))?;
    Ok(Handed::new(device))
}

fn handed_in(alloc: Global) -> Result<Devices<Handed>, Fail> {
    Ok(devices(
        console(alloc)?,
        shut(alloc, Kind::Folder)?,
        shut(alloc, Kind::Clock)?,
        shut(alloc, Kind::Random)?,
    ))
}

/// Whether a console gives its line, and a clock is shut.
fn are_given_back(alloc: Global, console: &mut Handed, clock: &mut Handed) -> Result<bool, Memory> {
    if clock.kind() != Kind::Clock {
        return Ok(false);
    }
    let grant = from_bytes(alloc, b"c")?;
    Ok(
        matches!(
            clock.perform(&grant, &Op::ClockNow),
            Err(DeviceError::Failed)
        ) && read(alloc, console)?.as_bytes() == b"line\n".as_slice(),
    )
}

#[test]
fn devices_are_handed_in_and_given_back(rt: HostRuntime) -> Result<(), Fail> {
    let all = handed_in(rt.alloc())?;
    assert!(rt; all.deeds(Kind::Console).is_some() && all.deeds(Kind::Clock).is_none());
    let (mut console, _folder, mut clock, _random) = all.parts();
    assert!(rt; are_given_back(rt.alloc(), &mut console, &mut clock)?);
    Ok(())
}
