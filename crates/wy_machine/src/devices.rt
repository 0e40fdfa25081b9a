//! The four devices that a run asks.

ghost use Rattle.std.specs.Prelude.{◌≡◌};
ghost use Rattle.std.specs.Option.{option_copied};
ghost use Rattle.wy_device.specs.Devices.{IsInOrder, device_of};
ghost use Rattle.wy_machine.specs.Devices.{states};
ghost use Rattle.wy_machine.specs.Runs.{IsAsked};

pub mod handing_in;

use wy_device::deed::DeedList;
use wy_device::device::{Device, DeviceError};
use wy_device::operation::{Answer, Kind, Op};
use wy_text::text::Text;

/// One device of each kind. They are reached by runs of code alone.
#[derive(Drop)]
pub struct Devices<D: Device> {
    console: D,
    folder: D,
    clock: D,
    random: D,
}

impl<D: Device> Devices<D> {
    /// The deeds of the device of a kind, where it tells them; `None` exactly where it does not.
    /// It takes no memory.
    pub fn deeds(&self, kind: Kind) -> Option<&DeedList>
        ensures { option_copied result ≡ (device_of (states D.state self.now) kind).deeds }
    {
        match kind {
            Kind::Console => self.console.deeds(),
            Kind::Folder => self.folder.deeds(),
            Kind::Clock => self.clock.deeds(),
            Kind::Random => self.random.deeds(),
        }
    }

    /// Asks an operation of the device of its kind.
    pub(crate) fn ask(&mut self, grant: &Text, op: &Op) -> Result<Answer, DeviceError>
        requires { IsInOrder (states D.state self.old) }
        ensures { IsAsked (states D.state self.old) (states D.state self.new) grant.now op.now result }
    {
        match op.name().kind() {
            Kind::Console => self.console.perform(grant, op),
            Kind::Folder => self.folder.perform(grant, op),
            Kind::Clock => self.clock.perform(grant, op),
            Kind::Random => self.random.perform(grant, op),
        }
    }

    /// The four devices again: console, folder, clock and random source. It takes no memory.
    pub fn parts(self) -> (D, D, D, D)
        ensures console { result.0 ≡ self.console }
        ensures folder { result.1 ≡ self.folder }
        ensures clock { result.2 ≡ self.clock }
        ensures random { result.3 ≡ self.random }
    {
        let Devices {
            console,
            folder,
            clock,
            random,
        } = self;
        (console, folder, clock, random)
    }
}
