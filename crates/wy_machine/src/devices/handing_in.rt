ghost use Rattle.std.specs.Prelude.{◌≡◌};
ghost use Rattle.wy_device.specs.Devices.{IsInOrder};

use crate::devices::Devices;
use wy_device::device::Device;

/// Hands in the devices of a run: a console, a folder, a clock and a random source, in this order.
/// It takes no memory and asks no device.
pub fn devices<D: Device>(console: D, folder: D, clock: D, random: D) -> Devices<D>
    requires { IsInOrder (record { console = D.state console; folder = D.state folder; clock = D.state clock; random = D.state random }) }
    ensures { result ≡ record { console = console; folder = folder; clock = clock; random = random } }
{
    Devices {
        console,
        folder,
        clock,
        random,
    }
}
