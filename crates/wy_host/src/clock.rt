ghost use Rattle.wy_device.specs.DeviceState.{DeviceState};

use crate::fault::count_fault;
use std::rt::Clock;
use std::time::{SystemTime, UNIX_EPOCH};
use wy_device::deed::DeedList;
use wy_device::device::{Device, DeviceError};
use wy_device::operation::{Answer, Kind, Op};
use wy_text::text::Text;

/// The machine's clock, in whole seconds since 1970 began. It fails where the clock can't be read, stands before
/// 1970, or stands past the greatest Int, and tells no deeds.
#[derive(Drop)]
pub struct RealClock<R> {
    rt: R,
    faults: u64,
}

impl<R: Clock + Drop> RealClock<R> {
    /// A clock with no faults yet. It takes no memory.
    pub fn new(rt: R) -> RealClock<R> {
        RealClock { rt, faults: 0 }
    }
}

/// The seconds; `None` where there are none to give.
fn seconds_now<R: Clock>(rt: &R) -> Option<i64> {
    let now = SystemTime::now(rt).ok()?;
    let since = now.duration_since(UNIX_EPOCH).ok()?;
    i64::try_from(since.as_secs()).ok()
}

impl<R: Clock + Drop> Device for RealClock<R> {
    ghost use Rattle.wy_device.specs.Device.{untold};
    ghost use Rattle.wy_device.specs.declared.operation.Kind.TheVariants.{Clock};

    ghost state = { λ c. record { kind = Clock; deeds = untold; faults = c.faults } };

    fn kind(&self) -> Kind {
        Kind::Clock
    }

    fn deeds(&self) -> Option<&DeedList> {
        None
    }

    fn perform(&mut self, _grant: &Text, op: &Op) -> Result<Answer, DeviceError> {
        match op {
            Op::ClockNow => match seconds_now(&self.rt) {
                Some(seconds) => Ok(Answer::Number(seconds)),
                None => Err(count_fault(&mut self.faults)),
            },
            _ => unreachable!(),
        }
    }
}
