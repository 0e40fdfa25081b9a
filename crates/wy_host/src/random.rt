ghost use Rattle.wy_device.specs.DeviceState.{DeviceState};

use crate::fault::count_fault;
use std::fs;
use std::io::{self, Read};
use std::rt::Files;
use wy_device::deed::DeedList;
use wy_device::device::{Device, DeviceError};
use wy_device::operation::{Answer, Kind, Op};
use wy_text::text::Text;

/// Where the machine gives random bytes.
const SOURCE: &str = "/dev/urandom";

/// The machine's random source, opened anew for each number. It fails where the source can't be opened or gives
/// fewer than eight bytes, and tells no deeds.
#[derive(Drop)]
pub struct RealRandom<R> {
    rt: R,
    faults: u64,
}

impl<R: Files + Drop> RealRandom<R> {
    /// A source with no faults yet. It takes no memory.
    pub fn new(rt: R) -> RealRandom<R> {
        RealRandom { rt, faults: 0 }
    }
}

/// Eight bytes of the source, the least first.
fn draw<R: Files>(rt: &R) -> io::Result<i64> {
    let mut bytes = [0u8; 8];
    let mut source = fs::open(rt, SOURCE)?;
    source.read_exact(&mut bytes)?;
    Ok(i64::from_le_bytes(bytes))
}

impl<R: Files + Drop> Device for RealRandom<R> {
    ghost use Rattle.wy_device.specs.Device.{untold};
    ghost use Rattle.wy_device.specs.declared.operation.Kind.TheVariants.{Random};

    ghost state = { λ r. record { kind = Random; deeds = untold; faults = r.faults } };

    fn kind(&self) -> Kind {
        Kind::Random
    }

    fn deeds(&self) -> Option<&DeedList> {
        None
    }

    fn perform(&mut self, _grant: &Text, op: &Op) -> Result<Answer, DeviceError> {
        match op {
            Op::RandomWord => match draw(&self.rt) {
                Ok(word) => Ok(Answer::Number(word)),
                Err(_) => Err(count_fault(&mut self.faults)),
            },
            _ => unreachable!(),
        }
    }
}
