//! What operations are asked of.

ghost use Rattle.std.specs.Prelude.{◌≡◌};
ghost use Rattle.std.specs.Option.{option_copied};
ghost use Rattle.wy_device.specs.Device.{Performs};
ghost use Rattle.wy_device.specs.DeviceState.{DeviceState};
ghost use Rattle.wy_device.specs.Operation.{kind_of};

use crate::deed::DeedList;
use crate::operation::{Answer, Kind, Op};
use thiserror::Error;
use wy_text::text::{Memory, Text};

/// Why a device gave no answer: the operation failed, or memory was wanting.
#[derive(Debug, Drop, Error)]
pub enum DeviceError {
    #[error("the device failed")]
    Failed,
    #[error("no memory")]
    Memory,
}

impl From<Memory> for DeviceError {
    ghost use Rattle.std.specs.Prelude.{◌≡◌};
    ghost use Rattle.wy_device.specs.declared.device.DeviceError.TheVariants.{Memory as NoMemory};

    ghost from_gives = { λ _ error. error ≡ NoMemory };

    fn from(_memory: Memory) -> DeviceError {
        DeviceError::Memory
    }
}

/// What operations are asked of. Contracts see its kind, its deeds where it tells them, as one in memory
/// does and a real one does not, and the count of its faults, which never falls.
pub trait Device: Drop {
    ghost state: { Self → DeviceState };

    /// The device's kind, which no call changes.
    fn kind(&self) -> Kind
        ensures { result ≡ (state self.now).kind };

    /// The deeds, where the device tells them; `None` exactly where it does not. It takes no memory.
    fn deeds(&self) -> Option<&DeedList>
        ensures { option_copied result ≡ (state self.now).deeds };

    /// Does an operation of the device's kind for a grant. An answer and `Failed` each add one deed, and
    /// `Failed` comes only where a fault was counted. After `Memory` the device was not acted on.
    /// The answer is of the operation's kind: bytes for `read` and `names` (at most 4,194,304, of a
    /// console's `read` at most 65,536), a truth value for `has`, a number for `now` and `word`.
    fn perform(&mut self, grant: &Text, op: &Op) -> Result<Answer, DeviceError>
        requires { kind_of op.now ≡ (state self.old).kind }
        ensures performed { Performs (state self.old) (state self.new) grant.now op.now result };
}
