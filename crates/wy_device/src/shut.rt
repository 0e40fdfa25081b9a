//! A device that is shut.

ghost use Rattle.std.specs.Prelude.{◌≡◌, Err};
ghost use Rattle.wy_text.specs.Outside.{next_count};
ghost use Rattle.wy_device.specs.Device.{Performs, untold};
ghost use Rattle.wy_device.specs.Operation.{kind_of};

use crate::deed::DeedList;
use crate::device::{Device, DeviceError};
use crate::operation::{Answer, Kind, Op};
use wy_text::text::Text;

/// A device that is shut: every operation on it fails and counts a fault, and it tells no deeds.
#[derive(Drop)]
pub struct Shut {
    kind: Kind,
    faults: u64,
}

impl Shut {
    /// A shut device of a kind, with no faults yet. It takes no memory.
    pub fn new(kind: Kind) -> Shut
        ensures { ⟦<Shut as Device>⟧.state result ≡ record { kind = kind; deeds = untold; faults = 0 } }
    {
        Shut { kind, faults: 0 }
    }
}

impl Device for Shut {
    ghost state = { λ s. record { kind = s.kind; deeds = untold; faults = s.faults } };

    fn kind(&self) -> Kind {
        self.kind
    }

    fn deeds(&self) -> Option<&DeedList> {
        None
    }

    fn perform(&mut self, grant: &Text, op: &Op) -> Result<Answer, DeviceError>
        requires { kind_of op.now ≡ self.old.kind }
        ensures performed { Performs (⟦<Shut as Device>⟧.state self.old) (⟦<Shut as Device>⟧.state self.new) grant.now op.now result }

        // It fails at each call.
        ensures shut { result ≡ Err DeviceError.Failed }
        ensures count { self.new.faults ≡ next_count self.old.faults }
    {
        self.faults = self.faults.saturating_add(1);
        Err(DeviceError::Failed)
    }
}
