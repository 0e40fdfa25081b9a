//! A device in a box.

ghost use Rattle.std.specs.Prelude.{◌≡◌};

use crate::deed::DeedList;
use crate::device::{Device, DeviceError};
use crate::operation::{Answer, Kind, Op};
use wy_text::text::Text;

/// A device in a box, so that devices of several types can be handed in together. It passes each call on
/// to the box, and has the box's meanings.
#[derive(Drop)]
pub struct Handed {
    device: Box<dyn Device>,
}

impl Handed {
    /// Hands in the device of a box.
    pub fn new(device: Box<dyn Device>) -> Handed
        ensures { ⟦<Handed as Device>⟧.state result ≡ state device }
    {
        Handed { device }
    }
}

impl Device for Handed {
    ghost state = { λ h. (Device-box h.device).state h.device.value };

    fn kind(&self) -> Kind {
        self.device.kind()
    }

    fn deeds(&self) -> Option<&DeedList> {
        self.device.deeds()
    }

    fn perform(&mut self, grant: &Text, op: &Op) -> Result<Answer, DeviceError> {
        self.device.perform(grant, op)
    }
}
