ghost use Rattle.std.specs.Prelude.{◌≡◌, ◌≤◌};
ghost use Rattle.wy_text.specs.Outside.{Rose};

use wy_device::device::DeviceError;

/// Counts a fault and gives the error for it. The count stays at its greatest number.
pub fn count_fault(faults: &mut u64) -> DeviceError
    ensures failed { result ≡ DeviceError.Failed }
    ensures counted { faults.old ≤ faults.new }
    ensures rose { Rose faults.old faults.new }
{
    *faults = faults.saturating_add(1);
    DeviceError::Failed
}
