//! What each device in memory keeps of its calls.

ghost use Rattle.std.specs.Prelude.{◌≡◌, ◌≤◌, ◌++◌, [], IfOk, OnOk, OnErr, Err, Contains};
ghost use Rattle.wy_text.specs.Outside.{next_count};
ghost use Rattle.wy_device.specs.Device.{deed_done, deed_failed};

use std::alloc::Global;
use wy_device::deed::{Deed, DeedList};
use wy_device::device::DeviceError;
use wy_device::operation::{Answer, Op};
use wy_text::list::{CallList, Items};
use wy_text::text::{Memory, Text};

/// The deeds of a device in memory, the numbers of the calls that it was told to fail, how many calls there were and how many
/// of them failed.
#[derive(Drop)]
pub struct CallRecord {
    pub deeds: DeedList,
    pub fails: CallList,
    pub calls: u64,
    pub faults: u64,
}

impl CallRecord {
    /// The record of a device that was not asked yet. Calls are counted from 1.
    pub fn new(alloc: Global, fails: CallList) -> CallRecord
        ensures { result ≡ record { deeds = []; fails = fails; calls = 0; faults = 0 } }
    {
        CallRecord {
            deeds: Items::new(alloc),
            fails,
            calls: 0,
            faults: 0,
        }
    }

    /// Counts a call, and notes its failure where the device was told to fail it.
    pub fn begin(&mut self, grant: &Text, op: &Op) -> Result<(), DeviceError>
        ensures served { OnOk result (¬ Contains self.old.fails (next_count self.old.calls)) }
        ensures listed { result ≡ Err DeviceError.Failed → Contains self.old.fails (next_count self.old.calls) }
        ensures begun { OnOk result (self.new ≡ record self.old { calls = next_count self.old.calls }) }
        ensures failed { result ≡ Err DeviceError.Failed → self.new ≡ record self.old {
          deeds = self.old.deeds ++ deed_failed grant.now op.now;
          calls = next_count self.old.calls;
          faults = next_count self.old.faults;
        } }
        ensures none { result ≡ Err DeviceError.Memory → self.new ≡ record self.old { calls = next_count self.old.calls } }
        ensures counted { self.old.faults ≤ self.new.faults }
    {
        self.calls = self.calls.saturating_add(1);
        if self.fails.contains(self.calls) {
            return Err(self.fail(grant, op));
        }
        Ok(())
    }

    /// Notes the deed of an operation that failed and counts a fault, and gives why there is no answer: memory may be wanting for the deed.
    pub fn fail(&mut self, grant: &Text, op: &Op) -> DeviceError
        ensures failed { result ≡ DeviceError.Failed → self.new ≡ record self.old {
          deeds = self.old.deeds ++ deed_failed grant.now op.now;
          faults = next_count self.old.faults;
        } }
        ensures none { result ≡ DeviceError.Memory → self.new ≡ self.old }
        ensures counted { self.old.faults ≤ self.new.faults }
    {
        match self.note_failed(grant, op) {
            Ok(()) => {
                self.faults = self.faults.saturating_add(1);
                DeviceError::Failed
            }
            Err(_) => DeviceError::Memory,
        }
    }

    /// Notes the deed of an operation that failed.
    fn note_failed(&mut self, grant: &Text, op: &Op) -> Result<(), Memory>
        ensures ok { OnOk result (self.new ≡ record self.old { deeds = self.old.deeds ++ deed_failed grant.now op.now }) }
        ensures err { OnErr result (self.new ≡ self.old) }
    {
        self.deeds.push(Deed::failed(grant, op)?)
    }

    /// Notes the deed of an operation that was answered, and gives the answer.
    pub fn answer(&mut self, grant: &Text, op: &Op, answer: Answer) -> Result<Answer, DeviceError>
        ensures ok { IfOk result (λ a. (a ≡ answer) × (self.new ≡ record self.old { deeds = self.old.deeds ++ deed_done grant.now op.now a })) }
        ensures err { OnErr result ((result ≡ Err DeviceError.Memory) × (self.new ≡ self.old)) }
    {
        self.note_answered(grant, op, &answer)?;
        Ok(answer)
    }

    /// Notes the deed of an operation that was answered.
    fn note_answered(&mut self, grant: &Text, op: &Op, answer: &Answer) -> Result<(), Memory>
        ensures ok { OnOk result (self.new ≡ record self.old { deeds = self.old.deeds ++ deed_done grant.now op.now answer.now }) }
        ensures err { OnErr result (self.new ≡ self.old) }
    {
        self.deeds.push(Deed::done(grant, op, answer)?)
    }
}
