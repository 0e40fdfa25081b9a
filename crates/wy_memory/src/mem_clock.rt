//! A clock in memory.

ghost use Rattle.std.specs.Prelude.{◌≡◌, ◌++◌, [], Some, IfOk, OnErr, Err, Contains};
ghost use Rattle.wy_text.specs.Outside.{next_count};
ghost use Rattle.wy_device.specs.Device.{Performs, deed_done};
ghost use Rattle.wy_device.specs.Operation.{kind_of};
ghost use Rattle.wy_memory.specs.Deeds.{answered};
ghost use Rattle.wy_memory.specs.Failing.{FailsAsTold};
ghost use Rattle.wy_memory.specs.MemClock.{time_after};

use crate::call_record::CallRecord;
use std::alloc::Global;
use std::marker::Model;
use wy_device::deed::DeedList;
use wy_device::device::{Device, DeviceError};
use wy_device::operation::{Answer, Kind, Op};
use wy_text::list::CallList;
use wy_text::text::{Memory, Text};

/// A clock in memory: a second passes at each call that succeeds. It fails at the calls that it was told to fail.
#[derive(Drop)]
pub struct MemClock {
    start: i64,
    given: u64,
    kept: CallRecord,
}

impl Model for MemClock {
    ghost use Rattle.std.specs.Prelude.{◌≡◌, ◌-◌, ◌^◌, min};
    ghost use Rattle.wy_memory.specs.Deeds.{answered};
    ghost use Rattle.wy_memory.specs.MemClock.{MemClockState};

    ghost Value = { MemClockState };

    ghost view = { λ c. record { start = c.start; deeds = c.kept.deeds; fails = c.kept.fails; calls = c.kept.calls; faults = c.kept.faults } };

    ghost invariant = { λ c. c.given ≡ min (answered c.kept.deeds) (2 ^ 64 - 1) };
}

impl MemClock {
    /// A clock with this start, in seconds, that was not asked yet and has no faults. Its calls are counted from 1.
    pub fn new(alloc: Global, start: i64, fails: CallList) -> Result<MemClock, Memory>
        ensures { IfOk result (λ c. c ≡ record { start = start; deeds = []; fails = fails; calls = 0; faults = 0 }) }
    {
        Ok(MemClock {
            start,
            given: 0,
            kept: CallRecord::new(alloc, fails),
        })
    }

    /// Gives the time, lets a second pass, and notes the deed.
    fn tell_time(&mut self, grant: &Text, op: &Op) -> Result<Answer, DeviceError>
        ensures time { IfOk result (λ a. a ≡ Answer.Number (time_after (answered self.old.deeds) self.old.start)) }
        ensures noted { IfOk result (λ a. self.new ≡ record self.old { deeds = self.old.deeds ++ deed_done grant.now op.now a }) }
        ensures err { OnErr result ((result ≡ Err DeviceError.Memory) × (self.new ≡ self.old)) }
    {
        let time = Answer::Number(self.start.saturating_add_unsigned(self.given));
        let answer = self.kept.answer(grant, op, time)?;
        self.given = self.given.saturating_add(1);
        Ok(answer)
    }
}

impl Device for MemClock {
    ghost use Rattle.wy_device.specs.declared.operation.Kind.{Kind};

    ghost state = { λ c. record { kind = Kind.Clock; deeds = Some c.deeds; faults = c.faults } };

    fn kind(&self) -> Kind {
        Kind::Clock
    }

    fn deeds(&self) -> Option<&DeedList> {
        Some(&self.kept.deeds)
    }

    fn perform(&mut self, grant: &Text, op: &Op) -> Result<Answer, DeviceError>
        requires { kind_of op.now ≡ Kind.Clock }
        ensures performed { Performs (⟦<MemClock as Device>⟧.state self.old) (⟦<MemClock as Device>⟧.state self.new) grant.now op.now result }

        // It fails exactly at the calls that it was told, and counts a fault exactly where it fails.
        ensures told { FailsAsTold self.old.fails self.old.calls self.old.faults self.new.fails self.new.calls self.new.faults result }
        ensures listed { result ≡ Err DeviceError.Failed → Contains self.old.fails (next_count self.old.calls) }

        // It gives its start and a second for each earlier call that succeeded.
        ensures time { IfOk result (λ a. a ≡ Answer.Number (time_after (answered self.old.deeds) self.old.start)) }
        ensures same_start { self.new.start ≡ self.old.start }
    {
        self.kept.begin(grant, op)?;
        match op {
            Op::ClockNow => self.tell_time(grant, op),
            _ => unreachable!(),
        }
    }
}
