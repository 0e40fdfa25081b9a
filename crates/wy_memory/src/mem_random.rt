//! A random source in memory.

ghost use Rattle.std.specs.Prelude.{◌≡◌, ◌<◌, ◌+◌, ◌%◌, ◌++◌, max, [], pos, slice_index_or, Some, IfOk, OnErr, Err, Contains};
ghost use Rattle.wy_text.specs.Outside.{next_count};
ghost use Rattle.wy_device.specs.Device.{Performs, deed_done};
ghost use Rattle.wy_device.specs.Operation.{kind_of};
ghost use Rattle.wy_memory.specs.Deeds.{answered};
ghost use Rattle.wy_memory.specs.Failing.{FailsAsTold};
ghost use Rattle.wy_memory.specs.MemRandom.{word_after};

use crate::call_record::CallRecord;
use std::alloc::Global;
use std::marker::Model;
use wy_device::deed::DeedList;
use wy_device::device::{Device, DeviceError};
use wy_device::operation::{Answer, Kind, Op};
use wy_text::list::{CallList, Items};
use wy_text::text::{Memory, Text};

/// The numbers that a random source in memory gives.
pub type NumberList = Items<i64>;

/// A random source in memory, which gives the numbers of its list round and round, and 0 where the list is empty.
/// It fails at the calls that it was told to fail.
#[derive(Drop)]
pub struct MemRandom {
    numbers: NumberList,
    at: usize,
    kept: CallRecord,
}

impl Model for MemRandom {
    ghost use Rattle.std.specs.Prelude.{◌≡◌, ◌%◌, max, length};
    ghost use Rattle.wy_memory.specs.Deeds.{answered};
    ghost use Rattle.wy_memory.specs.MemRandom.{MemRandomState};

    ghost Value = { MemRandomState };

    ghost view = { λ r. record { numbers = r.numbers; deeds = r.kept.deeds; fails = r.kept.fails; calls = r.kept.calls; faults = r.kept.faults } };

    ghost invariant = { λ r. r.at ≡ answered r.kept.deeds % max (length r.numbers) 1 };
}

/// The number at a place, and 0 past the end.
fn number_at(numbers: &NumberList, at: usize) -> i64
    ensures { result ≡ slice_index_or numbers.now at (pos 0) }
{
    match numbers.get(at) {
        Some(number) => *number,
        None => 0,
    }
}

/// The place after this one, in a list of so many items that is gone through round and round.
fn next_place(at: usize, size: usize) -> usize
    requires { at < max size 1 }
    ensures { result ≡ (at + 1) % max size 1 }
{
    let next = at + 1;
    if next < size { next } else { 0 }
}

impl MemRandom {
    /// A source with these numbers that was not asked yet and has no faults. Its calls are counted from 1.
    pub fn new(alloc: Global, numbers: NumberList, fails: CallList) -> Result<MemRandom, Memory>
        ensures { IfOk result (λ r. r ≡ record { numbers = numbers; deeds = []; fails = fails; calls = 0; faults = 0 }) }
    {
        Ok(MemRandom {
            numbers,
            at: 0,
            kept: CallRecord::new(alloc, fails),
        })
    }

    /// Gives the next number, and notes the deed.
    fn draw(&mut self, grant: &Text, op: &Op) -> Result<Answer, DeviceError>
        ensures word { IfOk result (λ a. a ≡ Answer.Number (word_after (answered self.old.deeds) self.old.numbers)) }
        ensures noted { IfOk result (λ a. self.new ≡ record self.old { deeds = self.old.deeds ++ deed_done grant.now op.now a }) }
        ensures err { OnErr result ((result ≡ Err DeviceError.Memory) × (self.new ≡ self.old)) }
    {
        let number = Answer::Number(number_at(&self.numbers, self.at));
        let answer = self.kept.answer(grant, op, number)?;
        self.at = next_place(self.at, self.numbers.len());
        Ok(answer)
    }
}

impl Device for MemRandom {
    ghost use Rattle.wy_device.specs.declared.operation.Kind.{Kind};

    ghost state = { λ r. record { kind = Kind.Random; deeds = Some r.deeds; faults = r.faults } };

    fn kind(&self) -> Kind {
        Kind::Random
    }

    fn deeds(&self) -> Option<&DeedList> {
        Some(&self.kept.deeds)
    }

    fn perform(&mut self, grant: &Text, op: &Op) -> Result<Answer, DeviceError>
        requires { kind_of op.now ≡ Kind.Random }
        ensures performed { Performs (⟦<MemRandom as Device>⟧.state self.old) (⟦<MemRandom as Device>⟧.state self.new) grant.now op.now result }

        // It fails exactly at the calls that it was told, and counts a fault exactly where it fails.
        ensures told { FailsAsTold self.old.fails self.old.calls self.old.faults self.new.fails self.new.calls self.new.faults result }
        ensures listed { result ≡ Err DeviceError.Failed → Contains self.old.fails (next_count self.old.calls) }

        // It gives its numbers round and round, one for each call that succeeds.
        ensures word { IfOk result (λ a. a ≡ Answer.Number (word_after (answered self.old.deeds) self.old.numbers)) }
        ensures same_numbers { self.new.numbers ≡ self.old.numbers }
    {
        self.kept.begin(grant, op)?;
        match op {
            Op::RandomWord => self.draw(grant, op),
            _ => unreachable!(),
        }
    }
}
