ghost use Rattle.std.specs.Prelude.{◌≡◌, ◌≤◌, ◌<◌, ◌↔◌, length, take, [], IfOk, OnErr, Err, Some, Contains};
ghost use Rattle.wy_text.specs.Outside.{gained, next_count, Rose};
ghost use Rattle.wy_memory.specs.MemSink.{faults_after};

use std::alloc::Global;
use std::marker::Model;
use wy_text::list::CallList;
use wy_text::sink::{Sink, WriteError};
use wy_text::text::Memory;

/// A sink in memory. It takes each piece whole, and fails at the calls that it was told to fail.
#[derive(Drop)]
pub struct MemSink {
    taken: Vec<u8>,
    fails: CallList,
    calls: u64,
    faults: u64,
}

impl Model for MemSink {
    ghost use Rattle.wy_memory.specs.MemSink.{MemSinkState};

    ghost Value = { MemSinkState };

    ghost view = { λ s. record { taken = s.taken.items; fails = s.fails; calls = s.calls; faults = s.faults } };
}

impl MemSink {
    /// A sink that took nothing and has no faults. Its calls are counted from 1.
    pub fn new(alloc: Global, fails: CallList) -> Result<MemSink, Memory>
        ensures { IfOk result (λ s. s ≡ record { taken = []; fails = fails; calls = 0; faults = 0 }) }
    {
        Ok(MemSink {
            taken: Vec::new(alloc),
            fails,
            calls: 0,
            faults: 0,
        })
    }

    /// The bytes that it took. It takes no memory.
    pub fn bytes(&self) -> &[u8]
        ensures { result.now ≡ self.now.taken }
    {
        self.taken.as_slice()
    }
}

impl Sink for MemSink {
    ghost state = { λ s. record { taken = Some s.taken; faults = s.faults } };

    fn write(&mut self, bytes: &[u8]) -> Result<usize, WriteError>
        ensures part { IfOk result (λ n. n ≤ length bytes.now) }
        ensures taken { IfOk result (λ n. Some self.new.taken ≡ gained (Some self.old.taken) (take n bytes.now)) }
        ensures nothing { OnErr result (Some self.new.taken ≡ Some self.old.taken) }
        ensures counted { self.old.faults ≤ self.new.faults }
        ensures failed { result ≡ Err WriteError.Failed → Rose self.old.faults self.new.faults }
        ensures stuck { IfOk result (λ n. n ≡ 0 → 0 < length bytes.now → Rose self.old.faults self.new.faults) }

        // It takes each piece whole, fails exactly at the calls that it was told, and counts a fault exactly where it fails.
        ensures whole { IfOk result (λ n. n ≡ length bytes.now) }
        ensures call { self.new.calls ≡ next_count self.old.calls }
        ensures listed { result ≡ Err WriteError.Failed ↔ Contains self.old.fails (next_count self.old.calls) }
        ensures same_list { self.new.fails ≡ self.old.fails }
        ensures faults { self.new.faults ≡ faults_after result self.old.faults }
    {
        self.calls = self.calls.saturating_add(1);
        if self.fails.contains(self.calls) {
            self.faults = self.faults.saturating_add(1);
            return Err(WriteError::Failed);
        }
        match self.taken.extend_from_slice(bytes) {
            Ok(()) => Ok(bytes.len()),
            Err(_) => Err(WriteError::Memory),
        }
    }
}
