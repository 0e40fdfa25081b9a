//! A console in memory.

ghost use Rattle.std.specs.Prelude.{List, ℕ, ◌≡◌, ◌≤◌, ◌<◌, ◌+◌, ◌++◌, [], drop, length, Some, IfOk, IfSome, OnOk, OnErr, Err, Contains, position, ◌==◌};
ghost use Rattle.wy_text.specs.Outside.{next_count};
ghost use Rattle.wy_device.specs.Device.{Performs, IsAnswerOf, deed_done};
ghost use Rattle.wy_device.specs.Operation.{kind_of};
ghost use Rattle.wy_memory.specs.Failing.{FailsAsTold};
ghost use Rattle.wy_memory.specs.MemConsole.{line_size, next_line};

use crate::call_record::CallRecord;
use std::alloc::Global;
use std::marker::Model;
use wy_device::deed::DeedList;
use wy_device::device::{Device, DeviceError};
use wy_device::operation::{Answer, Kind, LONGEST_LINE, Op};
use wy_text::list::CallList;
use wy_text::text::{Memory, Text, from_bytes};

/// A console in memory. It fails at the calls that it was told to fail.
#[derive(Drop)]
pub struct MemConsole {
    alloc: Global,
    input: Text,
    at: usize,
    written: Text,
    kept: CallRecord,
}

impl Model for MemConsole {
    ghost use Rattle.std.specs.Prelude.{◌≤◌, drop, length};
    ghost use Rattle.wy_memory.specs.MemConsole.{MemConsoleState};

    ghost Value = { MemConsoleState };

    ghost view = { λ c. record { input = drop c.at c.input; written = c.written; deeds = c.kept.deeds; fails = c.kept.fails; calls = c.kept.calls; faults = c.kept.faults } };

    ghost invariant = { λ c. c.at ≤ length c.input };
}

/// How many bytes one line has, with its newline, or its first piece where it is longer.
fn line_len(input: &[u8]) -> usize
    ensures size { result ≡ line_size input.now }
    ensures within { result ≤ length input.now }
    ensures piece { result ≤ 65536 }
{
    match newline_at(input) {
        Some(at) => (at + 1).min(LONGEST_LINE),
        None => input.len().min(LONGEST_LINE),
    }
}

fn newline_at(input: &[u8]) -> Option<usize>
    ensures place { result ≡ position (λ b. b == 10) input.now }
    ensures within { IfSome result (λ at. at < length input.now) }
{
    input.iter().position(|b| *b == b'\n')
}

impl MemConsole {
    /// A console with this input that was not asked yet, has written nothing and has no faults.
    /// Its calls are counted from 1.
    pub fn new(alloc: Global, input: Text, fails: CallList) -> Result<MemConsole, Memory>
        ensures { IfOk result (λ c. c ≡ record { input = input; written = []; deeds = []; fails = fails; calls = 0; faults = 0 }) }
    {
        let written = from_bytes(alloc, b"")?;
        Ok(MemConsole {
            alloc,
            input,
            at: 0,
            written,
            kept: CallRecord::new(alloc, fails),
        })
    }

    /// Gives the next line of the input, and notes the deed.
    fn read_line(&mut self, grant: &Text, op: &Op) -> Result<Answer, DeviceError>
        ensures ok { IfOk result (λ a. (a ≡ Answer.Bytes (next_line self.old.input)) × (self.new ≡ record self.old { input = drop (line_size self.old.input) self.old.input; deeds = self.old.deeds ++ deed_done grant.now op.now a })) }
        ensures length { IfOk result (IsAnswerOf Op.ConsoleRead) }
        ensures err { OnErr result ((result ≡ Err DeviceError.Memory) × (self.new ≡ self.old)) }
    {
        let rest = &self.input.as_bytes()[self.at..];
        let size = line_len(rest);
        let line = from_bytes(self.alloc, &rest[..size])?;
        let answer = self.kept.answer(grant, op, Answer::Bytes(line))?;
        self.at += size;
        Ok(answer)
    }

    /// Writes a text, and notes the deed.
    fn write_text(&mut self, grant: &Text, op: &Op, text: &Text) -> Result<Answer, DeviceError>
        ensures ok { IfOk result (λ a. (a ≡ Answer.Unit) × (self.new ≡ record self.old { written = self.old.written ++ text.now; deeds = self.old.deeds ++ deed_done grant.now op.now a })) }
        ensures err { OnErr result ((result ≡ Err DeviceError.Memory) × (self.new ≡ self.old)) }
    {
        let written = self.written.joined(text)?;
        let answer = self.kept.answer(grant, op, Answer::Unit)?;
        self.written = written;
        Ok(answer)
    }
}

impl Device for MemConsole {
    ghost use Rattle.wy_device.specs.declared.operation.Kind.{Kind};

    ghost state = { λ c. record { kind = Kind.Console; deeds = Some c.deeds; faults = c.faults } };

    fn kind(&self) -> Kind {
        Kind::Console
    }

    fn deeds(&self) -> Option<&DeedList> {
        Some(&self.kept.deeds)
    }

    fn perform(&mut self, grant: &Text, op: &Op) -> Result<Answer, DeviceError>
        requires { kind_of op.now ≡ Kind.Console }
        ensures performed { Performs (⟦<MemConsole as Device>⟧.state self.old) (⟦<MemConsole as Device>⟧.state self.new) grant.now op.now result }

        // It fails exactly at the calls that it was told, and counts a fault exactly where it fails.
        ensures told { FailsAsTold self.old.fails self.old.calls self.old.faults self.new.fails self.new.calls self.new.faults result }
        ensures listed { result ≡ Err DeviceError.Failed → Contains self.old.fails (next_count self.old.calls) }

        // A read takes the next line of the input, and a write adds its text to what was written.
        ensures read { op.now ≡ Op.ConsoleRead → IfOk result (λ a. (a ≡ Answer.Bytes (next_line self.old.input)) × (self.new.input ≡ drop (line_size self.old.input) self.old.input) × (self.new.written ≡ self.old.written)) }
        ensures wrote { (t : List ℕ) → op.now ≡ Op.ConsoleWrite t → OnOk result ((self.new.written ≡ self.old.written ++ t) × (self.new.input ≡ self.old.input)) }
        ensures kept { OnErr result ((self.new.input ≡ self.old.input) × (self.new.written ≡ self.old.written)) }
    {
        self.kept.begin(grant, op)?;
        match op {
            Op::ConsoleRead => self.read_line(grant, op),
            Op::ConsoleWrite(text) => self.write_text(grant, op, text),
            _ => unreachable!(),
        }
    }
}
