ghost use Rattle.std.specs.Prelude.{◌≡◌, ◌≤◌, ◌-◌, [], IfOk, OnOk, false, length};
ghost use Rattle.std.specs.Io.KnownBytes.{Appends};
ghost use Rattle.std.specs.Result.{result_err};
ghost use Rattle.wy_device.specs.DeviceState.{DeviceState};
ghost use Rattle.wy_host.specs.Failures.{CountsFailure};
ghost use Rattle.wy_host.specs.Streams.{GrewUpTo, IsFirst};

use crate::fault::count_fault;
use std::alloc::{AllocError, Global};
use std::io::{self, BufRead, Read, Write};
use wy_device::deed::DeedList;
use wy_device::device::{Device, DeviceError};
use wy_device::operation::{Answer, Kind, LONGEST_LINE, Op};
use wy_text::text::{Text, from_bytes};

/// Lines of a reader as the input, and a writer as the output. It tells no deeds.
///
/// What was read stays in `line` until it is given, so a read that wanted memory loses nothing.
#[derive(Drop)]
pub struct RealConsole<I, O> {
    alloc: Global,
    input: I,
    output: O,
    line: Vec<u8>,
    faults: u64,
}

/// Whether these bytes are a line with its newline, or as long as a piece of one may be.
fn is_whole(line: &[u8]) -> bool
    ensures { line.now ≡ [] → result ≡ false }
{
    line.len() >= LONGEST_LINE || line.last() == Some(&b'\n')
}

/// How many bytes a piece may still have behind these.
fn room_behind(line: &Vec<u8>) -> usize
    ensures { result ≡ 65536 - length line.now.items }
{
    LONGEST_LINE.saturating_sub(line.len())
}

/// Reads up to the next newline, the end of the input, or so many bytes, and adds them to a line.
fn read_up_to<I: BufRead>(input: &mut I, room: usize, line: &mut Vec<u8>) -> io::Result<()>
    ensures { OnOk result (GrewUpTo room (I.remaining input.old) line.old.items line.new.items) }
{
    let _size = input.take(room as u64).read_until(b'\n', line)?;
    Ok(())
}

/// Reads up to the next newline, the end of the input, or the greatest length of a piece.
fn fill<I: BufRead>(input: &mut I, line: &mut Vec<u8>) -> io::Result<()>
    ensures { line.old.items ≡ [] → OnOk result (IsFirst (I.remaining input.old) line.new.items) }
{
    if is_whole(line.as_slice()) {
        return Ok(());
    }
    let room = room_behind(line);
    read_up_to(input, room, line)
}

impl<I: BufRead + Drop, O: Write + Drop> RealConsole<I, O> {
    /// The room for a line is taken here, so that reading one takes no memory.
    pub fn new(alloc: Global, input: I, output: O) -> Result<RealConsole<I, O>, AllocError> {
        let line = Vec::with_capacity(alloc, LONGEST_LINE)?;
        Ok(RealConsole {
            alloc,
            input,
            output,
            line,
            faults: 0,
        })
    }

    /// The next line with its newline, or a piece of it; the empty text at the end of the input.
    fn read_line(&mut self) -> Result<Text, DeviceError>
        ensures first { self.old.line.items ≡ [] → IfOk result (IsFirst (I.remaining self.old.input)) }
        ensures given { OnOk result (self.new.line.items ≡ []) }
        ensures piece { IfOk result (λ text. length text ≤ 65536) }
        ensures counted { CountsFailure self.old.faults self.new.faults (result_err result) }
    {
        if fill(&mut self.input, &mut self.line).is_err() || self.line.len() > LONGEST_LINE {
            return Err(count_fault(&mut self.faults));
        }
        let line = from_bytes(self.alloc, self.line.as_slice())?;
        self.line.clear();
        Ok(line)
    }

    /// Writes a whole text.
    fn write_text(&mut self, text: &Text) -> Result<(), DeviceError>
        ensures passed { OnOk result (Appends (O.contents self.old.output) (O.contents self.new.output) text.now) }
        ensures counted { CountsFailure self.old.faults self.new.faults (result_err result) }
    {
        match self.output.write_all(text.as_bytes()) {
            Ok(()) => Ok(()),
            Err(_) => Err(count_fault(&mut self.faults)),
        }
    }
}

impl<I: BufRead + Drop, O: Write + Drop> Device for RealConsole<I, O> {
    ghost use Rattle.wy_device.specs.Device.{untold};
    ghost use Rattle.wy_device.specs.declared.operation.Kind.TheVariants.{Console};

    ghost state = { λ c. record { kind = Console; deeds = untold; faults = c.faults } };

    fn kind(&self) -> Kind {
        Kind::Console
    }

    fn deeds(&self) -> Option<&DeedList> {
        None
    }

    fn perform(&mut self, _grant: &Text, op: &Op) -> Result<Answer, DeviceError> {
        match op {
            Op::ConsoleRead => Ok(Answer::Bytes(self.read_line()?)),
            Op::ConsoleWrite(text) => {
                self.write_text(text)?;
                Ok(Answer::Unit)
            }
            _ => unreachable!(),
        }
    }
}
