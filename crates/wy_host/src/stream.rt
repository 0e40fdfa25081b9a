ghost use Rattle.std.specs.Prelude.{◌≡◌, ◌≤◌, ◌<◌, IfOk, OnErr, Err, length, take};
ghost use Rattle.std.specs.Io.{WritesAtMost};
ghost use Rattle.std.specs.Io.KnownBytes.{WriteAppends};
ghost use Rattle.wy_host.specs.Streams.{unsaid};
ghost use Rattle.wy_text.specs.Outside.{SinkState, gained, Rose};

use std::io::{self, ErrorKind, Write};
use wy_text::sink::{Sink, WriteError};

/// A stream of bytes as a sink. It tells nothing of what it took. Over a writer whose bytes are known, `write` says
/// what the writer gained.
#[derive(Drop)]
pub struct Stream<W> {
    stream: W,
    faults: u64,
}

impl<W: Write + Drop> Stream<W> {
    pub fn new(stream: W) -> Stream<W> {
        Stream { stream, faults: 0 }
    }
}

/// Writes once, and anew as long as a signal interrupts the write before it took a byte.
fn write_uninterrupted<W: Write>(stream: &mut W, bytes: &[u8]) -> io::Result<usize>
    ensures part { WritesAtMost result bytes.now }
    ensures passed { WriteAppends (W.contents stream.old) (W.contents stream.new) result bytes.now }
{
    for _ in 0..u64::MAX {
        match stream.write(bytes) {
            Err(error) if error.kind() == ErrorKind::Interrupted => {}
            written => return written,
        }
    }
    Err(io::Error::from(ErrorKind::Interrupted))
}

impl<W: Write + Drop> Sink for Stream<W> {
    ghost state = { λ s. record { taken = unsaid; faults = s.faults } };

    fn write(&mut self, bytes: &[u8]) -> Result<usize, WriteError>
        ensures part { IfOk result (λ n. n ≤ length bytes.now) }
        ensures taken { IfOk result (λ n. unsaid ≡ gained unsaid (take n bytes.now)) }
        ensures nothing { OnErr result (unsaid ≡ unsaid) }
        ensures counted { self.old.faults ≤ self.new.faults }
        ensures failed { result ≡ Err WriteError.Failed → Rose self.old.faults self.new.faults }
        ensures stuck { IfOk result (λ n. n ≡ 0 → 0 < length bytes.now → Rose self.old.faults self.new.faults) }
        ensures passed { WriteAppends (W.contents self.old.stream) (W.contents self.new.stream) result bytes.now }
    {
        match write_uninterrupted(&mut self.stream, bytes) {
            Ok(0) => {
                self.faults = self.faults.saturating_add(1);
                Ok(0)
            }
            Ok(taken) => Ok(taken),
            Err(_) => {
                self.faults = self.faults.saturating_add(1);
                Err(WriteError::Failed)
            }
        }
    }
}
