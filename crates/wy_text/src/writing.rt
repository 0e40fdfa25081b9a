ghost use Rattle.std.specs.Prelude.{◌≡◌, [], OnOk, Err};
ghost use Rattle.wy_text.specs.Outside.{Rose};
ghost use Rattle.wy_text.specs.Writing.{StopsShort, WritesUpTo};

use crate::sink::{Sink, WriteError};

/// Writes a whole text, in as many turns as it has bytes at most. `Failed` comes only where the sink
/// counted a fault: the write failed, or the sink took nothing. A prefix of the text that is not the
/// whole text was written then, and where memory was wanting.
pub fn write_all<S: Sink>(sink: &mut S, text: &[u8]) -> Result<(), WriteError>
    ensures whole { OnOk result (WritesUpTo text.now [] (S.state sink.old) (S.state sink.new)) }
    ensures failed { result ≡ Err WriteError.Failed → StopsShort text.now (S.state sink.old) (S.state sink.new) × Rose (S.state sink.old).faults (S.state sink.new).faults }
    ensures starved { result ≡ Err WriteError.Memory → StopsShort text.now (S.state sink.old) (S.state sink.new) }
{
    let mut rest = text;
    while !rest.is_empty() {
        match sink.write(rest) {
            Ok(0) => return Err(WriteError::Failed),
            Ok(taken) => rest = &rest[taken..],
            Err(error) => return Err(error),
        }
    }
    Ok(())
}
