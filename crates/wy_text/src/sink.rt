ghost use Rattle.std.specs.Prelude.{◌≡◌, ◌≤◌, ◌<◌, length, take, IfOk, OnErr, Err};
ghost use Rattle.wy_text.specs.Outside.{SinkState, gained, Rose};

use thiserror::Error;

/// Why a sink took nothing: the write failed, or memory was wanting.
#[derive(Debug, Drop, Error)]
pub enum WriteError {
    #[error("the sink failed")]
    Failed,
    #[error("no memory")]
    Memory,
}

/// What takes bytes. Contracts see the bytes that it took where it tells them, as one in memory does
/// and a real stream does not, and the count of its faults, which never falls.
pub trait Sink {
    ghost state: { Self → SinkState };

    /// Takes a prefix of the piece and gives the prefix's length. `Failed` comes only where a fault was
    /// counted. A sink that takes nothing of a piece that is not empty counts a fault too.
    fn write(&mut self, bytes: &[u8]) -> Result<usize, WriteError>
        ensures part { IfOk result (λ n. n ≤ length bytes.now) }
        ensures taken { IfOk result (λ n. (state self.new).taken ≡ gained (state self.old).taken (take n bytes.now)) }
        ensures nothing { OnErr result ((state self.new).taken ≡ (state self.old).taken) }

        ensures counted { (state self.old).faults ≤ (state self.new).faults }
        ensures failed { result ≡ Err WriteError.Failed → Rose (state self.old).faults (state self.new).faults }
        ensures stuck { IfOk result (λ n. n ≡ 0 → 0 < length bytes.now → Rose (state self.old).faults (state self.new).faults) };
}
