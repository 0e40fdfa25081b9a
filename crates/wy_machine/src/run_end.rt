//! How a run ends.

use wy_device::operation::OpName;
use wy_text::fault::Place;
use wy_text::text::{Memory, Text};

/// Why a run traps (docs/LANGUAGE.md, "Traps").
#[derive(Clone, Copy, Debug, PartialEq, Eq)]
pub enum TrapKind {
    Overflow,
    ZeroDivisor,
    BadPart,
    LongText,
    BadName,
    Crowded,
}

/// How a run ends (docs/LANGUAGE.md, "How a run ends").
#[derive(Drop)]
pub enum RunEnd {
    /// It came to its end.
    Ended,
    /// It trapped at a place.
    Trap { kind: TrapKind, place: Place },
    /// A call on an object was one too many that are open at once.
    TooDeep,
    /// It took all the steps that it may take.
    Spent,
    /// An operation on the grant of that name failed.
    DeviceFailed { grant: Text, op: OpName },
    /// The sink of its events failed.
    SinkFailed,
    /// Memory was wanting.
    Memory,
}

impl From<Memory> for RunEnd {
    ghost use Rattle.std.specs.Prelude.{◌≡◌};
    ghost use Rattle.wy_machine.specs.declared.run_end.RunEnd.TheVariants as run_end;

    ghost from_gives = { λ _ end. end ≡ run_end.Memory };

    fn from(_memory: Memory) -> RunEnd {
        RunEnd::Memory
    }
}
