ghost use Rattle.std.specs.Prelude.{◌≡◌};
ghost use Rattle.wy_recheck.specs.declared.failure.Failure.TheVariants.{Memory as NoMemory};

use wy_text::text::Memory;

/// Why a test of a certificate is not passed (docs/LANGUAGE.md, "Certificates").
#[derive(Drop)]
pub enum Failure {
    /// It fails, and first at this number of a type, pair, rule or node, counted from 0.
    At(u64),
    /// Memory was wanting.
    Memory,
}

impl From<Memory> for Failure {
    ghost from_gives = { λ _ e. e ≡ NoMemory };

    fn from(_memory: Memory) -> Self {
        Failure::Memory
    }
}
