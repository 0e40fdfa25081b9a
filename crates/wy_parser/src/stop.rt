//! Why reading stops.
ghost use Rattle.std.specs.Prelude.{◌≡◌};
ghost use Rattle.wy_parser.specs.declared.stop.Stop.TheVariants.{Memory as NoMemory};

use std::alloc::{AllocError, AllocFailed};
use wy_text::text::Memory;
use wy_text::token::Token;

/// Why there is no value.
#[derive(Drop)]
pub enum Stop<'a> {
    /// The first of these tokens fits nothing.
    At(&'a [Token]),
    /// The depth is used up.
    Deep,
    Memory,
}

impl<'a> From<Memory> for Stop<'a> {
    ghost from_gives = { λ _ e. e ≡ NoMemory };

    fn from(_memory: Memory) -> Self {
        Stop::Memory
    }
}

impl<'a> From<AllocError> for Stop<'a> {
    ghost from_gives = { λ _ e. e ≡ NoMemory };

    fn from(_error: AllocError) -> Self {
        Stop::Memory
    }
}

impl<'a, T: Drop> From<AllocFailed<T>> for Stop<'a> {
    ghost from_gives = { λ _ e. e ≡ NoMemory };

    fn from(_error: AllocFailed<T>) -> Self {
        Stop::Memory
    }
}
