//! The text that printing gathers.
ghost use Rattle.std.specs.Prelude.{◌≡◌, false, [], List, ℕ, IfOk};
ghost use Rattle.wy_syntax.specs.Collected.{Adds};

use std::alloc::Global;
use std::marker::Model;
use wy_text::text::{Memory, Text, from_vec};

/// A text that is gathered piece by piece. It remembers that memory was wanting, and gathers no more then.
#[derive(Drop)]
pub struct Output {
    alloc: Global,
    bytes: Vec<u8>,
    wanting: bool,
}

impl Model for Output {
    ghost use Rattle.std.specs.Prelude.{ℕ};
    ghost use Rattle.wy_syntax.specs.Collected.{Collected};

    ghost Value = { Collected ℕ };

    ghost view = { λ o. record { list = o.bytes.items; wanting = o.wanting } };

    ghost invariant = { λ o. Unit {0} };
}

impl Output {
    /// No text.
    pub fn new(alloc: Global) -> Output
        ensures { result ≡ record { list = []; wanting = false } }
    {
        Output {
            alloc,
            bytes: Vec::new(alloc),
            wanting: false,
        }
    }

    /// Where the memory of the text is from.
    pub fn alloc(&self) -> Global {
        self.alloc
    }

    /// Adds what was made for it, or remembers that there was no memory to make it.
    pub fn push_made(&mut self, made: Result<Text, Memory>)
        ensures { (text : List ℕ) → IfOk made (λ t. t ≡ text) → Adds text self.old self.new }
    {
        match made {
            Ok(text) => push(self, text.as_bytes()),
            Err(Memory) => self.lose(),
        }
    }

    /// Remembers that memory was wanting.
    pub fn lose(&mut self)
        ensures { (text : List ℕ) → Adds text self.old self.new }
    {
        self.wanting = true;
    }

    /// The text, if memory sufficed for all of it.
    pub fn into_text(self) -> Result<Text, Memory>
        ensures { IfOk result (λ text. (self.wanting ≡ false) × (text ≡ self.list)) }
    {
        if self.wanting {
            return Err(Memory);
        }
        Ok(from_vec(self.bytes))
    }
}

/// Adds bytes.
pub fn push(out: &mut Output, bytes: &[u8])
    ensures { Adds bytes.now out.old out.new }
{
    if !out.wanting && out.bytes.extend_from_slice(bytes).is_err() {
        out.wanting = true;
    }
}
