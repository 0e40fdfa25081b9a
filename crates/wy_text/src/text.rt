ghost use Rattle.std.specs.Prelude.{◌≡◌, ◌++◌, List, ℕ, IfOk};
ghost use Rattle.wy_text.specs.Quoted.{quoted_form};

use crate::quoting::between_quotes;
use std::alloc::{AllocError, AllocFailed, Global};
use std::hash::{Hash, Hasher};
use std::marker::Model;

/// Want of memory: the one answer that a call may give at any time.
#[derive(Clone, Copy, Debug, PartialEq, Eq)]
pub struct Memory;

impl From<AllocError> for Memory {
    fn from(_error: AllocError) -> Memory {
        Memory
    }
}

impl<T: Drop> From<AllocFailed<T>> for Memory {
    fn from(_error: AllocFailed<T>) -> Memory {
        Memory
    }
}

/// A text is its list of bytes.
#[derive(Debug, Drop)]
pub struct Text {
    bytes: Vec<u8>,
}

impl Model for Text {
    ghost Value = { List ℕ };

    ghost view = { λ t. t.bytes.items };
}

impl PartialEq for Text {
    ghost use Rattle.std.specs.Prelude.{◌==◌};
    ghost use Rattle.std.specs.Cmp.Lexicographic.{pointwise};
    ghost use Rattle.std.proofs.Common.{rules};
    ghost use Rattle.std.specs.Cmp.Rules.{comparing};

    ghost eq = { pointwise ◌==◌ };

    ghost laws = { Prim.search (comparing, rules) };

    fn eq(&self, other: &Text) -> bool {
        self.bytes.as_slice() == other.bytes.as_slice()
    }
}

impl Eq for Text {
    ghost use Rattle.std.proofs.Common.{rules};
    ghost use Rattle.std.specs.Cmp.Rules.{comparing};

    ghost laws = { Prim.search (comparing, rules) };
}

impl Hash for Text {
    ghost use Rattle.std.specs.Hash as fed;
    ghost use Rattle.std.proofs.Common.{rules};
    ghost use Rattle.std.specs.Cmp.Rules.{hashing};

    ghost hash_input = { fed.slice fed.u8 };

    ghost respects_eq = { Prim.search (hashing, rules) };

    fn hash<H: Hasher>(&self, state: &mut H) {
        self.bytes.as_slice().hash(state);
    }
}

/// The text of these bytes.
pub fn from_bytes(alloc: Global, bytes: &[u8]) -> Result<Text, Memory>
    ensures { IfOk result (λ t. t ≡ bytes.now) }
{
    let bytes = Vec::from_slice(alloc, bytes)?;
    Ok(Text { bytes })
}

/// The text that a vector of bytes holds, with no copy made.
pub fn from_vec(bytes: Vec<u8>) -> Text
    ensures { result ≡ bytes.items }
{
    Text { bytes }
}

impl Text {
    /// The text's bytes. It takes no memory.
    pub fn as_bytes(&self) -> &[u8]
        ensures { result.now ≡ self.now }
    {
        self.bytes.as_slice()
    }

    /// A text of the same bytes.
    pub fn copy(&self) -> Result<Text, Memory>
        ensures { IfOk result (λ t. t ≡ self.now) }
    {
        let bytes = self.bytes.clone()?;
        Ok(Text { bytes })
    }

    /// This text's bytes, and then the other's.
    pub fn joined(&self, other: &Text) -> Result<Text, Memory>
        ensures { IfOk result (λ t. t ≡ self.now ++ other.now) }
    {
        let mut bytes = self.bytes.clone()?;
        bytes.extend_from_slice(other.bytes.as_slice())?;
        Ok(Text { bytes })
    }

    /// The text between quotes, as programs and event lines write it (docs/LANGUAGE.md, "Texts").
    pub fn quoted(&self) -> Result<Text, Memory>
        ensures { IfOk result (λ t. t ≡ quoted_form self.now) }
    {
        let bytes = between_quotes(*self.bytes.allocator(), self.bytes.as_slice())?;
        Ok(Text { bytes })
    }
}
