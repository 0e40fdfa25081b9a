ghost use Rattle.std.specs.Prelude.{◌≡◌, ◌≤◌, IfOk, Err};
ghost use Rattle.wy_text.specs.Outside.{gained, Rose};
ghost use Rattle.wy_text.specs.Shelf.{ShelfState, GivesFile, read_well, read_badly};

use crate::list::Items;
use crate::text::{Memory, Text};
use thiserror::Error;

/// A name and the text that goes by it.
#[derive(Drop)]
pub struct NamedText {
    pub name: Text,
    pub text: Text,
}

/// Files in memory, each with its name.
pub type FileList = Items<NamedText>;

/// One read of a shelf: the name that was asked for, and whether the read failed.
#[derive(Drop)]
pub struct ReadDone {
    pub name: Text,
    pub failed: bool,
}

/// Why a shelf gave no bytes: the read failed, or memory was wanting.
#[derive(Debug, Drop, Error)]
pub enum ReadError {
    #[error("the file was not read")]
    Failed,
    #[error("no memory")]
    Memory,
}

impl From<Memory> for ReadError {
    ghost use Rattle.wy_text.specs.declared.shelf.ReadError.TheVariants.{Memory as NoMemory};

    ghost from_gives = { λ _ error. error ≡ NoMemory };

    fn from(_memory: Memory) -> ReadError {
        ReadError::Memory
    }
}

/// What holds files by their names. Contracts see its files and its reads where it tells them, as one
/// in memory does and the real one does not, and the count of its faults, which never falls.
pub trait Shelf {
    ghost state: { Self → ShelfState };

    /// Gives the first `most` bytes of the named file, or all of it where it is shorter.
    /// `Failed` comes only where a fault was counted: the name is not there, or its file was not read.
    fn read(&mut self, name: &str, most: usize) -> Result<Vec<u8>, ReadError>
        ensures files { (state self.new).files ≡ (state self.old).files }
        ensures gives { IfOk result (λ v. GivesFile (state self.old).files name.now most v.items) }
        ensures ok { IfOk result (λ _. (state self.new).reads ≡ gained (state self.old).reads (read_well name.now)) }
        ensures bad { result ≡ Err ReadError.Failed → (state self.new).reads ≡ gained (state self.old).reads (read_badly name.now) }
        ensures none { result ≡ Err ReadError.Memory → (state self.new).reads ≡ (state self.old).reads }
        ensures counted { (state self.old).faults ≤ (state self.new).faults }
        ensures failed { result ≡ Err ReadError.Failed → Rose (state self.old).faults (state self.new).faults };
}
