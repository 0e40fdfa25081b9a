ghost use Rattle.std.specs.Prelude.{◌≡◌, ℕ, IfOk};
ghost use Rattle.wy_spelling.specs.Spelling.{IsBadAt, Spells};
ghost use Rattle.wy_image.specs.Files.{IsFileSpelled, file_bytes};

use crate::file::ImageFile;
use std::alloc::Global;
use wy_spelling::{WholeError, read_whole};

/// Why bytes are not an image.
#[derive(Clone, Copy)]
pub enum DecodeRefusal {
    /// The number of bytes that can begin an image; with one byte more they cannot.
    BadImage(u64),
    Memory,
}

/// Returns the image that all of the bytes spell (docs/PROMISES.md, "Images").
///
/// # Errors
///
/// `BadImage` comes exactly when the bytes spell no image. Only `Memory` can replace these answers.
pub fn decode(alloc: Global, bytes: &[u8]) -> Result<ImageFile, DecodeRefusal>
    ensures found { IfOk result (λ file. Spells IsFileSpelled file_bytes bytes.now file) }
    ensures bad { (at : ℕ) → result ≡ Err (DecodeRefusal.BadImage at) → IsBadAt IsFileSpelled file_bytes bytes.now at }
{
    match read_whole::<ImageFile>(alloc, b"WYIMAGE1", bytes) {
        Ok(file) => Ok(file),
        Err(WholeError::Bad(at)) => Err(DecodeRefusal::BadImage(at as u64)),
        Err(WholeError::Memory) => Err(DecodeRefusal::Memory),
    }
}
