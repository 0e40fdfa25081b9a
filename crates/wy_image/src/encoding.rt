ghost use Rattle.std.specs.Prelude.{◌≡◌, ◌≤◌, ◌^◌, length, IfErr, IfOk};
ghost use Rattle.wy_spelling.specs.Spelling.{Spells};
ghost use Rattle.wy_spelling.specs.declared.spelled.WriteRefusal.TheVariants as write_refusal;
ghost use Rattle.wy_image.specs.Files.{IsFileSpelled, file_bytes};

use crate::file::ImageFile;
use std::alloc::Global;
use wy_spelling::{Spelled, WriteRefusal};
use wy_text::text::{Text, from_vec};

/// Returns the bytes of an image (docs/PROMISES.md, "Images").
///
/// # Errors
///
/// `Long` comes exactly when the image has no spelling: one of its lists has 4,294,967,296 items or more, and four
/// bytes cannot hold their number. Its bytes would then be 4,294,967,296 or more. Only `Memory` can replace these
/// answers.
pub fn encode(alloc: Global, file: &ImageFile) -> Result<Text, WriteRefusal>
    ensures written { IfOk result (λ t. Spells IsFileSpelled file_bytes t file.now) }
    ensures unspelled { IfErr result (λ e. e ≡ write_refusal.Long → IsFileSpelled file.now → ⊥) }
    ensures long { IfErr result (λ e. e ≡ write_refusal.Long → 2 ^ 32 ≤ length (file_bytes file.now)) }
{
    let mut out = Vec::new(alloc);
    out.extend_from_slice(b"WYIMAGE1")?;
    file.write(&mut out)?;
    Ok(from_vec(out))
}
