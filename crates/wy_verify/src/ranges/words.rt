//! Names as an image may have them.

ghost use Rattle.std.specs.Prelude.{◌↔◌, ℕ, IsTrue};
ghost use Rattle.wy_text.specs.Members.{In};
ghost use Rattle.wy_verified.specs.Ranges.{IsGrantName, IsPrinted};
ghost use Rattle.wy_verify.specs.RangeParts.{IsPrintedByte};

use wy_layout::is_identifier;
use wy_text::limit::MOST_NAME_BYTES;
use wy_text::text::Text;

/// Whether a name may have a byte.
fn is_printed_byte(byte: u8) -> bool
    ensures { IsTrue result ↔ IsPrintedByte byte }
{
    byte >= 32 && byte != 127 && byte != b':'
}

/// Whether a name may have all of these bytes.
fn are_printed_bytes(bytes: &[u8]) -> bool
    ensures { IsTrue result ↔ ((b : ℕ) → In b bytes.now → IsPrintedByte b) }
{
    for byte in bytes {
        if !is_printed_byte(*byte) {
            return false;
        }
    }
    true
}

/// Whether a text may be the name of a body or of an instance.
pub(super) fn is_printed(text: &Text) -> bool
    ensures { IsTrue result ↔ IsPrinted text.now }
{
    let bytes = text.as_bytes();
    !bytes.is_empty() && are_printed_bytes(bytes)
}

/// Whether a text may be the name of a grant.
pub(super) fn is_grant_name(text: &Text) -> bool
    ensures { IsTrue result ↔ IsGrantName text.now }
{
    let bytes = text.as_bytes();
    bytes.len() <= MOST_NAME_BYTES && is_identifier(bytes)
}
