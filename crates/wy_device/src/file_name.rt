//! Which names are a file's.

ghost use Rattle.std.specs.Prelude.{◌≡◌};
ghost use Rattle.wy_device.specs.Requests as requests;

/// How many bytes a file's name has at most.
const LONGEST_NAME: usize = 64;

fn is_name_byte(byte: u8) -> bool
    ensures { result ≡ requests.is_name_byte byte }
{
    matches!(byte, b'a'..=b'z' | b'0'..=b'9' | b'.' | b'_' | b'-')
}

fn are_name_bytes(bytes: &[u8]) -> bool
    ensures { result ≡ requests.are_name_bytes bytes.now }
{
    for byte in bytes {
        if !is_name_byte(*byte) {
            return false;
        }
    }
    true
}

/// Whether bytes are a file's name (docs/LANGUAGE.md, "Operations on grants"). It takes no memory.
pub fn is_file_name(name: &[u8]) -> bool
    ensures { result ≡ requests.is_file_name name.now }
{
    match name {
        [] => false,
        [first, ..] => *first != b'.' && are_name_bytes(name) && name.len() <= LONGEST_NAME,
    }
}
