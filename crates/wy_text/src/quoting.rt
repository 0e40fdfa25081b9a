ghost use Rattle.std.specs.Prelude.{◌≡◌, ◌++◌, ◌<◌, ◌/◌, ◌%◌, ◌∷◌, [], IfOk, OnOk};
ghost use Rattle.wy_text.specs.Quoted.{hexadecimal_digit_of, quoted_byte, quoted_form};

use crate::text::Memory;
use std::alloc::Global;

/// The digit of a value below 16.
fn hexadecimal_digit(value: u8) -> u8
    requires { value < 16 }
    ensures { result ≡ hexadecimal_digit_of value }
{
    if value < 10 {
        b'0' + value
    } else {
        b'a' + (value - 10)
    }
}

/// Adds a byte as it stands between quotes.
fn push_quoted(bytes: &mut Vec<u8>, byte: u8) -> Result<(), Memory>
    ensures { OnOk result (bytes.new.items ≡ bytes.old.items ++ quoted_byte byte) }
{
    match byte {
        b'"' => bytes.extend_from_slice(b"\\\"")?,
        b'\\' => bytes.extend_from_slice(b"\\\\")?,
        b'\n' => bytes.extend_from_slice(b"\\n")?,
        b'\t' => bytes.extend_from_slice(b"\\t")?,
        32..=126 => bytes.push(byte)?,
        _ => push_escaped(bytes, byte)?,
    }
    Ok(())
}

/// Adds a byte by its two hexadecimal digits.
fn push_escaped(bytes: &mut Vec<u8>, byte: u8) -> Result<(), Memory>
    ensures { OnOk result (bytes.new.items ≡ bytes.old.items ++ (92 ∷ 120 ∷ hexadecimal_digit_of (byte / 16) ∷ hexadecimal_digit_of (byte % 16) ∷ [])) }
{
    let escape = [
        b'\\',
        b'x',
        hexadecimal_digit(byte / 16),
        hexadecimal_digit(byte % 16),
    ];
    bytes.extend_from_slice(&escape)?;
    Ok(())
}

/// The bytes of a text between quotes.
pub fn between_quotes(alloc: Global, text: &[u8]) -> Result<Vec<u8>, Memory>
    ensures { IfOk result (λ v. v.items ≡ quoted_form text.now) }
{
    let mut bytes = Vec::from_slice(alloc, b"\"")?;
    for byte in text {
        push_quoted(&mut bytes, *byte)?;
    }
    bytes.push(b'"')?;
    Ok(bytes)
}
