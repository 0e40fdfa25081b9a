//! Primitive types as bytes.

ghost use Rattle.std.specs.Prelude.{◌≡◌, ◌<◌, IfErr, IfNone, IfOk, IfSome};
ghost use Rattle.wy_spelling.specs.Reading.{IsRefused};
ghost use Rattle.wy_spelling.specs.Spelling.{SpellsFront};
ghost use Rattle.wy_image.specs.Spelled.{IsPrimitiveSpelled, primitive_byte, primitive_bytes};

use wy_device::primitive::Primitive;
use wy_spelling::ReadError;

/// Returns the primitive type of a byte.
fn primitive_of(byte: u8) -> Option<Primitive>
    ensures found { IfSome result (λ x. primitive_byte x ≡ byte) }
    ensures none { IfNone result (4 < byte) }
{
    match byte {
        0 => Some(Primitive::Console),
        1 => Some(Primitive::Folder),
        2 => Some(Primitive::Clock),
        3 => Some(Primitive::Random),
        4 => Some(Primitive::FullFolder),
        _ => None,
    }
}

/// Returns its byte.
pub fn byte_of(primitive: Primitive) -> u8
    ensures { result ≡ primitive_byte primitive }
{
    match primitive {
        Primitive::Console => 0,
        Primitive::Folder => 1,
        Primitive::Clock => 2,
        Primitive::Random => 3,
        Primitive::FullFolder => 4,
    }
}

/// Returns the primitive type whose byte comes first, and the bytes after it.
pub fn read_primitive(bytes: &[u8]) -> Result<(Primitive, &[u8]), ReadError>
    ensures found { IfOk result (λ x. SpellsFront IsPrimitiveSpelled primitive_bytes bytes.now x.0 x.1.now) }
    ensures bad { IfErr result (IsRefused IsPrimitiveSpelled primitive_bytes bytes.now) }
{
    let [byte, rest @ ..] = bytes else {
        return Err(ReadError::Bad(0));
    };
    match primitive_of(*byte) {
        Some(primitive) => Ok((primitive, rest)),
        None => Err(ReadError::Bad(bytes.len())),
    }
}
