//! Operators as bytes.

ghost use Rattle.std.specs.Prelude.{◌≡◌, ◌<◌, IfErr, IfNone, IfOk, IfSome};
ghost use Rattle.wy_spelling.specs.Reading.{IsRefused};
ghost use Rattle.wy_spelling.specs.Spelling.{SpellsFront};
ghost use Rattle.wy_image.specs.Spelled.{IsOperatorSpelled, operator_byte, operator_bytes};

use wy_code::instruction::Operator;
use wy_spelling::ReadError;

/// Returns the operator of a byte.
fn operator_of(byte: u8) -> Option<Operator>
    ensures found { IfSome result (λ x. operator_byte x ≡ byte) }
    ensures none { IfNone result (18 < byte) }
{
    match byte {
        0 => Some(Operator::Add),
        1 => Some(Operator::Subtract),
        2 => Some(Operator::Multiply),
        3 => Some(Operator::Divide),
        4 => Some(Operator::Remainder),
        5 => Some(Operator::Negate),
        6 => Some(Operator::Less),
        7 => Some(Operator::LessOrEqual),
        8 => Some(Operator::Greater),
        9 => Some(Operator::GreaterOrEqual),
        10 => Some(Operator::Equal),
        11 => Some(Operator::NotEqual),
        12 => Some(Operator::Not),
        13 => Some(Operator::Join),
        14 => Some(Operator::Size),
        15 => Some(Operator::Part),
        16 => Some(Operator::Code),
        17 => Some(Operator::Byte),
        18 => Some(Operator::Show),
        _ => None,
    }
}

/// Returns its byte.
pub fn byte_of(operator: Operator) -> u8
    ensures { result ≡ operator_byte operator }
{
    match operator {
        Operator::Add => 0,
        Operator::Subtract => 1,
        Operator::Multiply => 2,
        Operator::Divide => 3,
        Operator::Remainder => 4,
        Operator::Negate => 5,
        Operator::Less => 6,
        Operator::LessOrEqual => 7,
        Operator::Greater => 8,
        Operator::GreaterOrEqual => 9,
        Operator::Equal => 10,
        Operator::NotEqual => 11,
        Operator::Not => 12,
        Operator::Join => 13,
        Operator::Size => 14,
        Operator::Part => 15,
        Operator::Code => 16,
        Operator::Byte => 17,
        Operator::Show => 18,
    }
}

/// Returns the operator whose byte comes first, and the bytes after it.
pub fn read_operator(bytes: &[u8]) -> Result<(Operator, &[u8]), ReadError>
    ensures found { IfOk result (λ x. SpellsFront IsOperatorSpelled operator_bytes bytes.now x.0 x.1.now) }
    ensures bad { IfErr result (IsRefused IsOperatorSpelled operator_bytes bytes.now) }
{
    let [byte, rest @ ..] = bytes else {
        return Err(ReadError::Bad(0));
    };
    match operator_of(*byte) {
        Some(operator) => Ok((operator, rest)),
        None => Err(ReadError::Bad(bytes.len())),
    }
}
