ghost use Rattle.std.specs.Prelude.{◌≡◌, ◌==◌, ◌<◌, ◌≤◌, ◌&&◌, length, not, true};
ghost use Rattle.std.specs.Char.{is_ascii_hexdigit};
ghost use Rattle.wy_lanes.specs.Runs.{front_len};
ghost use Rattle.wy_layout.specs.Faults.{Sane};
ghost use Rattle.wy_layout.specs.Gives.{LeadsOn};
ghost use Rattle.wy_layout.specs.Read as read;
ghost use Rattle.wy_layout.specs.Texts as spec;

use crate::refusal::Fault;

/// How far an escape inside a text is read.
#[derive(Clone, Copy)]
pub enum State {
    /// No escape is begun.
    Plain,
    /// A backslash is read.
    Slash,
    /// A backslash and an x are read.
    Hex,
    /// The first digit is read too.
    Digit(u8),
}

/// What a byte does inside a text.
#[derive(Clone, Copy)]
pub enum Move {
    /// An escape goes on.
    Go(State),
    /// The text goes on with a byte.
    Put(u8),
    /// The text ends.
    Close,
    /// The byte is wrong.
    Stop(Fault),
}

fn is_control(byte: u8) -> bool
    ensures { result ≡ spec.is_control byte }
{
    (byte < 32 && byte != b'\t') || byte == 127
}

/// How many bytes at the front stand for themselves inside a text, where none of them is a quote.
pub fn plain_len(bytes: &[u8]) -> usize
    ensures value { result ≡ front_len (λ b. not (b == 92) && not (spec.is_control b)) bytes.now }
    ensures within { result ≤ length bytes.now }
{
    let mut rest = bytes;
    while let [byte, more @ ..] = rest {
        if *byte == b'\\' || is_control(*byte) {
            break;
        }
        rest = more;
    }
    bytes.len() - rest.len()
}

fn is_short(byte: u8) -> bool
    ensures { result ≡ spec.is_short byte }
{
    byte == b'n' || byte == b't' || byte == b'\\' || byte == b'"'
}

fn short_value(byte: u8) -> u8
    ensures { result ≡ spec.short_value byte }
{
    match byte {
        b'n' => b'\n',
        b't' => b'\t',
        _ => byte,
    }
}

fn hex_value(digit: u8) -> u8
    requires { is_ascii_hexdigit digit ≡ true }
    ensures value { result ≡ spec.hex_value digit }
    ensures bound { result < 16 }
{
    match digit {
        b'0'..=b'9' => digit - b'0',
        b'A'..=b'F' => digit - b'A' + 10,
        _ => digit - b'a' + 10,
    }
}

fn wrong_escape(byte: u8) -> Move
    ensures { result ≡ read.wrong_escape byte }
{
    Move::Stop(if is_control(byte) {
        Fault::BadCharacter
    } else {
        Fault::BadEscape
    })
}

fn plain_step(byte: u8) -> Move
    ensures value { result ≡ read.step State.Plain byte }
    ensures sane { LeadsOn result }
{
    if byte == b'"' {
        Move::Close
    } else if byte == b'\\' {
        Move::Go(State::Slash)
    } else if is_control(byte) {
        Move::Stop(Fault::BadCharacter)
    } else {
        Move::Put(byte)
    }
}

fn slash_step(byte: u8) -> Move
    ensures value { result ≡ read.step State.Slash byte }
    ensures sane { LeadsOn result }
{
    if is_short(byte) {
        Move::Put(short_value(byte))
    } else if byte == b'x' {
        Move::Go(State::Hex)
    } else {
        wrong_escape(byte)
    }
}

/// What a byte of a text does, by what is read before it.
pub fn step(state: State, byte: u8) -> Move
    requires { Sane state }
    ensures value { result ≡ read.step state byte }
    ensures sane { LeadsOn result }
{
    match state {
        State::Plain => plain_step(byte),
        State::Slash => slash_step(byte),
        State::Hex => {
            if byte.is_ascii_hexdigit() {
                Move::Go(State::Digit(byte))
            } else {
                wrong_escape(byte)
            }
        }
        State::Digit(first) => {
            if byte.is_ascii_hexdigit() {
                Move::Put(hex_value(first) * 16 + hex_value(byte))
            } else {
                wrong_escape(byte)
            }
        }
    }
}
