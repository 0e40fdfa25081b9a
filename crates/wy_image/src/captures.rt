//! Captured values as bytes: the form, and its number.

ghost use Rattle.std.specs.Prelude.{◌≡◌, ◌∷◌, slice_index};
ghost use Rattle.wy_spelling.specs.Spelling.{number_bytes};
ghost use Rattle.wy_image.specs.Forms.{IsNumberedCapture};
ghost use Rattle.wy_image.specs.CaptureLaws.{capture_kind};
ghost use Rattle.wy_image.specs.Spelled.{IsCaptureSpelled, capture_bytes};

use crate::file::Capture;
use std::alloc::Global;
use wy_spelling::{ReadError, Spelled, WriteRefusal};

/// Makes the value of a form that has a number.
fn numbered(form: u8, number: u32) -> Capture
    requires { IsNumberedCapture form }
    ensures spelled { IsCaptureSpelled result }
    ensures bytes { capture_bytes result ≡ form ∷ number_bytes number }
{
    match form {
        0 => Capture::Slot(number),
        _ => Capture::Value(number),
    }
}

/// Returns the byte of the form.
fn form_of(capture: &Capture) -> u8
    ensures { result ≡ slice_index (capture_bytes capture.now) 0 }
{
    match capture {
        Capture::Slot(_) => 0,
        Capture::Value(_) => 1,
    }
}

impl Spelled for Capture {
    ghost IsSpelled = { IsCaptureSpelled };

    ghost bytes_of = { capture_bytes };

    fn read(alloc: Global, bytes: &[u8]) -> Result<(Capture, &[u8]), ReadError> {
        let [form, rest @ ..] = bytes else {
            return Err(ReadError::Bad(0));
        };
        match *form {
            0..=1 => {
                let (number, rest) = u32::read(alloc, rest)?;
                Ok((numbered(*form, number), rest))
            }
            _ => Err(ReadError::Bad(bytes.len())),
        }
    }

    fn write(&self, out: &mut Vec<u8>) -> Result<(), WriteRefusal> {
        out.push(form_of(self))?;
        match self {
            Capture::Slot(number) | Capture::Value(number) => number.write(out),
        }
    }

    ghost some = { capture_kind.some };

    ghost apart = { capture_kind.apart };

    ghost filled = { capture_kind.filled };
}
