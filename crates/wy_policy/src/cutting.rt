ghost use Rattle.std.specs.Prelude.{◌≡◌, ◌≤◌, length};
ghost use Rattle.std.specs.Option.{option_copied};
ghost use Rattle.wy_policy.specs.Reading.{Cut, cut};

use memchr::memchr;

/// What stands before the first of a byte; and what stands behind it, where there is one.
pub fn cut(stop: u8, text: &[u8]) -> (&[u8], Option<&[u8]>)
    ensures { cut stop text.now ≡ record { front = result.0.now; behind = option_copied result.1 } }
{
    match memchr(stop, text) {
        None => (text, None),
        Some(at) => (&text[..at], Some(&text[at + 1..])),
    }
}
