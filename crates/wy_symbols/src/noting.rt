//! The refusal that comes first.

ghost use Rattle.std.specs.Prelude.{◌≡◌, ◌∷◌, [], Some};
ghost use Rattle.wy_symbols.specs.Least.{cause_number, comes_before, lesser, noted, refusal_at};

use crate::refusal::{Cause, Refusal};
use wy_text::fault::Place;

/// The order of causes at one place.
fn cause_number(cause: Cause) -> u8
    ensures { result ≡ cause_number cause }
{
    match cause {
        Cause::Unknown => 1,
        Cause::Twice => 2,
        Cause::Cycle => 3,
        Cause::TwoPrograms => 5,
        Cause::MemberUndefined => 6,
        Cause::MemberUnknown => 7,
    }
}

/// Whether a refusal comes before another: at a lesser place, or at one place with a lesser number.
/// It takes no memory.
pub fn comes_before(a: Refusal, b: Refusal) -> bool
    ensures { result ≡ comes_before a b }
{
    a.place < b.place || (a.place == b.place && cause_number(a.cause) < cause_number(b.cause))
}

/// Keeps the refusal that comes first, of the one so far and another. It takes no memory.
pub fn note(least: &mut Option<Refusal>, new: Refusal)
    ensures { least.new ≡ Some (lesser least.old new) }
{
    *least = match *least {
        None => Some(new),
        Some(old) => {
            if comes_before(new, old) {
                Some(new)
            } else {
                Some(old)
            }
        }
    };
}

/// Keeps the refusal that comes first, of the one so far and one at this place. It takes no memory.
pub fn note_at(least: &mut Option<Refusal>, place: Place, cause: Cause)
    ensures { least.new ≡ noted least.old (refusal_at place cause ∷ []) }
{
    note(least, Refusal { place, cause });
}
