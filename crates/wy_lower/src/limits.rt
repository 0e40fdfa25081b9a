//! What is counted of a program: its bodies before its code is made, and the slots of each after.

ghost use Rattle.std.specs.Prelude.{◌≡◌, map, nat_lt};
ghost use Rattle.wy_text.specs.LimitName.{limit_number};
ghost use Rattle.wy_text.specs.declared.limit.LimitName.TheVariants.{Bodies};
ghost use Rattle.wy_types.specs.Program.{scope_of};
ghost use Rattle.wy_lower.specs.Capped.{capped};
ghost use Rattle.wy_lower.specs.Counts.{body_count, some_slots_above};

use crate::indexes::sum;
use wy_code::code::Body;
use wy_text::limit::LimitName;
use wy_types::resolved::Scope;

/// How many bodies scopes have, as far as the machine counts.
fn body_count(scopes: &[Scope]) -> usize
    ensures { result ≡ capped (body_count (map scope_of scopes.now)) }
{
    let mut count = 0;
    for scope in scopes {
        count = sum(count, sum(1, scope.bodies.len()));
    }
    count
}

/// Whether scopes have more bodies than the limit says.
pub(crate) fn has_too_many_bodies(scopes: &[Scope]) -> bool
    ensures { result ≡ nat_lt (limit_number Bodies) (body_count (map scope_of scopes.now)) }
{
    body_count(scopes) as u64 > LimitName::Bodies.number()
}

/// Whether some body has more slots than this.
pub(crate) fn some_slots_above(most: u64, bodies: &[Body]) -> bool
    ensures { result ≡ some_slots_above most bodies.now }
{
    for body in bodies {
        if u64::from(body.slots) > most {
            return true;
        }
    }
    false
}
