ghost use Rattle.std.specs.Prelude.{◌≡◌};
ghost use Rattle.wy_engine.specs.NameFaults.{name_fault, names_status};

use crate::status::Status;
use wy_names::NameRefusal;
use wy_text::fault::{Fault, Place, RuleName};

/// The place at which a program without a program block is refused.
const FIRST: Place = Place {
    file: 1,
    line: 1,
    column: 1,
};

/// Returns the fault of a rule of names at a place.
fn name_fault(rule: RuleName, place: Place) -> Fault
    ensures { result ≡ name_fault rule place }
{
    Fault {
        place,
        rule,
        premise: 1,
        atom: None,
    }
}

/// Returns the status of a call whose names are refused (docs/LANGUAGE.md, "Names"). It takes no memory.
pub fn names_status(why: NameRefusal) -> Status
    ensures { result ≡ names_status why }
{
    match why {
        NameRefusal::Unknown(place) => Status::Refused(name_fault(RuleName::NUnknown, place)),
        NameRefusal::Twice(place) => Status::Refused(name_fault(RuleName::NTwice, place)),
        NameRefusal::Cycle(place) => Status::Refused(name_fault(RuleName::NCycle, place)),
        NameRefusal::NoProgram => Status::Refused(name_fault(RuleName::NNoProgram, FIRST)),
        NameRefusal::TwoPrograms(place) => {
            Status::Refused(name_fault(RuleName::NTwoPrograms, place))
        }
        NameRefusal::MemberUndefined(place) => {
            Status::Refused(name_fault(RuleName::NMemberUndefined, place))
        }
        NameRefusal::MemberUnknown(place) => {
            Status::Refused(name_fault(RuleName::NMemberUnknown, place))
        }
        NameRefusal::Limit(name) => Status::Limit(name),
        NameRefusal::Memory => Status::Memory,
    }
}
