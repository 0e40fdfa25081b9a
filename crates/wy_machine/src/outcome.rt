//! How a step came out: whether the run goes on, beside how it ends if it does not.

ghost use Rattle.std.specs.Prelude.{◌≡◌};
ghost use Rattle.wy_machine.specs.Steps.{outcome};

use crate::run_end::RunEnd;

/// Whether a step went on; else how it ended the run is put aside. What may end a run stands in functions that are not
/// inlined: in a step itself, the end of a run would be room that each instruction clears.
pub fn went_on(own: Result<(), RunEnd>, end: &mut RunEnd) -> bool
    ensures { outcome result end.new ≡ own }
{
    match own {
        Ok(()) => true,
        Err(stop) => {
            *end = stop;
            false
        }
    }
}

/// How a step came out that goes on or ends so.
pub fn came(went: bool, end: RunEnd) -> Result<(), RunEnd>
    ensures { result ≡ outcome went end }
{
    if went { Ok(()) } else { Err(end) }
}
