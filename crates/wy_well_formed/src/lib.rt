//! The laws on resolved programs (docs/LANGUAGE.md, "Names"). No function here does anything: what each says is its
//! clause.
#![tactic(auto)]

ghost use Rattle.wy_well_formed.specs.ValPlaces.{ResolvedValsAreAsWritten, ResolvedValsAreInOrder};
ghost use Rattle.wy_well_formed.specs.WellFormed.{NamesAreDecided, ResolvedGrantsStandFirst, ResolvedIsCore, ResolvedIsKept, ResolvedKeepsAll, ResolvedMainHasNoFields, ResolvedMakesOnce, ResolvedModulesCaptureNothing, ResolvedNamesAreOrdinary, ResolvedNamesAreWords, ResolvedNamesFit};

/// A program whose names resolve is a core: its numbers are in range, its names differ, its types, effects and bodies
/// have the forms that their kinds of scope ask, and no module leads back to itself.
pub fn resolved_is_core()
    ensures { ResolvedIsCore }
{}

/// Its own names have their types: a grant, a use and an instance have the type that they are declared with or their
/// module is sealed at, of the atoms that they open, an import is at its bound of the atoms before it, and parameters
/// stand first and have types of their own atoms.
pub fn resolved_names_fit()
    ensures { ResolvedNamesFit }
{}

/// No own name has a space or a full stop in it, where the items are spelled by tokens whose names have none.
pub fn resolved_names_are_words()
    ensures { ResolvedNamesAreWords }
{}

/// No own name is `main`, no method is named `init` or `run` or has a full stop in its name, and no scope has more than
/// 2 ^ 64 literals, where the items are spelled by tokens whose names are such, and which are no more than a file may
/// have.
pub fn resolved_names_are_ordinary()
    ensures { ResolvedNamesAreOrdinary }
{}

/// Of the program's own names the grants stand first.
pub fn resolved_grants_stand_first()
    ensures { ResolvedGrantsStandFirst }
{}

/// The methods of a module see no variable but their parameters.
pub fn resolved_modules_capture_nothing()
    ensures { ResolvedModulesCaptureNothing }
{}

/// Each object literal is made at one place of its scope.
pub fn resolved_makes_once()
    ensures { ResolvedMakesOnce }
{}

/// The program's own object has no fields.
pub fn resolved_main_has_no_fields()
    ensures { ResolvedMainHasNoFields }
{}

/// The `val`s of a scope are numbered as they are written: they are as many as those of its tree, and the one of a number
/// has the place of that number among theirs.
pub fn resolved_vals_are_as_written()
    ensures { ResolvedValsAreAsWritten }
{}

/// Where the items are spelled by tokens whose names stand in the order of their places, the numbers of a scope's `val`s
/// ascend with their places.
pub fn resolved_vals_are_in_order()
    ensures { ResolvedValsAreInOrder }
{}

/// A program whose names resolve has what every core keeps: all of this but for what its names are.
pub fn resolved_is_kept()
    ensures { ResolvedIsKept }
{
    resolved_is_core();
    resolved_names_fit();
    resolved_grants_stand_first();
    resolved_modules_capture_nothing();
    resolved_makes_once();
    resolved_main_has_no_fields();
}

/// All of this, where the items are spelled by tokens whose names are words, no more than a file may have.
pub fn resolved_keeps_all()
    ensures { ResolvedKeepsAll }
{
    resolved_is_kept();
    resolved_names_are_words();
    resolved_names_are_ordinary();
}

/// Of any items the names resolve, or they are refused for a cause that is not want of memory.
pub fn names_are_decided()
    ensures { NamesAreDecided }
{}
