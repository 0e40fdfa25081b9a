//! Laws of linking (docs/LANGUAGE.md, "Start order and ground sets", "Types of a run"). No function here does
//! anything: what it says is its clause.

ghost use Rattle.wy_sound.specs.Granted.{GroundAtomsAreGranted};
ghost use Rattle.wy_sound.specs.Grounds.{GroundSetsAre, VisitsEnd};
ghost use Rattle.wy_sound.specs.Linking.{AcceptedInstancesFit, AcceptedArgumentsFit};

/// Each instance of an accepted program is one of its scope: it has a bound where that is a plain module, and sets of
/// the program's atoms. The program is the last, and the only one of its kind.
pub fn accepted_instances_fit()
    ensures { AcceptedInstancesFit }
{}

/// In an accepted program each instance is handed, for each own name of its scope, what has the name's type as the
/// instance reads it, over the types of the run: a grant of the program, or an instance that starts before.
pub fn accepted_arguments_fit()
    ensures { AcceptedArgumentsFit }
{}

/// In an accepted program the ground sets of the atoms of a used module or an instance are the grounds, in it, of what
/// its module defines; those of bare parameters are the grounds, in the scope of the line, of the members of the
/// arguments' types; an atom of a grant is itself.
pub fn ground_sets_are()
    ensures { GroundSetsAre }
{}

/// Each atom of a ground set of an instance or of the program, of an instance's bound, and of what a body of theirs may
/// do, is of a grant of the program.
pub fn ground_atoms_are_granted()
    ensures { GroundAtomsAreGranted }
{}

/// Where no line leads back, a visit that may go through as many scopes as there are is never cut short.
pub fn visits_end()
    ensures { VisitsEnd }
{}
