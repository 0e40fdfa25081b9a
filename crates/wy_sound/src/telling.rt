//! Laws of the report (docs/LANGUAGE.md, "Authority and report"): it tells instances and bodies apart by their names.

ghost use Rattle.wy_sound.specs.Granted.{ReportedAtomsAreGranted};
ghost use Rattle.wy_sound.specs.Telling.{InstancesAreTold, InstancesHaveLineNames, BodiesAreTold, BodiesHaveLineNames, AllowedIsReported};
ghost use Rattle.wy_sound.specs.Used.{UsedIsAllowed};

/// No two instances of a program that resolving makes have one name, and none is called as the program is.
pub fn instances_are_told()
    ensures { InstancesAreTold }
{}

/// The name of an instance has no control character and no colon, and is not empty, where those of uses and lines are such.
pub fn instances_have_line_names()
    ensures { InstancesHaveLineNames }
{}

/// No two bodies of an instance have one name.
pub fn bodies_are_told()
    ensures { BodiesAreTold }
{}

/// The name of a body is such too, where those of methods are.
pub fn bodies_have_line_names()
    ensures { BodiesHaveLineNames }
{}

/// What a call may do is what the report's line of its body in its instance says, and no more.
pub fn allowed_is_reported()
    ensures { AllowedIsReported }
{}

/// Each atom that a body's line has is of a grant of the program.
pub fn reported_atoms_are_granted()
    ensures { ReportedAtomsAreGranted }
{}

/// Of events in which each operation is in the authority of every open call, what was used of an instance is within what the
/// report's line of the instance says (docs/LANGUAGE.md, "Observation").
pub fn used_is_allowed()
    ensures { UsedIsAllowed }
{}
