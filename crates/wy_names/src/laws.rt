//! Laws of the definitions of names. No function here does anything: what it says is its clause.

ghost use Rattle.wy_names.specs.Laws.{MarksOfItems, OneProgram, OneRefusal, ResolvedOrRefused};

/// Names that resolve are those of one program.
pub fn one_program()
    ensures { OneProgram }
{}

/// Names that resolve are refused for want of memory alone.
pub fn resolved_or_refused()
    ensures { ResolvedOrRefused }
{}

/// But for want of memory, names have one refusal: of those that there are, one comes before all others.
pub fn one_refusal()
    ensures { OneRefusal }
{}

/// Each form of the program of names that resolve has the mark of its tree: a test that each mark of the trees passes is passed
/// by each mark of the program.
pub fn marks_are_of_the_items()
    ensures { MarksOfItems }
{}
