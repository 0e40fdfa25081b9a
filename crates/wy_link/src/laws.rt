//! Laws on whole programs. No function here does anything: what it says is its clause.

ghost use Rattle.wy_link.specs.Deciding.{LinesAreDecided, JudgingIsDecided};

/// The lines of a core whose plain modules go on pass, or have a fault.
pub fn lines_are_decided()
    ensures { LinesAreDecided }
{}

/// Each core is accepted within the limits, or judging it has an end.
pub fn judging_is_decided()
    ensures { JudgingIsDecided }
{}
