//! Laws on judging a scope. No function here does anything: what it says is its clause.

ghost use Rattle.wy_judge.specs.Accepting.{PassingKeepsRules, FailingBreaksRules, DecidedHasAnEnd};
ghost use Rattle.wy_judge.specs.Deciding.{SubtypingIsDecided, ScopesAreDecided};

/// A scope that passes keeps M-Pure, the rules for its start and its bodies, and M-Ascribe.
pub fn passing_scopes_keep_the_rules()
    ensures { PassingKeepsRules }
{}

/// A scope of a core that fails does not keep them.
pub fn failing_scopes_break_a_rule()
    ensures { FailingBreaksRules }
{}

/// A program of which it is known of each scope whether it passes or has a fault, and of its lines whether they pass or
/// have one, is accepted within the limits, or judging it has an end.
pub fn decided_programs_have_an_end()
    ensures { DecidedHasAnEnd }
{}

/// Of two types in range of a scope of a core the first is a subtype of the second, or it is not.
pub fn subtyping_is_decided()
    ensures { SubtypingIsDecided }
{}

/// Each scope of a core passes, or has a fault.
pub fn scopes_are_decided()
    ensures { ScopesAreDecided }
{}
