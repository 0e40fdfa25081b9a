//! Laws of policies. No function here does anything: what it says is its clause.

ghost use Rattle.wy_policy.specs.Laws.{BadIsFew, NotBad, NotTooMany, OneBad, OneJudgement, OneList};

/// A text has one list of rows.
pub fn one_list()
    ensures { OneList }
{}

/// A policy has no bad line, and not too many rows.
pub fn policies_are_good()
    ensures bad { NotBad }
    ensures many { NotTooMany }
{}

/// One bad line comes first, and only in text that has not too many rows.
pub fn one_bad_line()
    ensures one { OneBad }
    ensures few { BadIsFew }
{}

/// An authority has one judgement.
pub fn one_judgement()
    ensures { OneJudgement }
{}
