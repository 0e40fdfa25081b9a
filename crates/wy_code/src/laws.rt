ghost use Rattle.wy_code.specs.declared.code.Code.{Code};
ghost use Rattle.wy_code.specs.Laws.{MoreStepsContinue, FewStepsAreTaken, SpentTakesAll};

/// A run that may take more steps continues the one that may take fewer: where that one was spent its
/// events come first, and where it ended otherwise both are the same.
pub fn more_steps_continue()
    ensures { (code : Code) → MoreStepsContinue code }
{}

/// A run takes no more steps than it may take.
pub fn few_steps_are_taken()
    ensures { (code : Code) → FewStepsAreTaken code }
{}

/// A run is spent only after all the steps that it may take.
pub fn spent_takes_all()
    ensures { (code : Code) → SpentTakesAll code }
{}
