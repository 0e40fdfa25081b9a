ghost use Rattle.std.specs.Prelude.{List, ℕ};
ghost use Rattle.wy_text.specs.declared.fault.AtomName.{AtomName};
ghost use Rattle.wy_device.specs.declared.deed.Event.{Event};
ghost use Rattle.wy_device.specs.Tapes.{Tapes};
ghost use Rattle.wy_types.specs.Program.{Program};
ghost use Rattle.wy_meaning.specs.Answers.{TakesWhatFits};
ghost use Rattle.wy_meaning.specs.Bounds.{Call};
ghost use Rattle.wy_meaning.specs.Laws.{IsCheap, ExtendsOnly, TakesInOrder, FailsLast};
ghost use Rattle.wy_meaning.specs.Start.{meaning};
ghost use Rattle.wy_meaning.specs.Starts.{Starts};
ghost use Rattle.wy_meaning.specs.OpenCalls.{IsSaidOfEachDeed, BoundsBeginnings};
ghost use Rattle.wy_meaning.specs.Used.{IsSaidOfEachUse};
ghost use Rattle.wy_meaning.specs.Widening.{LongerTextsChangeNothingElse};

/// Events are bounded by an authority exactly where each deed among them is in the authority of every
/// call that is open at it.
pub fn bounded_is_said_of_each_deed()
    ensures { (authority : Call → List AtomName) (events : List Event) → IsSaidOfEachDeed authority events }
{}

/// What a run does up to some point is bounded where all that it does is.
pub fn beginnings_are_bounded()
    ensures { (authority : Call → List AtomName) → BoundsBeginnings authority }
{}

/// An atom was used of an instance exactly where a deed has it at which a call of the instance is open.
pub fn used_is_said_of_each_deed()
    ensures { (instance : List ℕ) (events : List Event) (atom : AtomName) → IsSaidOfEachUse instance events atom }
{}

/// What a program means takes at most four instructions for each node that is evaluated.
pub fn nodes_cost_four()
    ensures { (n : ℕ) (p : Program) (s : Starts) (tapes : Tapes) → IsCheap (meaning n p s tapes) }
{}

/// Longer tapes only extend a meaning that waits: over tapes that begin with some answers, one that does
/// not wait over just these answers is the same, and one that waits has the same events at first.
pub fn answers_extend_only()
    ensures { (n : ℕ) (p : Program) (s : Starts) → ExtendsOnly n p s }
{}

/// A run takes an answer exactly where a device may give it to the operation.
pub fn fitting_answers_are_taken()
    ensures { TakesWhatFits }
{}

/// A run takes the answers of each kind of device in their order: the answers to its deeds of that kind are
/// the first ones of the tape.
pub fn answers_are_taken_in_order()
    ensures { (n : ℕ) (p : Program) (s : Starts) → TakesInOrder n p s }
{}

/// An operation that failed is the last event of a run, which ends so, and the one operation that failed; a run that
/// ends otherwise had an answer to each operation. No meaning is spent, since it has no bound on its steps.
pub fn failed_operations_are_last()
    ensures { (n : ℕ) (p : Program) (s : Starts) → FailsLast n p s }
{}

/// Longer texts change nothing else: where a text may be longer in one edition of the language than in another, and two programs
/// have the same scopes and the same grants in both, the one means in the first what the other means in the second, over answers
/// that are short enough for the first, unless there it traps at a text that is too long.
pub fn longer_texts_change_nothing_else()
    ensures { LongerTextsChangeNothingElse }
{}
