ghost use Rattle.wy_types.specs.Code.{Block};
ghost use Rattle.wy_types.specs.Program.{Program};
ghost use Rattle.wy_meaning.specs.Starts.{Starts};
ghost use Rattle.wy_types.specs.Core.{IsCore};
ghost use Rattle.wy_code.specs.Named.{HasPushedTexts, HasCalledMethods};
ghost use Rattle.wy_code.specs.Running.{NeverStuck};
ghost use Rattle.wy_lower.specs.Correct.{Compiles, NeverWrong};
ghost use Rattle.wy_lower.specs.Inside.{Inside};
ghost use Rattle.wy_lower.specs.Laws.{HasCountedBodies, HasBodiesOnce, HasItsTexts, HasItsMethodNames, HasItsBodies, HasItsVals, HasItsMarks, HasFixedLength, AcceptedIsLowerable, AcceptedCodeFollows, AcceptedIsNeverStuck};
ghost use Rattle.wy_lower.specs.Lowerable.{Lowerable};
ghost use Rattle.wy_lower.specs.Lowering.{lowered};

/// The code of a program has as many bodies as the limit `bodies` counts in it.
pub fn bodies_are_counted()
    ensures { (p : Program) (s : Starts) → HasCountedBodies p s }
{}

/// Each text that a program writes out is found in its code's table at its number.
pub fn texts_have_numbers()
    ensures { (p : Program) (s : Starts) → HasItsTexts p s }
{}

/// The texts of a program's code are those that its instructions push, each once, in the order of bodies and
/// instructions.
pub fn texts_are_pushed()
    ensures { (p : Program) (s : Starts) → HasPushedTexts (lowered p s) }
{}

/// The name of each call of a program, and of each method of its modules and literals, is found in its code's table at
/// its number.
pub fn method_names_have_numbers()
    ensures { (p : Program) (s : Starts) → HasItsMethodNames p s }
{}

/// The method names of a program's code are those of its calls, in the order of bodies and instructions, and then those
/// of the methods of kinds of objects, in the order of scopes and kinds, each once.
pub fn methods_are_called()
    ensures { (p : Program) (s : Starts) → HasCalledMethods (lowered p s) }
{}

/// Each scope of a program stands in its code at its number, its `init` or `run` at the number that the
/// scope says, and its methods after that one, in their order.
pub fn bodies_stand_at_their_numbers()
    ensures { (p : Program) (s : Starts) → HasItsBodies p s }
{}

/// Each body of the code stands once among its scopes: as the first of one, or as a method of one of its literals.
pub fn bodies_stand_once()
    ensures { (p : Program) (s : Starts) → IsCore p → HasBodiesOnce p s }
{}

/// A body has as many `val`s as its instructions say: its parameters are the slots behind the current object, and its
/// `val`s those behind them, up to the last slot that is stored into.
pub fn vals_are_stored()
    ensures { (p : Program) (s : Starts) → IsCore p → HasItsVals p s }
{}

/// What every mark of a program is, every mark of its code is: a test that each mark of the program passes is passed by the mark
/// of each instruction.
pub fn marks_are_of_the_program()
    ensures { (p : Program) (s : Starts) → HasItsMarks p s }
{}

/// How long the code of a block is does not depend on the address at which it begins.
pub fn lengths_are_fixed()
    ensures { (i : Inside) (b : Block) → HasFixedLength i b }
{}

/// The code of a lowerable program does what the program means, at every depth, step bound and answers: it
/// ends in the same way after exactly as many steps and with the same events, or, where the bound is
/// smaller, it is spent with the first of them. Nothing is said of runs that mean something wrong.
pub fn correct_lowering()
    ensures { (p : Program) (s : Starts) → Lowerable p s → Compiles p s (lowered p s) }
{}

/// Where no run of a lowerable program means something wrong, no run of its code is stuck.
pub fn never_stuck_where_never_wrong()
    ensures { (p : Program) (s : Starts) → Lowerable p s → NeverWrong p s → NeverStuck (lowered p s) }
{}

/// A program that resolving makes and that is accepted is lowerable, with the instances of its start list.
pub fn accepted_is_lowerable()
    ensures { AcceptedIsLowerable }
{}

/// Its code does what the program means, at every depth, step bound and answers.
pub fn accepted_code_follows()
    ensures { AcceptedCodeFollows }
{}

/// No run of its code is stuck.
pub fn accepted_is_never_stuck()
    ensures { AcceptedIsNeverStuck }
{}
