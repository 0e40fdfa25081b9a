ghost use Rattle.std.specs.Prelude.{◌≡◌, IfOk};
ghost use Rattle.wy_subtype.specs.Verdict.{is_yes};

use wy_effects::atom::Atom;
use wy_text::text::{Memory, Text};
use wy_types::path::Path;

/// Which subtyping is asked (docs/LANGUAGE.md, "Subtyping").
#[derive(Clone, Copy, PartialEq, Eq)]
pub enum Mode {
    /// With effects: the left method's effect is within the right one's.
    Annotated,
    /// Without effects, for plain modules.
    Plain,
}

/// Why a pair of types fails by itself. The methods are those of the right side.
#[derive(Drop, PartialEq, Eq)]
pub enum Cause {
    /// The left side has no method of this name.
    MissingMethod(Text),
    /// The left side's method of this name has another number of parameters.
    Arity(Text),
    /// Two different base types, or a base type and an object type.
    Base,
    /// The atom is the least one that is in the effect of the left side's method of this name, and not
    /// in the right side's.
    Effect { method: Text, atom: Atom },
}

impl Cause {
    /// The same cause.
    pub(crate) fn copy(&self) -> Result<Cause, Memory>
        ensures { IfOk result (λ c. c ≡ self.now) }
    {
        match self {
            Cause::MissingMethod(name) => Ok(Cause::MissingMethod(name.copy()?)),
            Cause::Arity(name) => Ok(Cause::Arity(name.copy()?)),
            Cause::Base => Ok(Cause::Base),
            Cause::Effect { method, atom } => Ok(Cause::Effect {
                method: method.copy()?,
                atom: *atom,
            }),
        }
    }
}

/// What the test of subtyping answers.
#[derive(Drop, PartialEq, Eq)]
pub enum Verdict {
    Yes,
    /// The path leads from the pair, with the sides exchanged at each parameter, to a pair that
    /// fails by itself by the cause.
    No { path: Path, cause: Cause },
}

impl Verdict {
    /// Whether it is `Yes`. It takes no memory.
    pub(crate) fn is_yes(&self) -> bool
        ensures { result ≡ is_yes self.now }
    {
        match self {
            Verdict::Yes => true,
            Verdict::No { .. } => false,
        }
    }
}
