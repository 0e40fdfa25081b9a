//! What judging a part of a body comes to, and why it stops (docs/LANGUAGE.md, "First failing node").

ghost use Rattle.std.specs.Prelude.{◌≡◌, None};
ghost use Rattle.wy_judge.specs.declared.outcomes.Stop.TheVariants.{Fails, Memory as NoMemory};
ghost use Rattle.wy_judge.specs.Outcomes.{fault_at};
ghost use Rattle.wy_judge.specs.Results.{IfPassed};

use wy_effects::set::EffSet;
use wy_text::fault::{Fault, Place, RuleName};
use wy_text::text::Memory;
use wy_types::types::TypeRef;

/// Why judging stops.
#[derive(Drop)]
pub enum Stop {
    /// The first failing node.
    Fails(Fault),
    /// Memory was wanting.
    Memory,
}

impl From<Memory> for Stop {
    ghost from_gives = { λ _ e. e ≡ NoMemory };

    fn from(_memory: Memory) -> Self {
        Stop::Memory
    }
}

/// An expression by itself: its least type and effect.
#[derive(Drop)]
pub struct Least {
    pub typ: TypeRef,
    pub effect: EffSet,
}

/// A value at a type that its place expects, where no node in it fails.
#[derive(Drop)]
pub enum Fit {
    /// Its least effect at the type.
    Has(EffSet),
    /// It has not the type.
    Misfit,
}

/// Several values, each at its type, where no node in any of them fails.
#[derive(Drop)]
pub enum Fits {
    /// The effect of all.
    Have(EffSet),
    /// The number of the first that has not its type.
    Misfit(usize),
}

impl Fit {
    ghost use Rattle.wy_judge.specs.Judging.{HasSet};
    ghost use Rattle.wy_judge.specs.Results.{fit_of};

    /// States that the effect is a set.
    pub fn is_set(&self)
        ensures { HasSet (fit_of self.now) }
    {
        if let Fit::Has(effect) = self {
            effect.is_set();
        }
    }
}

impl Fits {
    ghost use Rattle.wy_judge.specs.Results.{fit_of, fits_of, as_fit};

    /// All values as one.
    pub fn as_fit(self) -> Fit
        ensures { fit_of result ≡ as_fit (fits_of self) }
    {
        match self {
            Fits::Have(effect) => Fit::Has(effect),
            Fits::Misfit(_) => Fit::Misfit,
        }
    }
}

/// The fault of a premise that is about no effect.
pub fn fault_at(place: Place, rule: RuleName, premise: u8) -> Fault
    ensures { result ≡ fault_at place rule premise }
{
    Fault {
        place,
        rule,
        premise,
        atom: None,
    }
}

/// Judging stops at a premise that is about no effect.
pub fn fails(place: Place, rule: RuleName, premise: u8) -> Stop
    ensures { result ≡ Fails (fault_at place rule premise) }
{
    Stop::Fails(fault_at(place, rule, premise))
}

/// Judging stops at a fault, if there is one.
pub fn stop_at(fault: Option<Fault>) -> Result<(), Stop>
    ensures { IfPassed result (λ o. o ≡ fault) }
{
    match fault {
        None => Ok(()),
        Some(fault) => Err(Stop::Fails(fault)),
    }
}
