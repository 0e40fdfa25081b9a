//! Laws of the order on effect sets over upper bounds of atoms, each the contract of a function.

ghost use Rattle.wy_effects.specs.Order.{SameWithin, OnwardWithin, UnionsWithin, OneWithin, UnboundedWithin, ReplacedWithin, RespectsOnward, WidenedExactly, MissingExactly, OneMissing};

/// What includes a set has it within, whatever the bounds.
pub fn included_is_within()
    ensures { SameWithin }
{}

/// A set within a set that is within a third is within the third.
pub fn within_is_transitive()
    ensures { OnwardWithin }
{}

/// The union of two sets is within the union of two others where each is within its own.
pub fn unions_are_within()
    ensures { UnionsWithin }
{}

/// A set of one atom is within another exactly where the atom is in it or has a bound within it.
pub fn one_atom_within()
    ensures { OneWithin }
{}

/// Where no atom has a bound, a set is within another only where that one includes it.
pub fn unbounded_within_is_inclusion()
    ensures { UnboundedWithin }
{}

/// A set stays within another when atoms are replaced by sets that respect the bounds.
pub fn within_is_kept_under_replacement()
    ensures { ReplacedWithin }
{}

/// Sets that respect bounds still do after a replacement that respects the bounds of their atoms.
pub fn respects_onward()
    ensures { RespectsOnward }
{}

/// A set is within another exactly where it is included in all that is under that one.
pub fn within_the_widened()
    ensures { WidenedExactly }
{}

/// The least atom that is not under a set is the least one that all under that set lacks.
pub fn missing_of_the_widened()
    ensures { MissingExactly }
{}

/// Of two sets that are within each other, the least atoms that are not under a third are one.
pub fn one_least_missing()
    ensures { OneMissing }
{}
