//! Laws of types, each the contract of a function.

ghost use Rattle.wy_types.specs.Few.{ReachedAreFew};
ghost use Rattle.wy_types.specs.Order.{IsReflexive, IsTransitive, AnnotationHolds};

/// For each program, scope and type in range: no list of distinct types reached from the type is
/// longer than the number of types that the program's declarations and the scope's literals give.
pub fn reached_types_are_few()
    ensures { ReachedAreFew }
{}

/// Each type in range is a subtype of itself, with effects and without.
pub fn subtyping_is_reflexive()
    ensures { IsReflexive }
{}

/// A subtype of a subtype is a subtype, with effects and without.
pub fn subtyping_is_transitive()
    ensures { IsTransitive }
{}

/// For a type that can be written: its effects are within a bound that is higher-order safe for it
/// exactly where it is a subtype of itself at the bound.
pub fn annotation_holds()
    ensures { AnnotationHolds }
{}
