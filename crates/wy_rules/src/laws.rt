//! Laws of subtyping, paths and annotation (docs/LANGUAGE.md, "Subtyping" to "Annotation and erasure"), and of typing
//! ("Typing of bodies").

ghost use Rattle.wy_rules.specs.Tables.{ReflexiveOverTables, TransitiveOverTables, KeptUnderReplacement, ReplacedTablesAgree};
ghost use Rattle.wy_rules.specs.Polarity.{Annotation, DualAnnotation};
ghost use Rattle.wy_rules.specs.Rereading.{Erasure, Substitution, Retyping};
ghost use Rattle.wy_rules.specs.Canonical.{TypesAreToldApart, CanonicalDerivationHolds, ScopesHaveCanonicalDerivations, CanonicalTypesAreLeast};
ghost use Rattle.wy_rules.specs.Reached.{CanonicalTypesAreReached, ReachedTypesAreCounted, ReachedTypesAreWrittenOrOwn};
ghost use Rattle.wy_rules.specs.Sparse.{NoSubsumptionAboveAnother};
ghost use Rattle.wy_rules.specs.Transfer.{ScopesHoldWhereMethodsAgree, ScopesHoldWithoutType, AcceptedWithoutType};
ghost use Rattle.wy_rules.specs.Judging.{PassingIsAccepted, AcceptedLinesHold};
ghost use Rattle.wy_rules.specs.GroundTyping.{GroundTyping};
ghost use Rattle.wy_rules.specs.ProgramRefusal.{AcceptedScopesHold, AcceptedHasNoFault};
ghost use Rattle.wy_rules.specs.Ends.{OneScopeFault, OneEnd, AcceptedHasNoEnd};

/// Over any bounds and table of methods: each type of a list is a subtype of itself, where the list has what its
/// types' methods name, and a type's methods have names that differ.
pub fn subtyping_is_reflexive_over_tables()
    ensures { ReflexiveOverTables }
{}

/// Over any bounds and table of methods a subtype of a subtype is a subtype.
pub fn subtyping_is_transitive_over_tables()
    ensures { TransitiveOverTables }
{}

/// Subtyping is kept when atoms are replaced by sets that respect the bounds, over any two tables of
/// methods that agree under the replacement.
pub fn subtyping_is_kept_under_replacement()
    ensures { KeptUnderReplacement }
{}

/// The methods of a scope's types agree under a replacement with those after it, where an own type
/// stands for its methods with the sets put in.
pub fn replaced_tables_agree()
    ensures { ReplacedTablesAgree }
{}

/// The law of annotation: a type's effects are within a set that is higher-order safe for it exactly where
/// it is a subtype of its erasure annotated at the set.
pub fn annotation()
    ensures { Annotation }
{}

/// The dual: a set is safe for a type and has its higher-order effects within it exactly where the type's erasure
/// annotated at the set is a subtype of it.
pub fn dual_annotation()
    ensures { DualAnnotation }
{}

/// Erasure: the bodies of an annotated scope have derivations without effects, in which declared types are
/// bare (docs/LANGUAGE.md, "Typing of bodies").
pub fn erasure()
    ensures { Erasure }
{}

/// Substitution: derivations of a scope's bodies stay derivations when its atoms are replaced by sets that
/// respect their bounds, in types, effects and bounds alike.
pub fn substitution()
    ensures { Substitution }
{}

/// Retyping: plain derivations of a module's bodies become annotated ones at every set, in which each
/// declared type stands at the set and each method has it as its effect.
pub fn retyping()
    ensures { Retyping }
{}

/// A program of which every node passes is accepted (docs/LANGUAGE.md, "First failing node").
pub fn passing_is_accepted()
    ensures { PassingIsAccepted }
{}

/// In an accepted program no line is at fault.
pub fn accepted_lines_hold()
    ensures { AcceptedLinesHold }
{}

/// Ground typing: the bodies of an instance's module have derivations over the types of a run, with the
/// instance's ground sets put in for its atoms, or at the ground of its bound (docs/LANGUAGE.md, "Types of a run").
pub fn ground_typing()
    ensures { GroundTyping }
{}

/// No module and no program's body of a core is at fault whose rules hold (docs/LANGUAGE.md, "First failing node").
pub fn accepted_scopes_hold()
    ensures { AcceptedScopesHold }
{}

/// An accepted core has no fault (docs/LANGUAGE.md, "First failing node").
pub fn accepted_has_no_fault()
    ensures { AcceptedHasNoFault }
{}

/// A scope of a core has one fault, whatever types its `val`s are given (docs/LANGUAGE.md, "First failing node").
pub fn one_scope_fault()
    ensures { OneScopeFault }
{}

/// Judging a core ends in one way: by one fault, or by a scope that reaches more types than the limit
/// (docs/LANGUAGE.md, "First failing node" and "Limits").
pub fn one_end()
    ensures { OneEnd }
{}

/// Judging an accepted core of which no scope reaches more types than the limit ends neither by a fault nor
/// by the limit (docs/LANGUAGE.md, "First failing node" and "Limits").
pub fn accepted_has_no_end()
    ensures { AcceptedHasNoEnd }
{}

/// The test of types by which canonical derivations are written tells them apart: T-Sub stands exactly where a part's type
/// is another than the one that the node above asks for.
pub fn types_are_told_apart()
    ensures { TypesAreToldApart }
{}

/// Where each node of a scope passes, over some types of its `val`s, its canonical derivation over them is one
/// (docs/LANGUAGE.md, "Typing of bodies").
pub fn canonical_derivation_holds()
    ensures { CanonicalDerivationHolds }
{}

/// A scope that holds has its canonical derivation over the types of its `val`s that are found one after the other:
/// those that are written, and else those of their initialisers (docs/LANGUAGE.md, "Typing of bodies").
pub fn scopes_have_canonical_derivations()
    ensures { ScopesHaveCanonicalDerivations }
{}

/// In a scope of a core that holds, the types of the canonical derivation's `val`s are least: each has its written type or
/// the least type of its initialiser, and a supertype of that in every other derivation of the scope
/// (docs/LANGUAGE.md, "First failing node").
pub fn canonical_types_are_least()
    ensures { CanonicalTypesAreLeast }
{}

/// The types of `val`s that are found for a scope are reached from those that the scope writes, and over any reached types
/// its canonical derivation names reached ones alone (docs/LANGUAGE.md, "Typing of bodies").
pub fn canonical_types_are_reached()
    ensures { CanonicalTypesAreReached }
{}

/// Each type that a scope of a program reaches is a base type, or one of those that the limit on types counts
/// (docs/LANGUAGE.md, "Limits").
pub fn reached_types_are_counted()
    ensures { ReachedTypesAreCounted }
{}

/// Each type that a scope of a core reaches can be written, or is of the scope's module or of a literal of it; none is of
/// the program's own object.
pub fn reached_types_are_written_or_own()
    ensures { ReachedTypesAreWrittenOrOwn }
{}

/// In the canonical derivation of a scope no T-Sub stands directly above another (docs/LANGUAGE.md, "Typing of bodies").
pub fn no_subsumption_above_another()
    ensures { NoSubsumptionAboveAnother }
{}

/// A scope that holds in one program holds in another that has the same methods for each type that the scope reaches.
pub fn scopes_hold_where_methods_agree()
    ensures { ScopesHoldWhereMethodsAgree }
{}

/// A scope that does not write a declared type holds in each of two programs that differ in that type alone.
pub fn scopes_hold_without_type()
    ensures { ScopesHoldWithoutType }
{}

/// A program of which no scope writes a declared type is accepted in both of two forms that differ in that type alone.
pub fn accepted_without_type()
    ensures { AcceptedWithoutType }
{}
