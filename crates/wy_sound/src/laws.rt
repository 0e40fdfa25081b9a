//! The laws of soundness (docs/LANGUAGE.md, "Authority and report"), of programs as resolving makes them. No function
//! here does anything: what it says is its clause.

ghost use Rattle.wy_sound.specs.Granted.{ReachedTypesAreSeen};
ghost use Rattle.wy_sound.specs.GroundRange.{GroundTypesAreFew, GroundTypesStay, GroundBelowIsSubtype};
ghost use Rattle.wy_sound.specs.GroundReached.{GroundReachedIs, NoOtherGroundTypeOccurs, GroundDerivationHolds};
ghost use Rattle.wy_sound.specs.Laws.{Preservation, BlockPreservation, CallPreservation, StartPreservation, FirstHeapIsTyped, NeverWrong, EventsAreBounded, PureInstancesMayNothing, PureInstancesAreSilent};
ghost use Rattle.wy_sound.specs.StartingObjects.{StartingObjectStays, StartingObjectsAreTyped};

/// Preservation: evaluation of a value that has a derivation over the types of a run, in a heap that has its types,
/// leaves a heap that has its types, and ends as the language says or gives a value of the value's type
/// (docs/LANGUAGE.md, "Types of a run").
pub fn preservation()
    ensures { Preservation }
{}

/// So does evaluation of a block.
pub fn block_preservation()
    ensures { BlockPreservation }
{}

/// So does a call of a method of its own type on an object that is ready.
pub fn call_preservation()
    ensures { CallPreservation }
{}

/// The start of an instance in a heap that has its types sets the fields of its object one after the other, each to a
/// value of its type; where it ends before the last, those that are set have theirs.
pub fn start_preservation()
    ensures { StartPreservation }
{}

/// While an instance starts, evaluation of a value leaves the fields of its object that are set, and they keep their
/// types, whether a value is given or evaluation ends.
pub fn starting_object_stays()
    ensures { StartingObjectStays }
{}

/// While an instance starts, and wherever its start comes to, what it is handed has its types, and so have the fields of
/// its object that are set so far; a field that is not yet set has no value.
pub fn starting_objects_are_typed()
    ensures { StartingObjectsAreTyped }
{}

/// Before the first instance starts the heap has its types.
pub fn first_heap_is_typed()
    ensures { FirstHeapIsTyped }
{}

/// No run of an accepted program meets a missing value or one of a wrong kind.
pub fn never_wrong()
    ensures { NeverWrong }
{}

/// Each operation in a run of an accepted program is in the authority of every call that is open at it.
pub fn events_are_bounded()
    ensures { EventsAreBounded }
{}

/// The authority of each body of a pure module's instance is empty.
pub fn pure_instances_may_nothing()
    ensures { PureInstancesMayNothing }
{}

/// No operation is done while a call of a pure module's instance is open.
pub fn pure_instances_are_silent()
    ensures { PureInstancesAreSilent }
{}

/// No list of distinct types of a run is longer than a number that the program and its instances give.
pub fn ground_types_are_few()
    ensures { GroundTypesAreFew }
{}

/// The methods of a type of a run name types of the run.
pub fn ground_types_stay()
    ensures { GroundTypesStay }
{}

/// A type of a run that is equal to another or a subtype of it is a subtype of it: each is one of itself.
pub fn ground_below_is_subtype()
    ensures { GroundBelowIsSubtype }
{}

/// The types that a run reaches are those of a list, which the program and its instances give, each once; and each is a
/// type of the run.
pub fn ground_reached_is()
    ensures { GroundReachedIs }
{}

/// No other type occurs in an instance: in that list are all that its scope reaches, as the instance reads types, those
/// of its `val`s, and those that its canonical derivation names.
pub fn no_other_ground_type_occurs()
    ensures { NoOtherGroundTypeOccurs }
{}

/// The canonical derivation of an instance's scope, over the types of its `val`s that are found one after the other, is a
/// derivation over the types of the run.
pub fn ground_derivation_holds()
    ensures { GroundDerivationHolds }
{}

/// The types that an instance's scope reaches, as the instance reads types, have atoms of grants, and so have their methods'
/// effects; the own types among them are the instance's.
pub fn reached_types_are_seen()
    ensures { ReachedTypesAreSeen }
{}
