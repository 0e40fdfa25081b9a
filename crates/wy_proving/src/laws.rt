//! Laws of certificates. No function here does anything: what it says is its clause.

ghost use Rattle.wy_proving.specs.Proving.{AcceptedHasCanonicalCertificate, AcceptedHasCertificate, AcceptedHasWrittenCertificate, ListsAreExact, NodesAreRead, ProvedIsAccepted, ReachedTypesStand};
ghost use Rattle.wy_proving.specs.Reading.{AnnotatedNodesAreRead, PlainNodesAreRead};
ghost use Rattle.wy_proving.specs.Unproved.{OneUnproved, UnprovedIsNoProof};
ghost use Rattle.wy_proving.specs.WrittenLaws.{NamedBareTypesStand, NamedTypesStand, WhatIsAskedStands, WrittenIsProof};

/// What a certificate proves is accepted: each test holds, so the bodies have derivations and the rules for modules and lines
/// hold (docs/LANGUAGE.md, "Certificates").
pub fn proved_is_accepted()
    ensures { ProvedIsAccepted }
{}

/// An accepted program has a certificate that proves it: all tests of it hold (docs/LANGUAGE.md, "Certificates").
pub fn accepted_has_certificate()
    ensures { AcceptedHasCertificate }
{}

/// It has one of which the nodes are those of the canonical derivations of its scopes (docs/LANGUAGE.md, "Certificates" and
/// "Typing of bodies").
pub fn accepted_has_canonical_certificate()
    ensures { AcceptedHasCanonicalCertificate }
{}

/// Over given types of its `val`s, one for each, that can stand and over which each node of its scopes passes, an accepted program
/// has a certificate of which the nodes are those of what is written over them (docs/LANGUAGE.md, "Certificates" and "Typing of
/// bodies").
pub fn accepted_has_written_certificate()
    ensures { AcceptedHasWrittenCertificate }
{}

/// What is written for a scope of an accepted program proves it, where it is written from lists that have each pair that is asked, each pair
/// closed in its list, and types that can stand, those of the others among them (docs/LANGUAGE.md, "Certificates").
pub fn written_is_proof()
    ensures { WrittenIsProof }
{}

/// The pairs that the rules and the canonical derivation of an accepted scope ask are subtypings of types that can stand, and so can the
/// types of its steps and its `val`s (docs/LANGUAGE.md, "Certificates").
pub fn what_is_asked_stands()
    ensures { WhatIsAskedStands }
{}

/// The methods of a type that can stand in a scope name types that can (docs/LANGUAGE.md, "Certificates").
pub fn named_types_stand()
    ensures { NamedTypesStand }
{}

/// The methods, without effects, of an erased type name erased types that can be listed (docs/LANGUAGE.md, "Certificates").
pub fn named_bare_types_stand()
    ensures { NamedBareTypesStand }
{}

/// The nodes of an annotated scope are read to the end exactly where they are those of derivations of its bodies, over any lists
/// whose pairs are subtypings (docs/LANGUAGE.md, "Certificates").
pub fn annotated_nodes_are_read()
    ensures { AnnotatedNodesAreRead }
{}

/// The nodes of a plain module are read to the end exactly where they are those of plain derivations of its bodies, over any
/// lists whose pairs are plain subtypings (docs/LANGUAGE.md, "Certificates").
pub fn plain_nodes_are_read()
    ensures { PlainNodesAreRead }
{}

/// The tests by which nodes are read say which pairs a certificate lists, which sets can stand in the scope, and which include or
/// allow which (docs/LANGUAGE.md, "Certificates").
pub fn lists_are_exact()
    ensures { ListsAreExact }
{}

/// Where the pairs of a certificate are closed, its nodes are read to the end exactly where C-Nodes holds (docs/LANGUAGE.md,
/// "Certificates").
pub fn nodes_are_read()
    ensures { NodesAreRead }
{}

/// A certificate of which a test fails first proves nothing (docs/LANGUAGE.md, "Certificates").
pub fn unproved_is_no_proof()
    ensures { UnprovedIsNoProof }
{}

/// One test of a certificate fails first, in one scope and at one number (docs/LANGUAGE.md, "Certificates").
pub fn one_unproved()
    ensures { OneUnproved }
{}

/// Each type that a scope of a core reaches can stand in a certificate, and with it all types that its canonical derivation names
/// (docs/LANGUAGE.md, "Certificates" and "Typing of bodies").
pub fn reached_types_stand()
    ensures { ReachedTypesStand }
{}
