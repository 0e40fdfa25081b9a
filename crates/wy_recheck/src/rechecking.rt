//! Rechecking a certificate: its tests, in their order, up to the first that fails.

ghost use Rattle.std.specs.Prelude.{◌≡◌, ◌<◌, IfErr, OnOk, length, slice_get, Some};
ghost use Rattle.wy_types.specs.Program.{Scope as ProgramScope, program_of};
ghost use Rattle.wy_types.specs.Core.{IsCore};
ghost use Rattle.wy_proving.specs.Proving.{ScopeProof, IsProof};
ghost use Rattle.wy_proving.specs.Certified.{types_of, annotated_pairs, plain_pairs};
ghost use Rattle.wy_proving.specs.Unproved.{HoldsBefore};
ghost use Rattle.wy_proving.specs.declared.proof.CertTest.TheVariants.{Lines};
ghost use Rattle.wy_recheck.specs.PairSet.{StandsFor};
ghost use Rattle.wy_recheck.specs.Rechecked.{IsTold, refusal_of, unproved, StopsIn, StopsAt};
ghost use Rattle.wy_recheck.specs.ProvedBy.{IsProvedBy, IsRefusedBy};

use crate::failure::Failure;
use crate::lines::standing_lines;
use crate::nodes::read_nodes;
use crate::pair_set::PairSet;
use crate::pairs::{closed_pairs, closed_plain_pairs};
use crate::types::standing_types;
use std::alloc::Global;
use std::marker::Brand;
use std::sync::ledger::{Blank, Ledger};
use wy_cert::{CertScope, ReadRefusal, read_certificate};
use wy_proving::CertTest;
use wy_subtype::Steps;
use wy_types::resolved::Core;
use wy_types::types::TypeRef;

/// Why a certificate does not prove a program (docs/LANGUAGE.md, "Certificates").
#[derive(Drop)]
pub enum CertRefusal {
    /// The bytes are no certificate: so many of them can stand, and not one more.
    BadCert(u64),
    /// A test fails: the first one, in the first scope where one does. The index is that of the first type, pair, rule or node at
    /// which it fails, from 0. Where there is not one part for each scope, both numbers are 0.
    Unproved {
        scope: u32,
        test: CertTest,
        index: u64,
    },
    Memory,
}

impl From<ReadRefusal> for CertRefusal {
    ghost from_gives = { λ r c. c ≡ refusal_of r };

    fn from(refusal: ReadRefusal) -> Self {
        match refusal {
            ReadRefusal::BadCert(at) => CertRefusal::BadCert(at),
            ReadRefusal::Memory => CertRefusal::Memory,
        }
    }
}

/// Why a scope's part does not prove it.
#[derive(Drop)]
enum Stop {
    /// This test fails, and first at this number.
    Fails(CertTest, u64),
    Memory,
}

/// What a test gives, or that it fails.
fn told<X>(test: CertTest, given: Result<X, Failure>) -> Result<X, Stop>
where
    X: Drop,
    ensures { IsTold test given result }
{
    match given {
        Ok(found) => Ok(found),
        Err(Failure::At(index)) => Err(Stop::Fails(test, index)),
        Err(Failure::Memory) => Err(Stop::Memory),
    }
}

/// Makes the tests of one scope that come behind those of its types and pairs.
fn prove_rules(
    alloc: Global,
    core: &Core,
    number: u16,
    types: &[TypeRef],
    pairs: &PairSet,
    plain: &PairSet,
    part: &CertScope,
) -> Result<(), Stop>
    requires core { IsCore (program_of core.now) }
    requires there { number < length core.now.scopes }
    requires types { types.now ≡ types_of part.now }
    requires pairs { StandsFor pairs.now (annotated_pairs part.now) }
    requires plain { StandsFor plain.now (plain_pairs part.now) }
    requires before { (s : ProgramScope) → slice_get (program_of core.now).scopes number ≡ Some s → HoldsBefore (program_of core.now) number s part.now Lines }
    ensures proved { OnOk result ((s : ProgramScope) → slice_get (program_of core.now).scopes number ≡ Some s → ScopeProof (program_of core.now) number s part.now) }
    ensures stopped { IfErr result (λ stop. (s : ProgramScope) → slice_get (program_of core.now).scopes number ≡ Some s → StopsIn (program_of core.now) number s part.now stop) }
{
    told(
        CertTest::Lines,
        standing_lines(alloc, core, number, pairs, plain, part),
    )?;
    told(
        CertTest::Nodes,
        read_nodes(alloc, core, number, types, pairs, plain, part),
    )
}

/// Makes the tests of one scope.
fn prove_scope<L: Ledger>(
    alloc: Global,
    core: &Core,
    number: u16,
    part: &CertScope,
    steps: &mut Steps<L>,
) -> Result<(), Stop>
    requires core { IsCore (program_of core.now) }
    requires there { number < length core.now.scopes }
    ensures proved { OnOk result ((s : ProgramScope) → slice_get (program_of core.now).scopes number ≡ Some s → ScopeProof (program_of core.now) number s part.now) }
    ensures stopped { IfErr result (λ stop. (s : ProgramScope) → slice_get (program_of core.now).scopes number ≡ Some s → StopsIn (program_of core.now) number s part.now stop) }
{
    let types = told(CertTest::Types, standing_types(alloc, core, number, part))?;
    let types = types.as_slice();
    let pairs = told(
        CertTest::Pairs,
        closed_pairs(alloc, core, number, types, part, steps),
    )?;
    let plain = told(
        CertTest::Plain,
        closed_plain_pairs(alloc, core, number, types, part, steps),
    )?;
    prove_rules(alloc, core, number, types, &pairs, &plain, part)
}

/// The refusal of a certificate by the part of a scope.
fn unproved(scope: u32, stop: Stop) -> CertRefusal
    ensures { result ≡ unproved scope stop }
{
    match stop {
        Stop::Fails(test, index) => CertRefusal::Unproved { scope, test, index },
        Stop::Memory => CertRefusal::Memory,
    }
}

/// Makes the tests of each scope, up to the first that fails.
fn prove_scopes<L: Ledger>(
    alloc: Global,
    core: &Core,
    parts: &[CertScope],
    steps: &mut Steps<L>,
) -> Result<(), CertRefusal>
    requires core { IsCore (program_of core.now) }
    requires number { length parts.now ≡ length core.now.scopes }
    ensures proved { OnOk result (IsProof (program_of core.now) parts.now) }
    ensures stopped { IfErr result (StopsAt (program_of core.now) parts.now) }
{
    for (number, part) in parts.iter().enumerate() {
        if let Err(stop) = prove_scope(alloc, core, number as u16, part, steps) {
            return Err(unproved(number as u32, stop));
        }
    }
    Ok(())
}

/// Reads a certificate and makes its tests.
fn recheck_from<L: Ledger>(
    alloc: Global,
    core: &Core,
    bytes: &[u8],
    blank: Blank,
) -> Result<(), CertRefusal>
    requires name { blank.name ≡ L.name }
    requires parts { blank.parts ≡ L.parts }
    requires some { 0 < blank.parts }
    requires core { IsCore (program_of core.now) }
    ensures proved { OnOk result (IsProvedBy (program_of core.now) bytes.now) }
    ensures refused { IfErr result (IsRefusedBy (program_of core.now) bytes.now) }
{
    let certificate = read_certificate(alloc, bytes)?;
    if certificate.len() != core.scopes.len() {
        return Err(CertRefusal::Unproved {
            scope: 0,
            test: CertTest::Scopes,
            index: 0,
        });
    }
    let mut steps = Steps::<L>::new(blank);
    prove_scopes(alloc, core, certificate.as_slice(), &mut steps)
}

/// Whether bytes are a certificate that proves a program. `BadCert` comes exactly where they spell none, with how many of them can
/// stand; `Unproved` exactly where they spell one of which a test fails, with the first that does, its scope, and the first type,
/// pair, rule or node at which it fails. Want of memory is the one free answer. What is proved is accepted (docs/LANGUAGE.md,
/// "Certificates").
pub fn recheck(alloc: Global, core: &Core, bytes: &[u8]) -> Result<(), CertRefusal>
    requires core { IsCore (program_of core.now) }
    ensures proved { OnOk result (IsProvedBy (program_of core.now) bytes.now) }
    ensures refused { IfErr result (IsRefusedBy (program_of core.now) bytes.now) }
{
    recheck_from::<Brand>(alloc, core, bytes, Blank::new(1))
}
