//! Certificates of accepted programs, as bytes within the limit; and laws of them.

ghost use Rattle.std.specs.Prelude.{◌≡◌, ◌≤◌, IfErr, IfOk, length, map};
ghost use Rattle.wy_text.specs.Members.{In};
ghost use Rattle.wy_types.specs.Program.{program_of};
ghost use Rattle.wy_types.specs.Core.{IsCore};
ghost use Rattle.wy_rules.specs.Acceptance.{Accepted};
ghost use Rattle.wy_spelling.specs.Spelling.{Spells};
ghost use Rattle.wy_cert.specs.Spelled.{IsCertificateSpelled, certificate_bytes};
ghost use Rattle.wy_certify.specs.declared.listing.PartRefusal.TheVariants as part;
ghost use Rattle.wy_certify.specs.declared.finding.ScopePart.{ScopePart as Part};
ghost use Rattle.wy_certify.specs.PartTable.{AreNumbers};
ghost use Rattle.wy_certify.specs.Parts.{part_steps, said, types_in};
ghost use Rattle.wy_certify.specs.declared.certifying.CertifyRefusal.TheVariants as refusal;
ghost use Rattle.wy_certify.specs.Certificates.{IsCertificateOf, IsCertified, most_bytes};
ghost use Rattle.wy_certify.specs.CertificateLaws.{CertificatesProve, OneSize};
ghost use Rattle.wy_certify.specs.NotCertified.{IsRefusedBy, IsUnspelled, refusal_of};

use crate::finding::{ScopePart, found_parts};
use crate::listing::{PartRefusal, part_of};
use std::alloc::Global;
use wy_cert::{Certificate, write_certificate};
use wy_spelling::WriteRefusal;
use wy_text::limit::LimitName;
use wy_text::list::Items;
use wy_text::text::{Memory, Text};
use wy_types::resolved::Core;

/// Why no certificate of a program is given.
#[derive(Clone, Copy)]
pub enum CertifyRefusal {
    /// It has more bytes than the limit of this name, `CertificateBytes`, four being counted for each number.
    Limit(LimitName),
    Memory,
}

impl From<Memory> for CertifyRefusal {
    ghost from_gives = { λ _ error. error ≡ refusal.Memory };

    fn from(_error: Memory) -> CertifyRefusal {
        CertifyRefusal::Memory
    }
}

impl From<PartRefusal> for CertifyRefusal {
    ghost from_gives = { λ r error. error ≡ refusal_of r };

    fn from(refusal: PartRefusal) -> CertifyRefusal {
        match refusal {
            PartRefusal::Limit => CertifyRefusal::Limit(LimitName::CertificateBytes),
            PartRefusal::Memory => CertifyRefusal::Memory,
        }
    }
}

/// Parts by numbers. `Limit` comes exactly where four bytes cannot say a number of one of them.
fn numbered(alloc: Global, parts: &[ScopePart]) -> Result<Certificate, PartRefusal>
    ensures written { IfOk result (λ c. c ≡ map said parts.now) }
    ensures limit { IfErr result (λ e. e ≡ part.Limit → (x : Part) × In x parts.now × (¬ AreNumbers (types_in x) (part_steps x))) }
{
    let mut certificate = Items::new(alloc);
    for part in parts {
        certificate.push(part_of(alloc, part)?)?;
    }
    Ok(certificate)
}

/// A certificate of an accepted program.
fn certificate_of(alloc: Global, core: &Core) -> Result<Certificate, CertifyRefusal>
    requires core { IsCore (program_of core.now) }
    requires accepted { Accepted (program_of core.now) }
    ensures written { IfOk result (IsCertificateOf (program_of core.now)) }
    ensures refused { IfErr result (IsRefusedBy (program_of core.now)) }
{
    let parts = found_parts(alloc, core)?;
    Ok(numbered(alloc, parts.as_slice())?)
}

/// The bytes of a certificate, within the limit.
fn spelled(alloc: Global, certificate: &Certificate) -> Result<Text, CertifyRefusal>
    ensures written { IfOk result (λ t. Spells IsCertificateSpelled certificate_bytes t certificate.now × (length t ≤ most_bytes)) }
    ensures refused { IfErr result (IsUnspelled certificate.now) }
{
    let too_long = CertifyRefusal::Limit(LimitName::CertificateBytes);
    match write_certificate(alloc, certificate) {
        Ok(text) => {
            if text.as_bytes().len() as u64 > LimitName::CertificateBytes.number() {
                return Err(too_long);
            }
            Ok(text)
        }
        Err(WriteRefusal::Long) => Err(too_long),
        Err(WriteRefusal::Memory) => Err(CertifyRefusal::Memory),
    }
}

/// The bytes of a certificate of an accepted program: for each scope the steps of its canonical derivation, the pairs that these and
/// the rules for the scope ask, with all that these pairs ask, and the types of all of these. It proves the program
/// (`certificates_prove`). `Limit` comes exactly where a certificate has more than 67,108,864 bytes (`certificates_have_one_size`;
/// docs/LANGUAGE.md, "Certificates").
pub fn certify(alloc: Global, core: &Core) -> Result<Text, CertifyRefusal>
    requires core { IsCore (program_of core.now) }
    requires accepted { Accepted (program_of core.now) }
    ensures written { IfOk result (IsCertified (program_of core.now)) }
    ensures refused { IfErr result (IsRefusedBy (program_of core.now)) }
{
    let certificate = certificate_of(alloc, core)?;
    spelled(alloc, &certificate)
}

// ----------------------------------------------------------------------------
// Laws. These functions do nothing: what each says is its clause

/// A certificate of an accepted program proves it (docs/LANGUAGE.md, "Certificates").
pub fn certificates_prove()
    ensures { CertificatesProve }
{}

/// Certificates of a program have as many bytes: they differ in the order of their types and pairs alone (docs/LANGUAGE.md,
/// "Certificates").
pub fn certificates_have_one_size()
    ensures { OneSize }
{}
