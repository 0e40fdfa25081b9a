ghost use Rattle.std.specs.Prelude.{◌≡◌, ℕ, IfOk};
ghost use Rattle.wy_spelling.specs.Spelling.{IsBadAt, Spells};
ghost use Rattle.wy_cert.specs.Spelled.{IsCertificateSpelled, certificate_bytes};

use crate::certificate::Certificate;
use std::alloc::Global;
use wy_spelling::{WholeError, read_whole};

/// Why bytes are no certificate.
#[derive(Clone, Copy)]
pub enum ReadRefusal {
    /// So many bytes can stand, and not one more.
    BadCert(u64),
    Memory,
}

/// The certificate that all of the bytes are (docs/LANGUAGE.md, "Certificates"). `BadCert` comes exactly where they are none, with how
/// many of them can stand.
pub fn read_certificate(alloc: Global, bytes: &[u8]) -> Result<Certificate, ReadRefusal>
    ensures found { IfOk result (λ c. Spells IsCertificateSpelled certificate_bytes bytes.now c) }
    ensures bad { (at : ℕ) → result ≡ Err (ReadRefusal.BadCert at) → IsBadAt IsCertificateSpelled certificate_bytes bytes.now at }
{
    match read_whole::<Certificate>(alloc, b"WYCERT01", bytes) {
        Ok(certificate) => Ok(certificate),
        Err(WholeError::Bad(at)) => Err(ReadRefusal::BadCert(at as u64)),
        Err(WholeError::Memory) => Err(ReadRefusal::Memory),
    }
}
