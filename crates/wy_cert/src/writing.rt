ghost use Rattle.std.specs.Prelude.{◌≡◌, ◌≤◌, ◌^◌, length, IfErr, IfOk};
ghost use Rattle.wy_spelling.specs.Spelling.{Spells};
ghost use Rattle.wy_spelling.specs.declared.spelled.WriteRefusal.TheVariants as write_refusal;
ghost use Rattle.wy_cert.specs.Spelled.{IsCertificateSpelled, certificate_bytes};

use crate::certificate::Certificate;
use std::alloc::Global;
use wy_spelling::{Spelled, WriteRefusal};
use wy_text::text::{Text, from_vec};

/// The bytes of a certificate (docs/LANGUAGE.md, "Certificates"). `Long` comes, but for `Memory`, exactly where one of its lists has
/// 4,294,967,296 items or more, which four bytes cannot say; its bytes would then be so many at least.
pub fn write_certificate(alloc: Global, certificate: &Certificate) -> Result<Text, WriteRefusal>
    ensures written { IfOk result (λ t. Spells IsCertificateSpelled certificate_bytes t certificate.now) }
    ensures unspelled { IfErr result (λ e. e ≡ write_refusal.Long → IsCertificateSpelled certificate.now → ⊥) }
    ensures long { IfErr result (λ e. e ≡ write_refusal.Long → 2 ^ 32 ≤ length (certificate_bytes certificate.now)) }
{
    let mut out = Vec::new(alloc);
    out.extend_from_slice(b"WYCERT01")?;
    certificate.write(&mut out)?;
    Ok(from_vec(out))
}
