//! Laws of the bytes of certificates. No function here does anything: what it says is its clause.

ghost use Rattle.wy_spelling.specs.Spelling.{OneBadPlace, OneSpelling};
ghost use Rattle.wy_cert.specs.Spelled.{IsCertificateSpelled, certificate_bytes};

/// Bytes are those of one certificate at most.
pub fn one_spelling()
    ensures { OneSpelling IsCertificateSpelled certificate_bytes }
{}

/// Bytes that are no certificate's are bad at one place.
pub fn one_bad_place()
    ensures { OneBadPlace IsCertificateSpelled certificate_bytes }
{}
