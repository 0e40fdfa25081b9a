//! Pairs of types as bytes.

ghost use Rattle.wy_cert.specs.PairLaws.{pairs_apart, pairs_filled, some_pair};
ghost use Rattle.wy_cert.specs.Spelled.{IsPairSpelled, pair_bytes};

use crate::certificate::CertPair;
use std::alloc::Global;
use wy_spelling::{ReadError, Spelled, WriteRefusal};

impl Spelled for CertPair {
    ghost IsSpelled = { IsPairSpelled };

    ghost bytes_of = { pair_bytes };

    fn read(alloc: Global, bytes: &[u8]) -> Result<(CertPair, &[u8]), ReadError> {
        let ((left, right), rest) = <(u32, u32)>::read(alloc, bytes)?;
        Ok((CertPair { left, right }, rest))
    }

    fn write(&self, out: &mut Vec<u8>) -> Result<(), WriteRefusal> {
        (self.left, self.right).write(out)
    }

    ghost some = { some_pair };

    ghost apart = { pairs_apart };

    ghost filled = { pairs_filled };
}
