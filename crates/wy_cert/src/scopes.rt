//! What is said of a scope as bytes.

ghost use Rattle.std.specs.Prelude.{◌≡◌};
ghost use Rattle.wy_cert.specs.ScopeLaws.{scope_of, scopes_apart, scopes_filled, some_scope};
ghost use Rattle.wy_cert.specs.Spelled.{IsScopeSpelled, scope_bytes};

use crate::certificate::{CertNode, CertPair, CertScope, CertType, NumberList};
use std::alloc::Global;
use wy_spelling::{ReadError, Spelled, WriteRefusal};
use wy_text::list::Items;

/// The lists of a scope, in the order of their bytes.
type ScopeParts = (
    Items<CertType>,
    (
        Items<CertPair>,
        (Items<CertPair>, (NumberList, Items<CertNode>)),
    ),
);

/// What its lists say of a scope.
fn scope_of(parts: ScopeParts) -> CertScope
    ensures { result ≡ scope_of parts }
{
    let (types, (pairs, (plain, (locals, nodes)))) = parts;
    CertScope {
        types,
        pairs,
        plain,
        locals,
        nodes,
    }
}

impl Spelled for CertScope {
    ghost IsSpelled = { IsScopeSpelled };

    ghost bytes_of = { scope_bytes };

    fn read(alloc: Global, bytes: &[u8]) -> Result<(CertScope, &[u8]), ReadError> {
        let (parts, rest) = ScopeParts::read(alloc, bytes)?;
        Ok((scope_of(parts), rest))
    }

    fn write(&self, out: &mut Vec<u8>) -> Result<(), WriteRefusal> {
        self.types.write(out)?;
        self.pairs.write(out)?;
        self.plain.write(out)?;
        self.locals.write(out)?;
        self.nodes.write(out)
    }

    ghost some = { some_scope };

    ghost apart = { scopes_apart };

    ghost filled = { scopes_filled };
}
