//! Nodes as bytes.

ghost use Rattle.std.specs.Prelude.{◌≡◌};
ghost use Rattle.wy_cert.specs.NodeLaws.{node_of, nodes_apart, nodes_filled, some_node};
ghost use Rattle.wy_cert.specs.Spelled.{IsNodeSpelled, node_bytes};

use crate::certificate::{CertNode, NumberList, Rule};
use std::alloc::Global;
use wy_spelling::{ReadError, Spelled, WriteRefusal};

/// A node's parts, in the order of their bytes.
type NodeParts = (Rule, (u32, (u32, (u32, (u32, (u32, NumberList))))));

/// The node of its parts.
fn node_of(parts: NodeParts) -> CertNode
    ensures { result ≡ node_of parts }
{
    let (rule, (file, (line, (column, (parts, (typ, effect)))))) = parts;
    CertNode {
        rule,
        file,
        line,
        column,
        parts,
        typ,
        effect,
    }
}

impl Spelled for CertNode {
    ghost IsSpelled = { IsNodeSpelled };

    ghost bytes_of = { node_bytes };

    fn read(alloc: Global, bytes: &[u8]) -> Result<(CertNode, &[u8]), ReadError> {
        let (parts, rest) = NodeParts::read(alloc, bytes)?;
        Ok((node_of(parts), rest))
    }

    fn write(&self, out: &mut Vec<u8>) -> Result<(), WriteRefusal> {
        let place = (self.file, (self.line, self.column));
        (self.rule, (place, (self.parts, self.typ))).write(out)?;
        self.effect.write(out)
    }

    ghost some = { some_node };

    ghost apart = { nodes_apart };

    ghost filled = { nodes_filled };
}
