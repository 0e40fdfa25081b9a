ghost use Rattle.wy_syntax.specs.Canonical.{canonical_form};
ghost use Rattle.wy_syntax.specs.Views.{file_tree};
ghost use Rattle.wy_engine.specs.Writing.{Wrote};

use crate::status::Status;
use crate::writing::write_out;
use std::alloc::Global;
use wy_syntax::items::Tree;
use wy_syntax::printing::print;
use wy_text::sink::Sink;

/// Writes the canonical form of a file's tree to `out`.
pub fn write_form<O: Sink>(alloc: Global, tree: &Tree, out: &mut O) -> Status
    ensures { Wrote (canonical_form (file_tree tree.now)) (O.state out.old) (O.state out.new) result }
{
    let Ok(text) = print(alloc, tree) else {
        return Status::Memory;
    };
    write_out(out, text.as_bytes())
}
