//! The canonical form of a tree (docs/LANGUAGE.md, "Canonical form").
ghost use Rattle.std.specs.Prelude.{◌≡◌, IfOk};
ghost use Rattle.wy_syntax.specs.Views.{file_tree};
ghost use Rattle.wy_syntax.specs.Canonical.{canonical_form};

mod expressions;
mod items;
mod output;
mod pieces;
mod statements;
mod types;

use crate::items::Tree;
use crate::printing::items::push_items;
use crate::printing::output::Output;
use std::alloc::Global;
use wy_text::text::{Memory, Text};

/// The canonical form of a file's tree. Only want of memory refuses it.
pub fn print(alloc: Global, tree: &Tree) -> Result<Text, Memory>
    ensures { IfOk result (λ text. text ≡ canonical_form (file_tree tree.now)) }
{
    let mut out = Output::new(alloc);
    push_items(&mut out, &tree.items);
    out.into_text()
}
