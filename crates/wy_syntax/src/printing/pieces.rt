//! Pieces of the canonical form, which are added to a text at its end.
ghost use Rattle.std.specs.Prelude.{◌≡◌, ◌++◌, List, ℕ};
ghost use Rattle.wy_syntax.specs.Collected.{Adds};
ghost use Rattle.wy_syntax.specs.Canonical.{after_commas, in_order, indented, with_commas};

use crate::printing::output::{Output, push};

/// What is printed in one way wherever it stands.
pub trait Printed {
    ghost text: { Self → List ℕ };

    /// Adds the text at the end.
    fn push_to(&self, out: &mut Output)
        ensures { Adds (text self.now) out.old out.new };
}

/// Adds bytes and behind them an item's text.
pub fn push_behind<X: Printed>(out: &mut Output, bytes: &[u8], item: &X)
    ensures { Adds (bytes.now ++ X.text item.now) out.old out.new }
{
    push(out, bytes);
    item.push_to(out)
}

/// Adds two spaces for each indentation.
pub fn push_indentation(out: &mut Output, indents: usize)
    ensures { Adds (indented indents) out.old out.new }
{
    for _ in 0..indents {
        push(out, b"  ");
    }
}

/// Adds the texts of the items, one behind the other.
pub fn push_each<X: Printed>(out: &mut Output, items: &[X])
    ensures { Adds (in_order X.text items.now) out.old out.new }
{
    for item in items {
        item.push_to(out);
    }
}

/// Adds the texts of the items, each behind a comma and a space.
fn push_after_commas<X: Printed>(out: &mut Output, items: &[X])
    ensures { Adds (after_commas X.text items.now) out.old out.new }
{
    for item in items {
        push(out, b", ");
        item.push_to(out);
    }
}

/// Adds the texts of the items with a comma and a space between.
fn push_with_commas<X: Printed>(out: &mut Output, items: &[X])
    ensures { Adds (with_commas X.text items.now) out.old out.new }
{
    match items {
        [] => {},
        [first, others @ ..] => {
            first.push_to(out);
            push_after_commas(out, others)
        }
    }
}

/// Adds the texts of the items with a comma and a space between, and around them what opens and closes them.
pub fn push_list<X: Printed>(out: &mut Output, opening: &[u8], items: &[X], closing: &[u8])
    ensures { Adds (opening.now ++ with_commas X.text items.now ++ closing.now) out.old out.new }
{
    push(out, opening);
    push_with_commas(out, items);
    push(out, closing)
}
