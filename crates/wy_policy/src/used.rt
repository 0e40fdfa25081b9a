//! The text of what was used of each instance in a run.

ghost use Rattle.std.specs.Prelude.{◌≡◌, ◌++◌, map, IfOk, OnOk};
ghost use Rattle.wy_authority.specs.Report.{named_atoms};
ghost use Rattle.wy_policy.specs.Used.{used_line, used_text};

use std::alloc::Global;
use wy_authority::{Authority, push_set};
use wy_effects::set::EffSet;
use wy_meaning::Used;
use wy_text::fault::AtomName;
use wy_text::text::{Memory, Text, from_vec};

/// Adds the line of an instance.
fn push_line(
    text: &mut Vec<u8>,
    atoms: &[AtomName],
    name: &Text,
    set: &EffSet,
) -> Result<(), Memory>
    ensures { OnOk result (text.new.items ≡ text.old.items ++ used_line name.now (named_atoms atoms.now set.now)) }
{
    text.extend_from_slice(b"used of ")?;
    text.extend_from_slice(name.as_bytes())?;
    text.extend_from_slice(b": ")?;
    push_set(text, atoms, set)?;
    text.extend_from_slice(b"\n")?;
    Ok(())
}

/// The lines of what was used of each instance of this authority and of `main`, in the report's order (docs/LANGUAGE.md,
/// "Observation"). An atom is its place among the authority's. There are as many lines as both have instances. `Err` comes only where
/// memory is wanting.
pub fn used_text(alloc: Global, authority: &Authority, used: &Used<'_>) -> Result<Text, Memory>
    ensures { IfOk result (λ t. t ≡ used_text authority.now (map (λ account. account.set) used.now.accounts)) }
{
    let atoms = authority.atoms.as_slice();
    let rows = authority.rows.as_slice();
    let mut text = Vec::new(alloc);
    for at in 0..rows.len() {
        let Some(set) = used.set(at) else {
            return Ok(from_vec(text));
        };
        push_line(&mut text, atoms, &rows[at].name, set)?;
    }
    Ok(from_vec(text))
}
