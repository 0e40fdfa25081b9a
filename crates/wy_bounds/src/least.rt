//! The least atom of a set that a method lacks, over the methods of entries.

ghost use Rattle.std.specs.Prelude.{◌≡◌, IfOk, map, None};
ghost use Rattle.wy_effects.specs.EffSet.{without};
ghost use Rattle.wy_types.specs.Program.{program_of};
ghost use Rattle.wy_types.specs.Types.{signature};
ghost use Rattle.wy_types.specs.InRange.{IsInRange};
ghost use Rattle.wy_bounds.specs.Gathering.{wide_of, methods_at as entry_methods, first_atom, lesser as lesser_of, lack_of_methods, lack_of_entries};

use crate::entry::Entry;
use std::alloc::Global;
use wy_effects::atom::Atom;
use wy_effects::set::EffSet;
use wy_text::text::Memory;
use wy_types::bounds::widened;
use wy_types::methods::methods;
use wy_types::resolved::Core;
use wy_types::types::Method;

/// An atom that a method of the entry at this place lacks.
#[derive(Clone, Copy)]
pub struct Lack {
    pub atom: Atom,
    pub at: usize,
}

/// The methods of an entry that has the polarity; none of another.
pub fn methods_at(
    alloc: Global,
    core: &Core,
    scope: u16,
    entry: &Entry,
    positive: bool,
) -> Result<Vec<Method>, Memory>
    ensures { IfOk result (λ v. map signature v.items ≡ entry_methods (program_of core.now) scope positive entry.now) }
{
    if entry.positive != positive {
        return Ok(Vec::new(alloc));
    }
    methods(alloc, core, scope, &entry.typ)
}

/// The least atom of the set that is not within the effect in a scope.
fn lacking(core: &Core, scope: u16, set: &EffSet, effect: &EffSet) -> Result<Option<Atom>, Memory>
    requires { IsInRange (program_of core.now) }
    ensures { IfOk result (λ o. o ≡ first_atom (without set.now (wide_of (program_of core.now) scope effect.now))) }
{
    let atoms = set.without(&widened(core, scope, effect))?.atoms()?;
    Ok(atoms.first().copied())
}

/// The lesser of what is lacking and an atom that a method of the entry at a place lacks.
fn lesser(lack: Option<Lack>, atom: Option<Atom>, at: usize) -> Option<Lack>
    ensures { result ≡ lesser_of lack atom at }
{
    match (lack, atom) {
        (lack, None) => lack,
        (None, Some(atom)) => Some(Lack { atom, at }),
        (Some(lack), Some(atom)) => {
            if atom.0 < lack.atom.0 {
                Some(Lack { atom, at })
            } else {
                Some(lack)
            }
        }
    }
}

/// The lesser of what is lacking and what the methods of the entry at a place lack of the set.
fn with_methods(
    core: &Core,
    scope: u16,
    methods: &[Method],
    set: &EffSet,
    at: usize,
    lack: Option<Lack>,
) -> Result<Option<Lack>, Memory>
    requires { IsInRange (program_of core.now) }
    ensures { IfOk result (λ o. o ≡ lack_of_methods (wide_of (program_of core.now) scope) set.now at (map signature methods.now) lack) }
{
    let mut least = lack;
    for m in methods {
        least = lesser(least, lacking(core, scope, set, &m.effect)?, at);
    }
    Ok(least)
}

/// The least atom of the set that a method of an entry of the polarity lacks, with the entry's place.
pub fn least_lack(
    alloc: Global,
    core: &Core,
    scope: u16,
    entries: &[Entry],
    positive: bool,
    set: &EffSet,
) -> Result<Option<Lack>, Memory>
    requires { IsInRange (program_of core.now) }
    ensures { IfOk result (λ o. o ≡ lack_of_entries (program_of core.now) scope positive set.now 0 entries.now None) }
{
    let mut least = None;
    for (at, entry) in entries.iter().enumerate() {
        let found = methods_at(alloc, core, scope, entry, positive)?;
        least = with_methods(core, scope, found.as_slice(), set, at, least)?;
    }
    Ok(least)
}
