//! The atoms of a scope (docs/LANGUAGE.md, "Names").

ghost use Rattle.std.specs.Prelude.{◌≡◌, ◌<◌, [], ◌∷◌, ◌++◌, List, Some, slice_get, IfOk, OnOk};
ghost use Rattle.std.specs.Option.{option_map};
ghost use Rattle.wy_text.specs.declared.fault.AtomName.{AtomName};
ghost use Rattle.wy_text.specs.Members.{Apart};
ghost use Rattle.wy_symbols.specs.Meanings.{abstract_names, abstract_bounds};
ghost use Rattle.wy_symbols.specs.Atoms.{atom_of, with_atom, with_members, owner_sets, opened_names, opened_bounds, bounds_at};
ghost use Rattle.wy_effects.specs.EffSet.{replace};

use crate::heads::Heads;
use crate::scoping::{Meaning, Opening, Owner};
use std::alloc::Global;
use wy_effects::atom::{Atom, AtomTable};
use wy_effects::set::{EffSet, SetList};
use wy_text::limit::MOST_ATOMS;
use wy_text::list::Items;
use wy_text::text::{Memory, Text};
use wy_types::resolved::BoundList;

/// Adds an atom, where it is not there, and gives its number. The limits keep a table from being full.
fn add_atom(atoms: &mut AtomTable, owner: &Text, member: &Text) -> Result<Atom, Memory>
    ensures put { OnOk result (atoms.new ≡ with_atom atoms.old (atom_of owner.now member.now)) }
    ensures number { IfOk result (λ n. slice_get atoms.new n.0 ≡ Some (atom_of owner.now member.now)) }
{
    let owner = owner.copy()?;
    let member = member.copy()?;
    match atoms.insert(owner, member) {
        Ok(atom) => Ok(atom),
        Err(_) => Err(Memory),
    }
}

/// The set of the one atom of this number, which the limits keep below 512.
pub fn single(alloc: Global, number: usize) -> Result<EffSet, Memory>
    ensures { IfOk result (λ s. s ≡ number ∷ []) }
{
    if number >= MOST_ATOMS {
        return Err(Memory);
    }
    let mut set = EffSet::empty(alloc);
    set.insert(Atom(number as u16))?;
    Ok(set)
}

fn add_single(alloc: Global, sets: &mut SetList, atom: Atom) -> Result<(), Memory>
    ensures { OnOk result (sets.new ≡ sets.old ++ (atom.0 ∷ []) ∷ []) }
{
    sets.push(single(alloc, atom.0 as usize)?)
}

/// Adds the atoms of an owner, one for each abstract member, and gives the set of each.
fn open_members(
    alloc: Global,
    atoms: &mut AtomTable,
    owner: &Text,
    members: &[Meaning],
) -> Result<SetList, Memory>
    requires apart { Apart atoms.old }
    ensures put { OnOk result (atoms.new ≡ with_members atoms.old owner.now (abstract_names members.now)) }
    ensures sets { IfOk result (λ s. (more : List AtomName) → owner_sets (atoms.new ++ more) owner.now (abstract_names members.now) ≡ s) }
{
    let mut sets = Items::new(alloc);
    for member in members {
        if member.is_abstract {
            let atom = add_atom(atoms, owner, &member.name)?;
            add_single(alloc, &mut sets, atom)?;
        }
    }
    Ok(sets)
}

/// Adds the atoms that an owner opens, and gives the set of each.
pub fn open(
    alloc: Global,
    atoms: &mut AtomTable,
    heads: &Heads,
    owner: &Owner,
) -> Result<SetList, Memory>
    requires apart { Apart atoms.old }
    ensures put { OnOk result (atoms.new ≡ with_members atoms.old owner.now.name (opened_names heads.now owner.now.opening)) }
    ensures sets { IfOk result (λ s. (more : List AtomName) → owner_sets (atoms.new ++ more) owner.now.name (opened_names heads.now owner.now.opening) ≡ s) }
{
    match owner.opening {
        Opening::Members { decl } => match heads.head(decl) {
            Some(head) => open_members(alloc, atoms, &owner.name, head.members.as_slice()),
            None => Ok(Items::new(alloc)),
        },
        Opening::Nothing | Opening::Missing => Ok(Items::new(alloc)),
    }
}

/// An upper bound with these sets put in for the members that it names.
fn bound_at(bound: &Option<EffSet>, sets: &[EffSet]) -> Result<Option<EffSet>, Memory>
    ensures { IfOk result (λ b. b ≡ option_map (replace sets.now) bound.now) }
{
    match bound {
        None => Ok(None),
        Some(set) => Ok(Some(set.substitute(sets)?)),
    }
}

/// Adds the upper bounds of abstract members, with these sets put in.
fn add_member_bounds(
    bounds: &mut BoundList,
    members: &[Meaning],
    sets: &[EffSet],
) -> Result<(), Memory>
    ensures { OnOk result (bounds.new ≡ bounds.old ++ bounds_at sets.now (abstract_bounds members.now)) }
{
    for member in members {
        if member.is_abstract {
            bounds.push(bound_at(&member.bound, sets)?)?;
        }
    }
    Ok(())
}

/// Adds the upper bounds of the atoms that an owner opens, by the set of each.
pub fn add_bounds(
    bounds: &mut BoundList,
    heads: &Heads,
    opening: Opening,
    sets: &[EffSet],
) -> Result<(), Memory>
    ensures { OnOk result (bounds.new ≡ bounds.old ++ bounds_at sets.now (opened_bounds heads.now opening)) }
{
    match opening {
        Opening::Members { decl } => match heads.head(decl) {
            Some(head) => add_member_bounds(bounds, head.members.as_slice(), sets),
            None => Ok(()),
        },
        Opening::Nothing | Opening::Missing => Ok(()),
    }
}
