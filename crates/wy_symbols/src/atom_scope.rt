//! What written sets and types see (docs/LANGUAGE.md, "Names").

ghost use Rattle.std.specs.Prelude.{◌≡◌, [], ◌∷◌, ◌++◌, List, map, take, slice_get, IfOk, OnOk};
ghost use Rattle.std.specs.Option.{option_copied};
ghost use Rattle.wy_symbols.specs.Atoms.{atoms_of, bounds_of_owners, owner_of, owner_names, atom_scope};
ghost use Rattle.wy_symbols.specs.Declarations.{first_from};
ghost use Rattle.wy_symbols.specs.Meanings.{meaning_of};
ghost use Rattle.wy_symbols.specs.Found.{IsFound, HaveSets};
ghost use Rattle.wy_symbols.specs.declared.atom_scope.Opened.{Opened};
ghost use Rattle.wy_text.specs.declared.fault.AtomName.{AtomName};

use crate::atoms::{add_bounds, open};
use crate::heads::Heads;
use crate::items::item;
use crate::meanings::Meanings;
use crate::scoping::{Meaning, Owner};
use crate::tables::Table;
use std::alloc::Global;
use std::marker::Model;
use wy_effects::atom::AtomTable;
use wy_effects::set::SetList;
use wy_text::list::Items;
use wy_text::text::{Memory, Text};
use wy_types::resolved::BoundList;

/// An owner, with the set of the one atom of each member that it opens.
#[derive(Drop)]
pub struct Opened {
    pub owner: Owner,
    pub sets: SetList,
}

/// The owners of a scope with their atoms. A name is found by a table.
#[derive(Drop)]
pub struct Owners<'a> {
    heads: &'a Heads,
    atoms: AtomTable,
    list: Vec<Opened>,
    names: Table,
}

impl<'a> Model for Owners<'a> {
    ghost use Rattle.std.specs.Prelude.{◌≡◌, [], map};
    ghost use Rattle.wy_text.specs.Members.{In};
    ghost use Rattle.wy_symbols.specs.declared.atom_scope.Opened.{Opened};
    ghost use Rattle.wy_symbols.specs.Atoms.{AtomScope, owner_sets, opened_names, owner_names};

    ghost Value = { AtomScope };

    ghost view = { λ o. record { heads = o.heads.now; atoms = o.atoms; owners = map (λ (p : Opened). p.owner) o.list.items; meanings = [] } };

    ghost invariant = { λ o.
        (o.names ≡ owner_names (map (λ (p : Opened). p.owner) o.list.items)) ×
        ((p : Opened) → In p o.list.items → owner_sets o.atoms p.owner.name (opened_names o.heads.now p.owner.opening) ≡ p.sets) };
}

/// Adds an owner and its name.
fn add_owner(
    list: &mut Vec<Opened>,
    names: &mut Vec<Text>,
    owner: &Owner,
    sets: SetList,
) -> Result<(), Memory>
    ensures list { OnOk result (list.new.items ≡ list.old.items ++ record { owner = owner.now; sets = sets } ∷ []) }
    ensures names { OnOk result (names.new.items ≡ names.old.items ++ owner.now.name ∷ []) }
{
    let name = owner.name.copy()?;
    let again = owner.name.copy()?;
    let opening = owner.opening;
    let owner = Owner { name, opening };
    list.push(Opened { owner, sets })?;
    names.push(again)?;
    Ok(())
}

/// The upper bounds of the members that owners open, with the set of each put in.
fn bounds_of(alloc: Global, heads: &Heads, list: &[Opened]) -> Result<BoundList, Memory>
    ensures { IfOk result (λ bs. (atoms : List AtomName) → HaveSets heads.now atoms list.now → bs ≡ bounds_of_owners heads.now atoms (map (λ (p : Opened). p.owner) list.now)) }
{
    let mut bounds = Items::new(alloc);
    for opened in list {
        add_bounds(
            &mut bounds,
            heads,
            opened.owner.opening,
            opened.sets.as_slice(),
        )?;
    }
    Ok(bounds)
}

/// Adds owners with the sets of their atoms, their names and the atoms.
fn add_owners(
    alloc: Global,
    heads: &Heads,
    owners: &[Owner],
    atoms: &mut AtomTable,
    list: &mut Vec<Opened>,
    names: &mut Vec<Text>,
) -> Result<(), Memory>
    requires no_atoms { atoms.old ≡ [] }
    requires no_owners { list.old.items ≡ [] }
    requires no_names { names.old.items ≡ [] }
    ensures atoms { OnOk result (atoms.new ≡ atoms_of heads.now owners.now) }
    ensures owners { OnOk result (map (λ (p : Opened). p.owner) list.new.items ≡ owners.now) }
    ensures sets { OnOk result (HaveSets heads.now atoms.new list.new.items) }
    ensures names { OnOk result (names.new.items ≡ owner_names owners.now) }
{
    for owner in owners {
        let sets = open(alloc, atoms, heads, owner)?;
        add_owner(list, names, owner, sets)?;
    }
    Ok(())
}

impl<'a> Owners<'a> {
    /// These owners with their atoms, which have numbers by the order of their owners, and then by that of
    /// abstract members.
    pub fn new(alloc: Global, heads: &'a Heads, owners: &[Owner]) -> Result<Owners<'a>, Memory>
        ensures { IfOk result (λ o. o ≡ atom_scope heads.now (atoms_of heads.now owners.now) owners.now []) }
    {
        let mut atoms = AtomTable::new(alloc);
        let mut list = Vec::new(alloc);
        let mut names = Vec::new(alloc);
        add_owners(alloc, heads, owners, &mut atoms, &mut list, &mut names)?;
        let names = Table::new(alloc, names)?;
        Ok(Owners {
            heads,
            atoms,
            list,
            names,
        })
    }

    /// The names, in the order of the owners. It takes no memory.
    pub fn names(&self) -> &Table
        ensures { result.now ≡ owner_names self.now.owners }
    {
        &self.names
    }

    /// The types that the owners' members are of. It takes no memory.
    pub fn heads(&self) -> &'a Heads
        ensures { result.now ≡ self.now.heads }
    {
        self.heads
    }

    /// The number of the first owner of a name among so many. It takes no memory.
    pub fn number(&self, visible: usize, name: &Text) -> Option<usize>
        ensures { result ≡ first_from 0 (owner_names (take visible self.now.owners)) name.now }
    {
        match self.names.number(name) {
            None => None,
            Some(number) => { if number < visible { Some(number) } else { None } }
        }
    }

    /// The owner of a number, with its sets. It takes no memory.
    pub fn at(&self, number: usize) -> Option<&Opened>
        ensures { IsFound self.now (slice_get self.now.owners number) (option_copied result) }
    {
        item(&self.list, number)
    }

    /// The first owner of a name among so many, with its sets. It takes no memory.
    pub fn find(&self, visible: usize, name: &Text) -> Option<&Opened>
        ensures { IsFound self.now (owner_of (take visible self.now.owners) name.now) (option_copied result) }
    {
        match self.names.number(name) {
            None => None,
            Some(number) => {
                if number < visible {
                    item(&self.list, number)
                } else {
                    None
                }
            }
        }
    }

    /// The upper bounds of the members that the owners open, by the owners' order: those of the scope's atoms, where no
    /// two owners and no two members of a type have one name.
    pub fn bounds(&self, alloc: Global) -> Result<BoundList, Memory>
        ensures { IfOk result (λ bs. bs ≡ bounds_of_owners self.now.heads self.now.atoms self.now.owners) }
    {
        bounds_of(alloc, self.heads, &self.list)
    }

    /// Only the atoms. It takes no memory.
    pub fn into_atoms(self) -> AtomTable
        ensures { result ≡ self.entry.atoms }
    {
        self.atoms
    }
}

/// What written sets see: of a scope's owners so many, and what names of one word stand for.
#[derive(Drop)]
pub struct AtomScope<'a> {
    owners: &'a Owners<'a>,
    visible: usize,
    meanings: &'a Meanings,
}

impl<'a> Model for AtomScope<'a> {
    ghost use Rattle.std.specs.Prelude.{take};
    ghost use Rattle.wy_symbols.specs.Atoms.{AtomScope};

    ghost Value = { AtomScope };

    ghost view = { λ s. record { heads = s.owners.now.heads; atoms = s.owners.now.atoms; owners = take s.visible s.owners.now.owners; meanings = s.meanings.now } };

    ghost invariant = { λ s. Unit {0} };
}

impl<'a> AtomScope<'a> {
    /// The scope of so many owners and these names of one word. It takes no memory.
    pub fn new(owners: &'a Owners<'a>, visible: usize, meanings: &'a Meanings) -> AtomScope<'a>
        ensures { result ≡ atom_scope owners.now.heads owners.now.atoms (take visible owners.now.owners) meanings.now }
    {
        AtomScope {
            owners,
            visible,
            meanings,
        }
    }

    /// The types that the scope sees. It takes no memory.
    pub fn heads(&self) -> &'a Heads
        ensures { result.now ≡ self.now.heads }
    {
        self.owners.heads()
    }

    /// What a name of one word stands for. It takes no memory.
    pub fn meaning(&self, name: &Text) -> Option<&Meaning>
        ensures { option_copied result ≡ meaning_of self.now.meanings name.now }
    {
        self.meanings.find(name)
    }

    /// The owner of a name, with its sets. It takes no memory.
    pub fn owner(&self, name: &Text) -> Option<&Opened>
        ensures { IsFound self.now (owner_of self.now.owners name.now) (option_copied result) }
    {
        self.owners.find(self.visible, name)
    }
}
