//! What a row of a policy allows, as tables in which an atom is found by its name.

ghost use Rattle.std.specs.Prelude.{◌≡◌, ◌||◌, IfOk, OnOk, Some, false};
ghost use Rattle.std.specs.List.{list_any};
ghost use Rattle.wy_text.specs.declared.fault.AtomName.{AtomName as NameOfAtom};
ghost use Rattle.wy_policy.specs.Allowed.{allows, entry_allows, has_name};
ghost use Rattle.wy_policy.specs.Judging.{grants};

use crate::policy::{Entry, Member, Pattern, PolicyRow};
use indexmap::IndexSet;
use std::alloc::Global;
use std::marker::Model;
use wy_text::fault::AtomName;
use wy_text::text::{Memory, Text};

/// What entries allow: the grants of which they allow every member, and the atoms that they name.
#[derive(Drop)]
struct Granted {
    wholes: IndexSet<Text>,
    atoms: IndexSet<AtomName>,
}

impl Granted {
    /// Nothing.
    fn new(alloc: Global) -> Granted
        ensures { (atom : NameOfAtom) → grants result atom ≡ false }
    {
        Granted {
            wholes: IndexSet::new(alloc),
            atoms: IndexSet::new(alloc),
        }
    }

    /// Adds what an entry allows.
    fn add(&mut self, entry: &Entry) -> Result<(), Memory>
        ensures { OnOk result ((atom : NameOfAtom) → grants self.new atom ≡ grants self.old atom || entry_allows atom entry.now) }
    {
        let grant = entry.grant.copy()?;
        match &entry.member {
            Member::Every => {
                self.wholes.insert(grant)?;
                Ok(())
            }
            Member::Named(name) => {
                let atom = AtomName {
                    owner: grant,
                    member: name.copy()?,
                };
                self.atoms.insert(atom)?;
                Ok(())
            }
        }
    }

    /// Whether an atom is among it.
    fn has(&self, atom: &AtomName) -> bool
        ensures { result ≡ grants self.now atom.now }
    {
        self.wholes.contains(&atom.owner) || self.atoms.contains(atom)
    }
}

/// What these entries allow, each of which is read once.
fn granted_by(alloc: Global, entries: &[Entry]) -> Result<Granted, Memory>
    ensures { IfOk result (λ granted. (atom : NameOfAtom) → grants granted atom ≡ list_any (entry_allows atom) entries.now) }
{
    let mut granted = Granted::new(alloc);
    for entry in entries {
        granted.add(entry)?;
    }
    Ok(granted)
}

/// A row, and what it allows. Contracts see the row.
#[derive(Drop)]
pub struct Ruling<'a> {
    row: &'a PolicyRow,
    granted: Granted,
}

impl<'a> Model for Ruling<'a> {
    ghost use Rattle.std.specs.Prelude.{◌≡◌, Some};
    ghost use Rattle.wy_text.specs.declared.fault.AtomName.{AtomName};
    ghost use Rattle.wy_policy.specs.Allowed.{allows};
    ghost use Rattle.wy_policy.specs.Judging.{grants};
    ghost use Rattle.wy_policy.specs.declared.policy.PolicyRow.{PolicyRow};

    ghost Value = { PolicyRow };

    ghost view = { λ r. r.row.now };

    ghost invariant = { λ r. (atom : AtomName) → grants r.granted atom ≡ allows (Some r.row.now) atom };
}

impl<'a> Ruling<'a> {
    /// The ruling of a row. It takes memory for each of the row's entries once.
    pub fn new(alloc: Global, row: &'a PolicyRow) -> Result<Ruling<'a>, Memory>
        ensures { IfOk result (λ r. r ≡ row.now) }
    {
        let granted = granted_by(alloc, row.allowed.as_slice())?;
        Ok(Ruling { row, granted })
    }

    /// The number of the row's line. It takes no memory.
    pub fn line(&self) -> u32
        ensures { result ≡ self.now.line }
    {
        self.row.line
    }

    /// Whether the row is for an instance of this name. It takes no memory.
    pub fn has_name(&self, name: &Text) -> bool
        ensures { result ≡ has_name self.now.pattern name.now }
    {
        match &self.row.pattern {
            Pattern::Whole(whole) => whole.as_bytes() == name.as_bytes(),
            Pattern::Front(front) => name.as_bytes().starts_with(front.as_bytes()),
        }
    }

    /// Whether the row allows an atom. It takes no memory.
    pub fn allows(&self, atom: &AtomName) -> bool
        ensures { result ≡ allows (Some self.now) atom.now }
    {
        self.granted.has(atom)
    }
}
