ghost use Rattle.std.specs.Prelude.{◌≡◌, ◌<◌, ◌≤◌, ◌↔◌, [], length, map, slice_index_or, IfOk, IsOkAnd, OnErr, IsTrue, false};
ghost use Rattle.wy_lanes.specs.Rows.{others};
ghost use Rattle.wy_effects.specs.EffSet.{IsSet, insert_atom, union, without, replace};
ghost use Rattle.wy_text.specs.Members.{Within};
ghost use Rattle.wy_effects.specs.Bounds.{GoDown, IsWidened};
ghost use Rattle.wy_effects.specs.Widened.{with_bounded, widened_set};

use crate::atom::Atom;
use std::alloc::Global;
use std::marker::Model;
use wy_lanes::number_set::NumberSet;
use wy_text::list::Items;
use wy_text::text::Memory;

/// A list of effect sets.
pub type SetList = Items<EffSet>;

/// A finite set of atoms below 512, as eight words of 64 bits. Contracts see the ascending list of its atoms.
#[derive(Drop)]
pub struct EffSet {
    set: NumberSet,
    alloc: Global,
}

impl Model for EffSet {
    ghost use Rattle.std.specs.Prelude.{ℕ, List};

    ghost Value = { List ℕ };

    ghost view = { λ s. s.set };
}

impl PartialEq for EffSet {
    ghost use Rattle.std.specs.Prelude.{◌==◌};
    ghost use Rattle.std.specs.Cmp.Lexicographic.{pointwise};
    ghost use Rattle.std.proofs.Common.{rules};
    ghost use Rattle.std.specs.Cmp.Rules.{comparing};

    ghost eq = { pointwise ◌==◌ };

    ghost laws = { Prim.search (comparing, rules) };

    fn eq(&self, other: &EffSet) -> bool {
        self.set == other.set
    }
}

impl Eq for EffSet {
    ghost use Rattle.std.proofs.Common.{rules};
    ghost use Rattle.std.specs.Cmp.Rules.{comparing};

    ghost laws = { Prim.search (comparing, rules) };
}

/// Adds the atoms of the set at a number; none where there is no such set.
fn unite_at(by: &[EffSet], atom: u16, out: &mut NumberSet)
    ensures { out.new ≡ union (slice_index_or by.now atom []) out.old }
{
    if let Some(set) = by.get(atom as usize) {
        out.unite(&set.set);
    }
}

/// Whether two lists have the same sets. It takes no memory.
pub fn same_sets(a: &[EffSet], b: &[EffSet]) -> bool
    ensures yes { IsTrue result → a.now ≡ b.now }
    ensures no { result ≡ false → a.now ≡ b.now → ⊥ }
{
    if a.len() != b.len() {
        return false;
    }
    for (i, set) in a.iter().enumerate() {
        if !set.same(&b[i]) {
            return false;
        }
    }
    true
}

/// A list of the same sets.
pub fn copy_sets(alloc: Global, sets: &[EffSet]) -> Result<SetList, Memory>
    ensures { IfOk result (λ l. l ≡ sets.now) }
{
    let mut out = Items::new(alloc);
    for set in sets {
        out.push(set.copy()?)?;
    }
    Ok(out)
}

/// The sets with each atom replaced by the set at its number in `by`.
pub fn substitute_sets(alloc: Global, sets: &[EffSet], by: &[EffSet]) -> Result<SetList, Memory>
    ensures { IfOk result (λ l. l ≡ map (replace by.now) sets.now) }
{
    let mut out = Items::new(alloc);
    for set in sets {
        out.push(set.substitute(by)?)?;
    }
    Ok(out)
}

impl EffSet {
    /// The empty set. It takes no memory.
    pub fn empty(alloc: Global) -> EffSet
        ensures { result ≡ [] }
    {
        EffSet {
            set: NumberSet::empty(),
            alloc,
        }
    }

    /// Adds an atom below 512.
    fn add(&mut self, atom: u16)
        requires { atom < 512 }
        ensures { self.new ≡ insert_atom atom self.old }
    {
        self.set.insert(atom);
    }

    /// Adds an atom below 512 whose upper bound is in the set.
    fn add_bounded(&mut self, atom: u16, bound: &Option<EffSet>)
        requires { atom < 512 }
        ensures { self.new ≡ with_bounded atom bound.now self.old }
    {
        if let Some(bound) = bound {
            if self.includes(bound) {
                self.add(atom);
            }
        }
    }

    /// A set of the same atoms.
    fn copied(&self) -> EffSet
        ensures { result ≡ self.now }
    {
        EffSet {
            set: self.set.copy(),
            alloc: self.alloc,
        }
    }

    /// Adds an atom below 512. It takes no memory, and always answers Ok.
    pub fn insert(&mut self, atom: Atom) -> Result<(), Memory>
        requires { atom.0 < 512 }
        ensures ok { IsOkAnd result (λ u. self.new ≡ insert_atom atom.0 self.old) }
        ensures refused { OnErr result (self.new ≡ self.old) }
    {
        self.add(atom.0);
        Ok(())
    }

    /// Adds this set's atoms to the target. It takes no memory, and always answers Ok.
    pub fn union_into(&self, target: &mut EffSet) -> Result<(), Memory>
        ensures ok { IsOkAnd result (λ u. target.new ≡ union self.now target.old) }
        ensures refused { OnErr result (target.new ≡ target.old) }
    {
        target.set.unite(&self.set);
        Ok(())
    }

    /// Whether every atom of the inner set is in this one. It takes no memory.
    pub fn includes(&self, inner: &EffSet) -> bool
        ensures { IsTrue result ↔ Within inner.now self.now }
    {
        self.set.includes(&inner.set)
    }

    /// The atoms of this set that are not in the other. It takes no memory, and always answers Ok.
    pub fn without(&self, other: &EffSet) -> Result<EffSet, Memory>
        ensures { IsOkAnd result (λ s. s ≡ without self.now other.now) }
    {
        Ok(EffSet {
            set: self.set.without(&other.set),
            alloc: self.alloc,
        })
    }

    /// The atoms below 512 that are not in this set.
    pub(crate) fn lacking(&self) -> NumberSet
        ensures { result ≡ others self.now }
    {
        self.set.complement()
    }

    /// Each atom replaced by the set at its number in `by`: the atoms of all those sets. An atom
    /// that has no set there is left out. It takes no memory, and always answers Ok.
    pub fn substitute(&self, by: &[EffSet]) -> Result<EffSet, Memory>
        ensures { IsOkAnd result (λ s. s ≡ replace by.now self.now) }
    {
        self.is_set();
        let mut set = NumberSet::empty();
        let mut from = 0;
        while let Some(atom) = self.set.next(from) {
            unite_at(by, atom, &mut set);
            from = atom + 1;
        }
        set.is_ascending();
        Ok(EffSet {
            set,
            alloc: self.alloc,
        })
    }

    /// The atoms that are within this set over upper bounds that name earlier atoms: its own, and each whose bound
    /// is within it (docs/LANGUAGE.md, "Effects"). It takes no memory.
    pub fn widened(&self, bounds: &[Option<EffSet>]) -> EffSet
        requires { length bounds.now ≤ 512 }
        ensures set { result ≡ widened_set bounds.now self.now }
        ensures exact { GoDown bounds.now → IsWidened bounds.now self.now result }
    {
        let mut wide = self.copied();
        for (atom, bound) in bounds.iter().enumerate() {
            wide.add_bounded(atom as u16, bound);
        }
        wide
    }

    /// The set's atoms, in ascending order.
    pub fn atoms(&self) -> Result<Vec<Atom>, Memory>
        ensures { IfOk result (λ v. map (λ a. a.0) v.items ≡ self.now) }
    {
        self.is_set();
        let mut out = Vec::new(self.alloc);
        let mut from = 0;
        while let Some(atom) = self.set.next(from) {
            out.push(Atom(atom))?;
            from = atom + 1;
        }
        Ok(out)
    }

    /// How many atoms the set has. It takes no memory.
    pub fn len(&self) -> usize
        ensures { result ≡ length self.now }
    {
        self.set.len()
    }

    /// Whether the other has the same atoms. It takes no memory.
    pub fn same(&self, other: &EffSet) -> bool
        ensures { IsTrue result ↔ (self.now ≡ other.now) }
    {
        *self == *other
    }

    /// A set of the same atoms. It takes no memory, and always answers Ok.
    pub fn copy(&self) -> Result<EffSet, Memory>
        ensures { IsOkAnd result (λ s. s ≡ self.now) }
    {
        Ok(self.copied())
    }

    /// States what every set keeps: its atoms ascend, and are below 512.
    pub fn is_set(&self)
        ensures { IsSet 512 self.now }
    {
        self.set.is_ascending();
    }
}
