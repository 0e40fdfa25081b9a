//! Effects: which atoms are among others.

ghost use Rattle.std.specs.Prelude.{◌≡◌, ◌↔◌, List, IsTrue};
ghost use Rattle.wy_text.specs.Members.{Within};
ghost use Rattle.wy_image.specs.declared.typing.Atom.{Atom};
ghost use Rattle.wy_verify.specs.Effects.{AreSmall, IsSmall, atom_number, effect_numbers};

use std::marker::Model;
use wy_image::Atom;
use wy_lanes::number_set::NumberSet;
use wy_text::list::Items;

/// A stated effect, with its atoms as a set. Contracts see the list of its atoms.
#[derive(Drop)]
pub struct Effect<'a> {
    atoms: &'a Items<Atom>,
    set: NumberSet,
}

impl<'a> Model for Effect<'a> {
    ghost use Rattle.std.specs.Prelude.{◌≡◌, List};
    ghost use Rattle.wy_image.specs.declared.typing.Atom.{Atom};
    ghost use Rattle.wy_verify.specs.Effects.{AreSmall, effect_numbers};

    ghost Value = { List Atom };

    ghost view = { λ e. e.atoms.now };

    ghost invariant = { λ e. (e.set ≡ effect_numbers e.atoms.now) × AreSmall e.atoms.now };
}

/// Returns the number of an atom. Takes no memory.
pub(crate) fn number_of(atom: Atom) -> u16
    requires { IsSmall atom }
    ensures { result ≡ atom_number atom }
{
    8 * atom.grant as u16 + atom.member as u16
}

/// Returns the set of the numbers of atoms. Takes no memory.
pub(crate) fn set_of(atoms: &Items<Atom>) -> NumberSet
    requires { AreSmall atoms.now }
    ensures { result ≡ effect_numbers atoms.now }
{
    let mut set = NumberSet::empty();
    for atom in atoms.as_slice() {
        set.insert(number_of(*atom));
    }
    set
}

impl<'a> Effect<'a> {
    /// Makes the effect with these atoms. Takes no memory.
    pub(crate) fn new(atoms: &'a Items<Atom>) -> Effect<'a>
        requires { AreSmall atoms.now }
        ensures { result ≡ atoms.now }
    {
        let set = set_of(atoms);
        Effect { atoms, set }
    }

    /// Returns whether each atom of a set is in the effect. Takes no memory.
    pub(crate) fn has_all(&self, set: &NumberSet) -> bool
        ensures { (xs : List Atom) → set.now ≡ effect_numbers xs → AreSmall xs → (IsTrue result ↔ Within xs self.now) }
    {
        self.set.includes(set)
    }
}
