//! Effects, which take no memory.

ghost use Rattle.std.specs.Prelude.{◌≡◌};
ghost use Rattle.wy_effects.specs.EffSet.{union};

use wy_effects::set::EffSet;

/// A set of the same atoms. It takes no memory.
pub fn copied(set: &EffSet) -> EffSet
    ensures { result ≡ set.now }
{
    match set.copy() {
        Ok(copy) => copy,
        Err(_) => unreachable!(),
    }
}

/// Adds the atoms of a set to another. It takes no memory.
pub fn unite(first: &EffSet, second: &mut EffSet)
    ensures { second.new ≡ union first.now second.old }
{
    match first.union_into(second) {
        Ok(()) => {}
        Err(_) => unreachable!(),
    }
}

/// The atoms of both sets. It takes no memory.
pub fn united(first: EffSet, mut second: EffSet) -> EffSet
    ensures { result ≡ union first second }
{
    unite(&first, &mut second);
    second
}
