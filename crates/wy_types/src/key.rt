//! Keys of types, by which tables find what they have.

ghost use Rattle.std.specs.Prelude.{◌≡◌, ◌++◌, ◌∷◌, [], IfOk, OnOk};
ghost use Rattle.wy_types.specs.Keys.{set_key, sets_key, type_key, pair_key, mark_key};

use crate::types::TypeRef;
use std::alloc::Global;
use std::hash::{Hash, Hasher};
use std::marker::Model;
use wy_effects::set::EffSet;
use wy_text::text::Memory;

/// Numbers that stand for types. Keys that are made by one call are equal exactly where their types are.
#[derive(Drop)]
pub struct Key {
    numbers: Vec<u32>,
}

impl Model for Key {
    ghost use Rattle.std.specs.Prelude.{ℕ, List};

    ghost Value = { List ℕ };

    ghost view = { λ k. k.numbers.items };
}

impl PartialEq for Key {
    ghost use Rattle.std.specs.Prelude.{◌==◌};
    ghost use Rattle.std.specs.Cmp.Lexicographic.{pointwise};
    ghost use Rattle.std.proofs.Common.{rules};
    ghost use Rattle.std.specs.Cmp.Rules.{comparing};

    ghost eq = { pointwise ◌==◌ };

    ghost laws = { Prim.search (comparing, rules) };

    fn eq(&self, other: &Key) -> bool {
        self.numbers.as_slice() == other.numbers.as_slice()
    }
}

impl Eq for Key {
    ghost use Rattle.std.proofs.Common.{rules};
    ghost use Rattle.std.specs.Cmp.Rules.{comparing};

    ghost laws = { Prim.search (comparing, rules) };
}

impl Hash for Key {
    ghost use Rattle.std.specs.Hash as fed;
    ghost use Rattle.std.proofs.Common.{rules};
    ghost use Rattle.std.specs.Cmp.Rules.{hashing};

    ghost hash_input = { fed.slice fed.u32 };

    ghost respects_eq = { Prim.search (hashing, rules) };

    fn hash<H: Hasher>(&self, state: &mut H) {
        self.numbers.as_slice().hash(state);
    }
}

fn add_number(out: &mut Vec<u32>, number: u32) -> Result<(), Memory>
    ensures { OnOk result (out.new.items ≡ out.old.items ++ number ∷ []) }
{
    out.push(number)?;
    Ok(())
}

fn add_pair(out: &mut Vec<u32>, first: u32, second: u32) -> Result<(), Memory>
    ensures { OnOk result (out.new.items ≡ out.old.items ++ first ∷ second ∷ []) }
{
    out.push(first)?;
    add_number(out, second)
}

fn add_set(out: &mut Vec<u32>, set: &EffSet) -> Result<(), Memory>
    ensures { OnOk result (out.new.items ≡ out.old.items ++ set_key set.now) }
{
    let atoms = set.atoms()?;
    for atom in &atoms {
        out.push(u32::from(atom.0) + 1)?;
    }
    add_number(out, 0)
}

fn add_sets(out: &mut Vec<u32>, sets: &[EffSet]) -> Result<(), Memory>
    ensures { OnOk result (out.new.items ≡ out.old.items ++ sets_key sets.now) }
{
    for set in sets {
        out.push(1)?;
        add_set(out, set)?;
    }
    add_number(out, 0)
}

fn add_type(out: &mut Vec<u32>, t: &TypeRef) -> Result<(), Memory>
    ensures { OnOk result (out.new.items ≡ out.old.items ++ type_key t.now) }
{
    match t {
        TypeRef::Int => add_number(out, 0),
        TypeRef::Bool => add_number(out, 1),
        TypeRef::Text => add_number(out, 2),
        TypeRef::Unit => add_number(out, 3),
        TypeRef::Named { decl, members } => {
            add_pair(out, 4, u32::from(*decl))?;
            add_sets(out, members.as_slice())
        }
        TypeRef::At { decl, bound } => {
            add_pair(out, 5, u32::from(*decl))?;
            add_set(out, bound)
        }
        TypeRef::Own { literal } => add_pair(out, 6, *literal),
    }
}

/// The key of a type.
pub fn key_of_type(alloc: Global, t: &TypeRef) -> Result<Key, Memory>
    ensures { IfOk result (λ k. k ≡ type_key t.now) }
{
    let mut numbers = Vec::new(alloc);
    add_type(&mut numbers, t)?;
    Ok(Key { numbers })
}

/// The key of two types, in their order.
pub fn key_of_pair(alloc: Global, left: &TypeRef, right: &TypeRef) -> Result<Key, Memory>
    ensures { IfOk result (λ k. k ≡ pair_key left.now right.now) }
{
    let mut numbers = Vec::new(alloc);
    add_type(&mut numbers, left)?;
    add_type(&mut numbers, right)?;
    Ok(Key { numbers })
}

/// The key of a type with a mark of two kinds.
pub fn key_of_mark(alloc: Global, t: &TypeRef, mark: bool) -> Result<Key, Memory>
    ensures { IfOk result (λ k. k ≡ mark_key t.now mark) }
{
    let mut numbers = Vec::new(alloc);
    numbers.push(u32::from(mark))?;
    add_type(&mut numbers, t)?;
    Ok(Key { numbers })
}
