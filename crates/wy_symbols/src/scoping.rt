//! What names stand for that open effects: members of types, types, and the own names of scopes.

use crate::meanings::Meanings;
use wy_effects::set::EffSet;
use wy_text::text::Text;

/// A name that stands for a set of atoms: a member of a type, or what a module defines for one.
#[derive(Drop)]
pub struct Meaning {
    pub name: Text,
    /// Whether it is an abstract member, which stands for itself alone.
    pub is_abstract: bool,
    pub atoms: EffSet,
    /// The upper bound of an abstract member, where it has one: a set of abstract members before it.
    pub bound: Option<EffSet>,
}

/// A type's name and its effect members, in their order. The atoms are its abstract members, by their numbers.
#[derive(Drop)]
pub struct Head {
    pub name: Text,
    pub members: Meanings,
}

/// What a scope's own name opens for effects: the members of the type of this number, nothing, or what
/// is not known, where its type or its module is not declared.
#[derive(Clone, Copy, PartialEq, Eq)]
pub enum Opening {
    Members { decl: u16 },
    Nothing,
    Missing,
}

/// One of a scope's own names, as the owner of effects.
#[derive(Drop)]
pub struct Owner {
    pub name: Text,
    pub opening: Opening,
}
