ghost use Rattle.std.specs.Prelude.{◌≡◌, ◌↔◌, IfOk, IsTrue};
ghost use Rattle.wy_types.specs.Types.{IsObject};

use std::alloc::Global;
use wy_effects::set::{EffSet, SetList, copy_sets, same_sets};
use wy_text::list::Items;
use wy_text::text::{Memory, Text};

/// A type in a scope (docs/LANGUAGE.md, "Effects and types"). A declared type goes by its number among the
/// declarations; the sets are of the scope's atoms.
#[derive(Drop, PartialEq, Eq)]
pub enum TypeRef {
    Int,
    Bool,
    Text,
    Unit,
    /// A declared type with a set for each abstract member, in their order. In a plain module a
    /// declared type is bare and has no sets.
    Named { decl: u16, members: SetList },
    /// A declared type, each of whose reached methods has this effect.
    At { decl: u16, bound: EffSet },
    /// The type of the scope's module itself, by 0, or of its literal of this number, counted from 1.
    Own { literal: u32 },
}

/// A list of types.
pub type TypeList = Items<TypeRef>;

/// A method's signature.
#[derive(Drop, PartialEq, Eq)]
pub struct Method {
    pub name: Text,
    pub params: TypeList,
    pub effect: EffSet,
    pub result: TypeRef,
}

impl TypeRef {
    /// Whether it is no base type. It takes no memory.
    pub fn is_object(&self) -> bool
        ensures { IsTrue result ↔ IsObject self.now }
    {
        match self {
            TypeRef::Int | TypeRef::Bool | TypeRef::Text | TypeRef::Unit => false,
            TypeRef::Named { .. } | TypeRef::At { .. } | TypeRef::Own { .. } => true,
        }
    }

    /// Whether the other is the same type. It takes no memory.
    pub fn same(&self, other: &TypeRef) -> bool
        ensures { IsTrue result ↔ (self.now ≡ other.now) }
    {
        match (self, other) {
            (TypeRef::Int, TypeRef::Int) => true,
            (TypeRef::Bool, TypeRef::Bool) => true,
            (TypeRef::Text, TypeRef::Text) => true,
            (TypeRef::Unit, TypeRef::Unit) => true,
            (
                TypeRef::Named {
                    decl: d,
                    members: m,
                },
                TypeRef::Named {
                    decl: e,
                    members: n,
                },
            ) => { *d == *e && same_sets(m.as_slice(), n.as_slice()) }
            (TypeRef::At { decl: d, bound: b }, TypeRef::At { decl: e, bound: c }) => *d == *e
                && b.same(c),
            (TypeRef::Own { literal: l }, TypeRef::Own { literal: k }) => *l == *k,
            _ => false,
        }
    }

    /// The same type.
    pub fn copy(&self, alloc: Global) -> Result<TypeRef, Memory>
        ensures { IfOk result (λ t. t ≡ self.now) }
    {
        match self {
            TypeRef::Int => Ok(TypeRef::Int),
            TypeRef::Bool => Ok(TypeRef::Bool),
            TypeRef::Text => Ok(TypeRef::Text),
            TypeRef::Unit => Ok(TypeRef::Unit),
            TypeRef::Named { decl, members } => Ok(TypeRef::Named {
                decl: *decl,
                members: copy_sets(alloc, members.as_slice())?,
            }),
            TypeRef::At { decl, bound } => Ok(TypeRef::At {
                decl: *decl,
                bound: bound.copy()?,
            }),
            TypeRef::Own { literal } => Ok(TypeRef::Own { literal: *literal }),
        }
    }
}
