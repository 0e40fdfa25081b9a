//! What stands in the files of a program, and what the names of its types, members and effects stand for: declarations in
//! lists, tables of names, scopes of atoms, and written sets, types and signatures with their refusals.
#![tactic(auto)]

mod atom_scope;
mod atoms;
mod collected;
mod declarations;
mod gathering;
mod heads;
mod items;
mod meanings;
mod members;
mod names_of;
mod naming;
mod noting;
mod refusal;
mod scoping;
mod sets;
mod signatures;
mod tables;
mod type_uses;

pub use atom_scope::{AtomScope, Opened, Owners};
pub use collected::{Names, OwnerList, WrittenNames};
pub use declarations::read_declarations;
pub use gathering::{Gathered, ModuleView, gather};
pub use heads::Heads;
pub use items::add;
pub use meanings::Meanings;
pub use members::heads_of;
pub use names_of::{module_table, primitive_names, type_table};
pub use naming::{Named, add_names};
pub use noting::note_at;
pub use refusal::{Cause, Refusal};
pub use scoping::{Head, Meaning, Opening, Owner};
pub use sets::{note_set, read_set, set_of};
pub use signatures::read_method;
pub use tables::{Table, name_table, note_repeated};
pub use type_uses::{note_plain, note_type, note_written, read_type, type_ref};
