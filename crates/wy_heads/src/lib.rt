//! What stands in front of the bodies of modules and of the program: their owners, own names, lines and definitions, which
//! modules lead to which, and the limits on declarations.
#![tactic(auto)]

mod atom_counts;
mod behind;
mod counts;
mod cycles;
mod definitions;
mod leading;
mod limits;
mod lines;
mod marked;
mod module_heads;
mod module_index;
mod own_names;
mod owners;
mod program_heads;

pub use definitions::{note_init, start_effect};
pub use leading::note_cycles;
pub use limits::first_limit;
pub use module_heads::{definitions_at, note_front, own_of, owners_of, read_defined};
pub use module_index::ModuleIndex;
pub use program_heads::{note_program, program_own, program_owners_of};
