//! The count of atoms (docs/LANGUAGE.md, "Limits").

ghost use Rattle.std.specs.Prelude.{◌≡◌, ◌≤◌, ℕ, List, map, length, min, nat_lt, IfOk};
ghost use Rattle.wy_heads.specs.Counts.{abstract_count, type_counts, abstract_counts, opening_count, owners_count, module_count, program_count, some_above};
ghost use Rattle.wy_symbols.specs.Lent.{lent_type, lent_program, module_tree};
ghost use Rattle.wy_types.specs.Primitive.{most_types};

use crate::module_index::ModuleIndex;
use crate::owners::{module_owners, program_owners};
use std::alloc::Global;
use wy_symbols::{Opening, Owner, Table};
use wy_syntax::items::{Member, Program, TypeDecl};
use wy_text::limit::MOST_ATOMS;
use wy_text::text::Memory;

fn abstract_count(members: &[Member]) -> usize
    ensures { result ≡ abstract_count members.now }
{
    let mut count = 0;
    for member in members {
        match member {
            Member::Abstract(_) | Member::Bounded(_, _) => count += 1,
            Member::Defined(_, _) | Member::Method(_) => {}
        }
    }
    count
}

/// The number of abstract members of each type, by the types' numbers.
pub fn type_counts(alloc: Global, types: &[&TypeDecl]) -> Result<Vec<usize>, Memory>
    ensures { IfOk result (λ cs. cs.items ≡ type_counts (map lent_type types.now)) }
{
    let mut counts = Vec::from_slice(alloc, &[2, 4, 1, 1, 5])?;
    for decl in types {
        counts.push(abstract_count(decl.members.as_slice()))?;
    }
    Ok(counts)
}

fn opening_count(counts: &[usize], opening: Opening) -> usize
    ensures { result ≡ opening_count counts.now opening }
{
    match opening {
        Opening::Members { decl } => match counts.get(decl as usize) {
            Some(count) => *count,
            None => 0,
        },
        Opening::Nothing | Opening::Missing => 0,
    }
}

/// The atoms that owners open, as long as they are at most 513.
fn owners_count(counts: &[usize], owners: &[Owner]) -> usize
    ensures { result ≡ min 513 (owners_count counts.now owners.now) }
{
    let mut count: usize = 0;
    for owner in owners {
        count = count
            .saturating_add(opening_count(counts, owner.opening))
            .min(MOST_ATOMS + 1);
    }
    count
}

/// Whether owners open more atoms than a scope may have.
fn open_too_many(counts: &[usize], owners: &[Owner]) -> bool
    ensures { result ≡ nat_lt 512 (owners_count counts.now owners.now) }
{
    owners_count(counts, owners) > MOST_ATOMS
}

/// Whether some type has too many abstract members.
pub fn types_pass(types: &[&TypeDecl]) -> bool
    ensures { result ≡ some_above 512 (abstract_counts (map lent_type types.now)) }
{
    for decl in types {
        if abstract_count(decl.members.as_slice()) > MOST_ATOMS {
            return true;
        }
    }
    false
}

/// Whether some module has too many atoms in its scope.
pub fn modules_pass(
    alloc: Global,
    types: &Table,
    modules: &ModuleIndex,
    counts: &[usize],
) -> Result<bool, Memory>
    requires { length types.now ≤ most_types }
    ensures { IfOk result (λ b. b ≡ some_above 512 (map (module_count types.now (map module_tree modules.now) counts.now) (map module_tree modules.now))) }
{
    let views = modules.views();
    for view in views {
        let owners = module_owners(alloc, types, modules, view)?;
        if open_too_many(counts, owners.as_slice()) {
            return Ok(true);
        }
    }
    Ok(false)
}

/// Whether some program block has too many atoms in its scope.
pub fn programs_pass(
    alloc: Global,
    types: &Table,
    modules: &ModuleIndex,
    programs: &[&Program],
    counts: &[usize],
) -> Result<bool, Memory>
    requires { length types.now ≤ most_types }
    ensures { IfOk result (λ b. b ≡ some_above 512 (map (program_count types.now (map module_tree modules.now) counts.now) (map lent_program programs.now))) }
{
    for program in programs {
        let owners = program_owners(alloc, types, modules, program)?;
        if open_too_many(counts, owners.as_slice()) {
            return Ok(true);
        }
    }
    Ok(false)
}
