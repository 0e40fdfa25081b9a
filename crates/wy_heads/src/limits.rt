//! The limits of this stage (docs/LANGUAGE.md, "Limits").

ghost use Rattle.std.specs.Prelude.{◌≡◌, ◌∷◌, [], ℕ, List, map, length, ◌≤◌, IfOk, nat_lt, Some, None};
ghost use Rattle.wy_text.specs.LimitName.{limit_number};
ghost use Rattle.wy_symbols.specs.Atoms.{all_names};
ghost use Rattle.wy_symbols.specs.Declarations.{Declared};
ghost use Rattle.wy_heads.specs.Counts.{first_passed, early_limits, limits, passes, type_counts};
ghost use Rattle.wy_heads.specs.Most.{greatest, types_most, module_params, modules_most, programs_most, grant_counts, first_over, declared_most};
ghost use Rattle.wy_symbols.specs.Lent.{lent_type, lent_program, module_tree, lent_declared};
ghost use Rattle.wy_types.specs.Primitive.{most_types};

use crate::atom_counts::{modules_pass, programs_pass, type_counts, types_pass};
use crate::counts::{Most, module_most, tail_most, with_members};
use crate::module_index::ModuleIndex;
use std::alloc::Global;
use wy_symbols::{ModuleView, Table, type_table};
use wy_syntax::items::{Program, TypeDecl};
use wy_text::limit::LimitName;
use wy_text::text::Memory;

fn types_most(start: Most, types: &[&TypeDecl]) -> Most
    ensures { result ≡ types_most start (map lent_type types.now) }
{
    let mut most = start;
    for decl in types {
        most = with_members(most, decl.members.as_slice());
    }
    most
}

fn module_params(start: usize, modules: &[ModuleView]) -> usize
    ensures { result ≡ greatest start (module_params (map module_tree modules.now)) }
{
    let mut most = start;
    for view in modules {
        most = most.max(view.params.len());
    }
    most
}

fn modules_most(start: Most, modules: &[ModuleView]) -> Most
    ensures { result ≡ modules_most start (map module_tree modules.now) }
{
    let mut most = start;
    for view in modules {
        most = module_most(most, view.parts);
    }
    most
}

fn programs_most(start: Most, programs: &[&Program]) -> Most
    ensures { result ≡ programs_most start (map lent_program programs.now) }
{
    let mut most = start;
    for program in programs {
        most = tail_most(most, &program.body);
    }
    most
}

fn most_grants(programs: &[&Program]) -> usize
    ensures { result ≡ greatest 0 (grant_counts (map lent_program programs.now)) }
{
    let mut most = 0;
    for program in programs {
        most = most.max(program.grants.len());
    }
    most
}

/// The greatest counts of methods, fields and parameters.
fn declared_most(types: &[&TypeDecl], modules: &[ModuleView], programs: &[&Program]) -> Most
    ensures { result ≡ declared_most (lent_declared types.now modules.now programs.now) }
{
    let start = Most {
        methods: 0,
        fields: 0,
        parameters: 0,
    };
    let members = types_most(start, types);
    let parameters = module_params(members.parameters, modules);
    let heads = Most {
        methods: members.methods,
        fields: members.fields,
        parameters,
    };
    programs_most(modules_most(heads, modules), programs)
}

/// The first of some limits whose number its count passes.
fn first_over(counts: &[(LimitName, usize)]) -> Option<LimitName>
    ensures { result ≡ first_over counts.now }
{
    for (limit, count) in counts {
        if *count as u64 > limit.number() {
            return Some(*limit);
        }
    }
    None
}

/// The first limit that is passed, of all but the last one, which counts atoms. It takes no memory.
pub fn early_limit(
    types: &[&TypeDecl],
    modules: &[ModuleView],
    programs: &[&Program],
) -> Option<LimitName>
    ensures { result ≡ first_passed early_limits (lent_declared types.now modules.now programs.now) }
{
    let most = declared_most(types, modules, programs);
    first_over(&[
        (LimitName::Types, types.len()),
        (LimitName::Modules, modules.len()),
        (LimitName::Grants, most_grants(programs)),
        (LimitName::Methods, most.methods),
        (LimitName::Fields, most.fields),
        (LimitName::Parameters, most.parameters),
    ])
}

/// Whether a type, a module or a program block has too many atoms.
fn some_pass(
    alloc: Global,
    names: &Table,
    counts: &[usize],
    types: &[&TypeDecl],
    modules: &ModuleIndex,
    programs: &[&Program],
) -> Result<bool, Memory>
    requires few { length names.now ≤ most_types }
    requires named { names.now ≡ all_names (map lent_type types.now) }
    requires counted { counts.now ≡ type_counts (map lent_type types.now) }
    ensures { IfOk result (λ b. b ≡ passes LimitName.Atoms (lent_declared types.now modules.now programs.now)) }
{
    if types_pass(types) {
        return Ok(true);
    }
    if modules_pass(alloc, names, modules, counts)? {
        return Ok(true);
    }
    programs_pass(alloc, names, modules, programs, counts)
}

/// Whether the number of atoms passes its limit somewhere, by the types' names and the modules.
fn atoms_pass_by(
    alloc: Global,
    names: &Table,
    types: &[&TypeDecl],
    modules: &ModuleIndex,
    programs: &[&Program],
) -> Result<bool, Memory>
    requires few { length names.now ≤ most_types }
    requires named { names.now ≡ all_names (map lent_type types.now) }
    ensures { IfOk result (λ b. b ≡ passes LimitName.Atoms (lent_declared types.now modules.now programs.now)) }
{
    let counts = type_counts(alloc, types)?;
    some_pass(alloc, names, &counts, types, modules, programs)
}

/// Whether the number of atoms passes its limit somewhere, by a table of the types' names.
fn atoms_pass_among(
    alloc: Global,
    names: &Table,
    types: &[&TypeDecl],
    modules: &[ModuleView],
    programs: &[&Program],
) -> Result<bool, Memory>
    requires few { length names.now ≤ most_types }
    requires named { names.now ≡ all_names (map lent_type types.now) }
    requires modules { length modules.now ≤ 256 }
    ensures { IfOk result (λ b. b ≡ passes LimitName.Atoms (lent_declared types.now modules.now programs.now)) }
{
    let modules = ModuleIndex::new(alloc, modules)?;
    atoms_pass_by(alloc, names, types, &modules, programs)
}

/// Whether the number of atoms passes its limit somewhere.
fn atoms_pass(
    alloc: Global,
    types: &[&TypeDecl],
    modules: &[ModuleView],
    programs: &[&Program],
) -> Result<bool, Memory>
    requires types { length types.now ≤ 1024 }
    requires modules { length modules.now ≤ 256 }
    ensures { IfOk result (λ b. b ≡ passes LimitName.Atoms (lent_declared types.now modules.now programs.now)) }
{
    let names = type_table(alloc, types)?;
    atoms_pass_among(alloc, &names, types, modules, programs)
}

/// The first limit of this stage that is passed, where there is one (docs/LANGUAGE.md, "Limits").
pub fn first_limit(
    alloc: Global,
    types: &[&TypeDecl],
    modules: &[ModuleView],
    programs: &[&Program],
) -> Result<Option<LimitName>, Memory>
    ensures { IfOk result (λ l. l ≡ first_passed limits (lent_declared types.now modules.now programs.now)) }
{
    match early_limit(types, modules, programs) {
        Some(limit) => Ok(Some(limit)),
        None => {
            if atoms_pass(alloc, types, modules, programs)? {
                Ok(Some(LimitName::Atoms))
            } else {
                Ok(None)
            }
        }
    }
}
