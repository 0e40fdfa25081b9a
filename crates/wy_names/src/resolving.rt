//! Resolving a program's names.

ghost use Rattle.std.specs.Prelude.{◌≡◌, ◌≤◌, ◌++◌, [], map, length, IfOk, IfErr, OnOk};
ghost use Rattle.wy_syntax.specs.Views.{file_tree};
ghost use Rattle.wy_types.specs.Primitive.{primitive_types};
ghost use Rattle.wy_types.specs.Program.{scope_of, program_of};
ghost use Rattle.wy_symbols.specs.Least.{noted};
ghost use Rattle.wy_symbols.specs.Declarations.{all_items, repeated, type_names, module_names};
ghost use Rattle.wy_symbols.specs.Atoms.{member_scope, heads_of, primitive_names};
ghost use Rattle.wy_symbols.specs.TypeUses.{declaration, declarations_refusals, declaration_scope};
ghost use Rattle.wy_names.specs.Scopes.{scope_of_module, scope_of_program, modules_refusals, programs_refusals, second_programs};
ghost use Rattle.wy_names.specs.Judged.{NotesScopes, NotesAll, declared_program, IsBound, IsRefusal, refusal_named};
ghost use Rattle.wy_names.specs.Names.{Resolves, Refused};
ghost use Rattle.wy_symbols.specs.Lent.{lent_type, lent_program, module_tree, lent_declared};

use crate::refusal::NameRefusal;
use crate::scopes::{module_scope, program_scope};
use std::alloc::Global;
use wy_heads::{ModuleIndex, first_limit, note_cycles};
use wy_symbols::{
    Cause, Heads, ModuleView, Owners, Refusal, gather, heads_of, note_at, note_repeated,
    primitive_names, read_declarations,
};
use wy_syntax::items::{Program, Tree, TypeDecl};
use wy_text::list::Items;
use wy_text::text::Memory;
use wy_types::primitive::primitives;
use wy_types::resolved;
use wy_types::resolved::{Core, Scope};

/// Notes Twice at each type or module that has the name of another.
#[tactic(auto, using(wy_symbols::proofs::Leasts::noted_append, wy_symbols::proofs::NamesOfThings::types_named, wy_symbols::proofs::NamesOfThings::modules_named))]
fn note_words(
    alloc: Global,
    types: &[&TypeDecl],
    modules: &[ModuleView],
    least: &mut Option<Refusal>,
) -> Result<(), Memory>
    ensures { OnOk result (least.new ≡ noted least.old (repeated primitive_names (type_names (map lent_type types.now)) ++ repeated [] (module_names (map module_tree modules.now)))) }
{
    let primitive = primitive_names(alloc)?;
    note_repeated(alloc, &primitive, types, least)?;
    note_repeated(alloc, &[], modules, least)
}

/// Adds the modules. Their refusals are noted.
fn add_modules(
    alloc: Global,
    scopes: &mut Items<Scope>,
    heads: &Heads,
    modules: &ModuleIndex,
    least: &mut Option<Refusal>,
) -> Result<(), Memory>
    ensures scopes { OnOk result (map scope_of scopes.new ≡ map scope_of scopes.old ++ map (scope_of_module heads.now (map module_tree modules.now)) (map module_tree modules.now)) }
    ensures noted { OnOk result (least.new ≡ noted least.old (modules_refusals heads.now (map module_tree modules.now) (map module_tree modules.now))) }
{
    let views = modules.views();
    for view in views {
        scopes.push(module_scope(alloc, heads, modules, view, least)?)?;
    }
    Ok(())
}

/// Adds the program blocks. Their refusals are noted.
fn add_programs(
    alloc: Global,
    scopes: &mut Items<Scope>,
    heads: &Heads,
    modules: &ModuleIndex,
    programs: &[&Program],
    least: &mut Option<Refusal>,
) -> Result<(), Memory>
    ensures scopes { OnOk result (map scope_of scopes.new ≡ map scope_of scopes.old ++ map (scope_of_program heads.now (map module_tree modules.now)) (map lent_program programs.now)) }
    ensures noted { OnOk result (least.new ≡ noted least.old (programs_refusals heads.now (map module_tree modules.now) (map lent_program programs.now))) }
{
    for program in programs {
        scopes.push(program_scope(alloc, heads, modules, program, least)?)?;
    }
    Ok(())
}

/// Notes TwoPrograms at each program block after the first.
fn note_second(programs: &[&Program], least: &mut Option<Refusal>)
    ensures { least.new ≡ noted least.old (second_programs (map lent_program programs.now)) }
{
    if let Some((_, others)) = programs.split_first() {
        for program in others {
            note_at(least, program.place, Cause::TwoPrograms);
        }
    }
}

/// No owners, which see these types.
fn without_owners<'a>(alloc: Global, heads: &'a Heads) -> Result<Owners<'a>, Memory>
    ensures { IfOk result (λ o. o ≡ declaration_scope heads.now []) }
{
    Owners::new(alloc, heads, &[])
}

/// The modules and the program blocks. Their refusals are noted, and those of cycles.
fn bind_scopes(
    alloc: Global,
    heads: &Heads,
    modules: &[ModuleView],
    programs: &[&Program],
    least: &mut Option<Refusal>,
) -> Result<Items<Scope>, Memory>
    requires { length modules.now ≤ 256 }
    ensures scopes { IfOk result (λ ss. map scope_of ss ≡ map (scope_of_module heads.now (map module_tree modules.now)) (map module_tree modules.now) ++ map (scope_of_program heads.now (map module_tree modules.now)) (map lent_program programs.now)) }
    ensures noted { OnOk result (NotesScopes heads.now (map module_tree modules.now) (map lent_program programs.now) least.old least.new) }
{
    let modules = ModuleIndex::new(alloc, modules)?;
    let mut scopes = Items::new(alloc);
    add_modules(alloc, &mut scopes, heads, &modules, least)?;
    add_programs(alloc, &mut scopes, heads, &modules, programs, least)?;
    note_second(programs, least);
    note_cycles(alloc, &modules, least)?;
    Ok(scopes)
}

/// Adds the declared types to the primitive ones. The refusals of their names, of those of modules and of
/// what is inside them are noted.
fn declare(
    alloc: Global,
    nothing: &Owners,
    heads: &Heads,
    declarations: &mut Items<resolved::TypeDecl>,
    types: &[&TypeDecl],
    modules: &[ModuleView],
    least: &mut Option<Refusal>,
) -> Result<(), Memory>
    requires { nothing.now ≡ member_scope [] }
    ensures list { OnOk result (declarations.new ≡ declarations.old ++ map (declaration heads.now) (map lent_type types.now)) }
    ensures noted { OnOk result (least.new ≡ noted least.old ((repeated primitive_names (type_names (map lent_type types.now)) ++ repeated [] (module_names (map module_tree modules.now))) ++ declarations_refusals heads.now (map lent_type types.now))) }
{
    note_words(alloc, types, modules, least)?;
    declare_types(alloc, nothing, heads, declarations, types, least)?;
    Ok(())
}

/// Adds the declared types to the primitive ones. The refusals of what is inside them are noted.
fn declare_types(
    alloc: Global,
    nothing: &Owners,
    heads: &Heads,
    declarations: &mut Items<resolved::TypeDecl>,
    types: &[&TypeDecl],
    least: &mut Option<Refusal>,
) -> Result<(), Memory>
    requires { nothing.now ≡ member_scope [] }
    ensures list { OnOk result (declarations.new ≡ declarations.old ++ map (declaration heads.now) (map lent_type types.now)) }
    ensures noted { OnOk result (least.new ≡ noted least.old (declarations_refusals heads.now (map lent_type types.now))) }
{
    let seen = without_owners(alloc, heads)?;
    read_declarations(alloc, nothing, &seen, declarations, types, least)
}

/// The declarations, the modules and the program blocks, over the primitive types. All refusals are noted.
fn bind_over(
    alloc: Global,
    nothing: &Owners,
    heads: &Heads,
    primitives: Items<resolved::TypeDecl>,
    types: &[&TypeDecl],
    modules: &[ModuleView],
    programs: &[&Program],
    least: &mut Option<Refusal>,
) -> Result<Core, Memory>
    requires empty { nothing.now ≡ member_scope [] }
    requires headed { heads.now ≡ heads_of (map lent_type types.now) }
    requires primitive { primitives ≡ primitive_types }
    requires modules { length modules.now ≤ 256 }
    ensures core { IfOk result (λ core. program_of core ≡ declared_program (lent_declared types.now modules.now programs.now)) }
    ensures judged { OnOk result (NotesAll (lent_declared types.now modules.now programs.now) least.old least.new) }
{
    let mut declarations = primitives;
    declare(
        alloc,
        nothing,
        heads,
        &mut declarations,
        types,
        modules,
        least,
    )?;
    let scopes = bind_scopes(alloc, heads, modules, programs, least)?;
    Ok(Core {
        declarations,
        scopes,
    })
}

/// The same, by the owners of nothing.
fn bind_types(
    alloc: Global,
    nothing: &Owners,
    types: &[&TypeDecl],
    modules: &[ModuleView],
    programs: &[&Program],
    least: &mut Option<Refusal>,
) -> Result<Core, Memory>
    requires empty { nothing.now ≡ member_scope [] }
    requires types { length types.now ≤ 1024 }
    requires modules { length modules.now ≤ 256 }
    ensures core { IfOk result (λ core. program_of core ≡ declared_program (lent_declared types.now modules.now programs.now)) }
    ensures judged { OnOk result (NotesAll (lent_declared types.now modules.now programs.now) least.old least.new) }
{
    let primitives = primitives(alloc)?;
    let heads = heads_of(alloc, nothing, primitives.as_slice(), types)?;
    bind_over(
        alloc, nothing, &heads, primitives, types, modules, programs, least,
    )
}

/// The declarations, the modules and the program blocks. All refusals are noted.
fn bind(
    alloc: Global,
    types: &[&TypeDecl],
    modules: &[ModuleView],
    programs: &[&Program],
    least: &mut Option<Refusal>,
) -> Result<Core, Memory>
    requires types { length types.now ≤ 1024 }
    requires modules { length modules.now ≤ 256 }
    ensures core { IfOk result (λ core. program_of core ≡ declared_program (lent_declared types.now modules.now programs.now)) }
    ensures judged { OnOk result (NotesAll (lent_declared types.now modules.now programs.now) least.old least.new) }
{
    let none = Heads::none(alloc)?;
    let nothing = without_owners(alloc, &none)?;
    bind_types(alloc, &nothing, types, modules, programs, least)
}

/// What a refusal at a place is called.
fn refused(refusal: Refusal) -> NameRefusal
    ensures { result ≡ refusal_named refusal.place refusal.cause }
{
    match refusal.cause {
        Cause::Unknown => NameRefusal::Unknown(refusal.place),
        Cause::Twice => NameRefusal::Twice(refusal.place),
        Cause::Cycle => NameRefusal::Cycle(refusal.place),
        Cause::TwoPrograms => NameRefusal::TwoPrograms(refusal.place),
        Cause::MemberUndefined => NameRefusal::MemberUndefined(refusal.place),
        Cause::MemberUnknown => NameRefusal::MemberUnknown(refusal.place),
    }
}

/// What declarations within the limits come to.
fn judge(
    alloc: Global,
    types: &[&TypeDecl],
    modules: &[ModuleView],
    programs: &[&Program],
) -> Result<Core, NameRefusal>
    requires types { length types.now ≤ 1024 }
    requires modules { length modules.now ≤ 256 }
    ensures core { IfOk result (λ core. IsBound (lent_declared types.now modules.now programs.now) (program_of core)) }
    ensures refusal { IfErr result (IsRefusal (lent_declared types.now modules.now programs.now)) }
{
    let mut least = None;
    let Ok(core) = bind(alloc, types, modules, programs, &mut least) else {
        return Err(NameRefusal::Memory);
    };
    match least {
        Some(refusal) => Err(refused(refusal)),
        None => {
            if programs.is_empty() {
                Err(NameRefusal::NoProgram)
            } else {
                Ok(core)
            }
        }
    }
}

/// Binds each name and each atom of the files to the declaration that its scope gives. A limit of this stage
/// comes first, then the refusal at the least place; `NoProgram` comes only where there is no other
/// (docs/LANGUAGE.md, "Names").
pub fn resolve(alloc: Global, trees: &[Tree]) -> Result<Core, NameRefusal>
    ensures core { IfOk result (λ core. Resolves (all_items (map file_tree trees.now)) (program_of core)) }
    ensures refusal { IfErr result (λ r. Refused (all_items (map file_tree trees.now)) r) }
{
    let Ok(found) = gather(alloc, trees) else {
        return Err(NameRefusal::Memory);
    };
    match first_limit(alloc, &found.types, &found.modules, &found.programs) {
        Err(_) => Err(NameRefusal::Memory),
        Ok(Some(limit)) => Err(NameRefusal::Limit(limit)),
        Ok(None) => judge(alloc, &found.types, &found.modules, &found.programs),
    }
}
