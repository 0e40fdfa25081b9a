//! What written types stand for, and their refusals (docs/LANGUAGE.md, "Names").

ghost use Rattle.std.specs.Prelude.{◌≡◌, ◌++◌, ◌∷◌, [], List, map, slice_get, IfOk, OnOk};
ghost use Rattle.std.specs.Option.{option_copied};
ghost use Rattle.wy_symbols.specs.Least.{noted};
ghost use Rattle.wy_symbols.specs.Declarations.{repeated};
ghost use Rattle.wy_symbols.specs.Meanings.{meaning_of, abstract_names};
ghost use Rattle.wy_symbols.specs.Atoms.{head_names, type_number, set_refusals};
ghost use Rattle.wy_symbols.specs.TypeUses.{written_set, written_sets, named_type, bound_type, type_ref, texts_of, set_names, all_among, lacking, not_abstract, sets_refusals, type_name_refusals, bare_refusals, with_refusals, type_refusals, plain_refusals, use_refusals};

use crate::atom_scope::AtomScope;
use crate::meanings::Meanings;
use crate::naming::Named;
use crate::noting::note_at;
use crate::refusal::{Cause, Refusal};
use crate::scoping::Meaning;
use crate::sets::{note_set, set_of};
use crate::tables::{Table, name_table, note_repeated};
use std::alloc::Global;
use wy_effects::set::{EffSet, SetList};
use wy_syntax::types::{AtomUse, MemberSet, Name, TypeUse};
use wy_text::list::Items;
use wy_text::text::{Memory, Text};
use wy_types::types::TypeRef;

/// The names of the members that sets are written for.
fn set_table(alloc: Global, sets: &[MemberSet]) -> Result<Table, Memory>
    ensures { IfOk result (λ t. t ≡ texts_of sets.now) }
{
    name_table(alloc, sets)
}

fn set_at(sets: &[MemberSet], number: usize) -> Option<&MemberSet>
    ensures { option_copied result ≡ slice_get sets.now number }
{
    sets.get(number)
}

/// The set that is written for a member; none where there is no such set.
fn written_set(
    alloc: Global,
    scope: &AtomScope,
    names: &Table,
    sets: &[MemberSet],
    member: &Text,
) -> Result<EffSet, Memory>
    requires { names.now ≡ texts_of sets.now }
    ensures { IfOk result (λ e. e ≡ written_set scope.now sets.now member.now) }
{
    match names.number(member) {
        None => Ok(EffSet::empty(alloc)),
        Some(number) => match set_at(sets, number) {
            None => Ok(EffSet::empty(alloc)),
            Some(set) => set_of(alloc, scope, set.effect.as_slice()),
        },
    }
}

/// A set for each abstract member.
fn written_sets(
    alloc: Global,
    scope: &AtomScope,
    names: &Table,
    sets: &[MemberSet],
    members: &[Meaning],
) -> Result<SetList, Memory>
    requires { names.now ≡ texts_of sets.now }
    ensures { IfOk result (λ l. l ≡ written_sets scope.now sets.now (abstract_names members.now)) }
{
    let mut list = Items::new(alloc);
    for member in members {
        if member.is_abstract {
            list.push(written_set(alloc, scope, names, sets, &member.name)?)?;
        }
    }
    Ok(list)
}

/// The declared type of a name with sets for its members; in a plain module it is bare.
fn named_type(
    alloc: Global,
    scope: &AtomScope,
    plain: bool,
    name: &Text,
    sets: &[MemberSet],
) -> Result<TypeRef, Memory>
    ensures { IfOk result (λ t. t ≡ named_type scope.now plain sets.now (type_number (head_names scope.now.heads) name.now)) }
{
    let Some(decl) = scope.heads().number(name) else {
        return Ok(TypeRef::Unit);
    };
    let members = match scope.heads().head(decl) {
        None => Items::new(alloc),
        Some(head) => {
            if plain {
                Items::new(alloc)
            } else {
                let names = set_table(alloc, sets)?;
                written_sets(alloc, scope, &names, sets, head.members.as_slice())?
            }
        }
    };
    Ok(TypeRef::Named { decl, members })
}

/// The declared type of a name at a bound; in a plain module it is bare.
fn bound_type(
    alloc: Global,
    scope: &AtomScope,
    plain: bool,
    name: &Text,
    set: &[AtomUse],
) -> Result<TypeRef, Memory>
    ensures { IfOk result (λ t. t ≡ bound_type scope.now plain set.now (type_number (head_names scope.now.heads) name.now)) }
{
    let Some(decl) = scope.heads().number(name) else {
        return Ok(TypeRef::Unit);
    };
    if plain {
        return Ok(TypeRef::Named {
            decl,
            members: Items::new(alloc),
        });
    }
    Ok(TypeRef::At {
        decl,
        bound: set_of(alloc, scope, set)?,
    })
}

/// What a written type stands for, in a plain module or another.
pub fn type_ref(
    alloc: Global,
    scope: &AtomScope,
    plain: bool,
    use_of: &TypeUse,
) -> Result<TypeRef, Memory>
    ensures { IfOk result (λ t. t ≡ type_ref scope.now plain use_of.now) }
{
    match use_of {
        TypeUse::Int(_) => Ok(TypeRef::Int),
        TypeUse::Bool(_) => Ok(TypeRef::Bool),
        TypeUse::Text(_) => Ok(TypeRef::Text),
        TypeUse::Unit(_) => Ok(TypeRef::Unit),
        TypeUse::Bare(name) => named_type(alloc, scope, plain, &name.text, &[]),
        TypeUse::With(name, sets) => {
            named_type(alloc, scope, plain, &name.text, sets.as_slice())
        }
        TypeUse::At(name, set) => bound_type(alloc, scope, plain, &name.text, set.as_slice()),
    }
}

/// Whether each abstract member is among the names.
fn all_among(members: &[Meaning], names: &Table) -> bool
    ensures { result ≡ all_among (abstract_names members.now) names.now }
{
    for member in members {
        if member.is_abstract && names.number(&member.name).is_none() {
            return false;
        }
    }
    true
}

/// Notes MemberUndefined at a name where an abstract member is not among those that are written.
pub fn note_lacking(name: &Name, members: &Meanings, written: &Table, least: &mut Option<Refusal>)
    ensures { least.new ≡ noted least.old (lacking name.now members.now written.now) }
{
    if !all_among(members.as_slice(), written) {
        note_at(least, name.place, Cause::MemberUndefined);
    }
}

/// Notes MemberUnknown at each name that is no abstract member.
fn note_not_abstract<T: Named>(members: &Meanings, things: &[T], least: &mut Option<Refusal>)
    ensures { least.new ≡ noted least.old (not_abstract members.now (map T.name_of things.now)) }
{
    for thing in things {
        note_unless_abstract(members, thing.name(), least);
    }
}

fn note_unless_abstract(members: &Meanings, name: &Name, least: &mut Option<Refusal>)
    ensures { least.new ≡ noted least.old (not_abstract members.now (name.now ∷ [])) }
{
    let is_abstract = match members.find(&name.text) {
        None => false,
        Some(meaning) => meaning.is_abstract,
    };
    if !is_abstract {
        note_at(least, name.place, Cause::MemberUnknown);
    }
}

/// Notes the refusals of the sets that are written for members.
#[tactic(auto, using(crate::proofs::Leasts::noted_append))]
fn note_sets(scope: &AtomScope, sets: &[MemberSet], least: &mut Option<Refusal>)
    ensures { least.new ≡ noted least.old (sets_refusals scope.now sets.now) }
{
    for set in sets {
        note_set(scope, set.effect.as_slice(), least);
    }
}

/// Notes Unknown at a type's name that is not declared.
fn note_type_name(scope: &AtomScope, name: &Name, least: &mut Option<Refusal>)
    ensures { least.new ≡ noted least.old (type_name_refusals name.now (type_number (head_names scope.now.heads) name.now.text)) }
{
    if scope.heads().number(&name.text).is_none() {
        note_at(least, name.place, Cause::Unknown);
    }
}

/// Notes MemberUndefined at a name where there is an abstract member.
fn note_all_lacking(
    alloc: Global,
    name: &Name,
    members: &Meanings,
    least: &mut Option<Refusal>,
) -> Result<(), Memory>
    ensures { OnOk result (least.new ≡ noted least.old (lacking name.now members.now [])) }
{
    let written = Table::new(alloc, Vec::new(alloc))?;
    note_lacking(name, members, &written, least);
    Ok(())
}

/// Notes the refusals of a type without sets, which lacks all its members' unless it may be bare.
fn note_bare(
    alloc: Global,
    scope: &AtomScope,
    bare: bool,
    name: &Name,
    least: &mut Option<Refusal>,
) -> Result<(), Memory>
    ensures { OnOk result (least.new ≡ noted least.old (bare_refusals scope.now bare name.now (type_number (head_names scope.now.heads) name.now.text))) }
{
    let Some(decl) = scope.heads().number(&name.text) else {
        note_at(least, name.place, Cause::Unknown);
        return Ok(());
    };
    if bare {
        return Ok(());
    }
    match scope.heads().head(decl) {
        None => Ok(()),
        Some(head) => note_all_lacking(alloc, name, &head.members, least),
    }
}

/// Notes what is refused of the names that are written for members.
#[tactic(auto, using(crate::proofs::Leasts::noted_append))]
pub fn note_written<T: Named>(
    name: &Name,
    members: &Meanings,
    written: &Table,
    things: &[T],
    least: &mut Option<Refusal>,
)
    ensures { least.new ≡ noted least.old (lacking name.now members.now written.now ++ not_abstract members.now (map T.name_of things.now)) }
{
    note_lacking(name, members, written, least);
    note_not_abstract(members, things, least);
}

/// Notes what is refused of the names that sets are written for.
fn note_set_names(
    alloc: Global,
    name: &Name,
    members: &Meanings,
    sets: &[MemberSet],
    least: &mut Option<Refusal>,
) -> Result<(), Memory>
    ensures { OnOk result (least.new ≡ noted least.old (lacking name.now members.now (texts_of sets.now) ++ not_abstract members.now (set_names sets.now))) }
{
    let written = set_table(alloc, sets)?;
    note_written(name, members, &written, sets, least);
    Ok(())
}

/// Notes the refusals of a type with sets for its members, but for those inside the sets.
fn note_with(
    alloc: Global,
    scope: &AtomScope,
    name: &Name,
    sets: &[MemberSet],
    least: &mut Option<Refusal>,
) -> Result<(), Memory>
    ensures { OnOk result (least.new ≡ noted least.old (with_refusals scope.now name.now sets.now (type_number (head_names scope.now.heads) name.now.text))) }
{
    let Some(decl) = scope.heads().number(&name.text) else {
        note_at(least, name.place, Cause::Unknown);
        return Ok(());
    };
    match scope.heads().head(decl) {
        None => note_set_names(alloc, name, &Meanings::new(alloc), sets, least),
        Some(head) => note_set_names(alloc, name, &head.members, sets, least),
    }
}

/// Notes the refusals of a type in an annotated scope.
#[tactic(auto, using(crate::proofs::Leasts::noted_append))]
pub fn note_type(
    alloc: Global,
    scope: &AtomScope,
    bare: bool,
    use_of: &TypeUse,
    least: &mut Option<Refusal>,
) -> Result<(), Memory>
    ensures { OnOk result (least.new ≡ noted least.old (type_refusals scope.now bare use_of.now)) }
{
    match use_of {
        TypeUse::Int(_) | TypeUse::Bool(_) | TypeUse::Text(_) | TypeUse::Unit(_) => Ok(()),
        TypeUse::Bare(name) => note_bare(alloc, scope, bare, name, least),
        TypeUse::With(name, sets) => {
            note_with(alloc, scope, name, sets.as_slice(), least)?;
            note_repeated(alloc, &[], sets.as_slice(), least)?;
            note_sets(scope, sets.as_slice(), least);
            Ok(())
        }
        TypeUse::At(name, set) => {
            note_type_name(scope, name, least);
            note_set(scope, set.as_slice(), least);
            Ok(())
        }
    }
}

/// Notes the refusals of a type in a plain module, where only its name counts.
pub fn note_plain(scope: &AtomScope, use_of: &TypeUse, least: &mut Option<Refusal>)
    ensures { least.new ≡ noted least.old (plain_refusals scope.now use_of.now) }
{
    match use_of {
        TypeUse::Int(_) | TypeUse::Bool(_) | TypeUse::Text(_) | TypeUse::Unit(_) => {}
        TypeUse::Bare(name) | TypeUse::With(name, _) | TypeUse::At(name, _) => {
            note_type_name(scope, name, least)
        }
    }
}

/// Notes the refusals of a type in a body or a signature.
pub fn note_use(
    alloc: Global,
    scope: &AtomScope,
    plain: bool,
    use_of: &TypeUse,
    least: &mut Option<Refusal>,
) -> Result<(), Memory>
    ensures { OnOk result (least.new ≡ noted least.old (use_refusals scope.now plain use_of.now)) }
{
    if plain {
        note_plain(scope, use_of, least);
        Ok(())
    } else {
        note_type(alloc, scope, false, use_of, least)
    }
}

/// What a type in a body or a signature stands for. Its refusals are noted.
pub fn read_type(
    alloc: Global,
    scope: &AtomScope,
    plain: bool,
    use_of: &TypeUse,
    least: &mut Option<Refusal>,
) -> Result<TypeRef, Memory>
    ensures value { IfOk result (λ t. t ≡ type_ref scope.now plain use_of.now) }
    ensures noted { OnOk result (least.new ≡ noted least.old (use_refusals scope.now plain use_of.now)) }
{
    note_use(alloc, scope, plain, use_of, least)?;
    type_ref(alloc, scope, plain, use_of)
}
