//! What modules define, and the refusals of their parameters, grants and definitions
//! (docs/LANGUAGE.md, "Names").

ghost use Rattle.std.specs.Prelude.{◌≡◌, ◌≤◌, ◌++◌, ◌∷◌, [], map, take, length, IfOk, OnOk};
ghost use Rattle.std.specs.Option.{option_copied};
ghost use Rattle.wy_symbols.specs.Least.{noted};
ghost use Rattle.wy_symbols.specs.Meanings.{abstract_names, meaning_of};
ghost use Rattle.wy_symbols.specs.Atoms.{defined_member, meaning_set, set_of, set_refusals, atom_scope};
ghost use Rattle.wy_heads.specs.Lines.{param_refusals, grant_refusals};
ghost use Rattle.wy_heads.specs.ScopeHeads.{definitions_after, definitions_refusals, definitions_for, start_effect, init_refusals};
ghost use Rattle.wy_types.specs.Primitive.{most_types};

use crate::owners::grant_opening;
use std::alloc::Global;
use wy_effects::set::{EffSet, SetList};
use wy_symbols::{
    AtomScope, Cause, Heads, Meaning, Meanings, Opening, Owners, Refusal, Table, note_at,
    note_plain, note_set, note_type, read_set, set_of,
};
use wy_syntax::items::{Define, Grant, Init};
use wy_syntax::types::{AtomUse, Param};
use wy_text::list::Items;
use wy_text::text::{Memory, Text};

/// Adds what a module defines, whose set sees the owners of the scope and the definitions before it. The
/// refusals of the set are noted.
fn read_definition(
    alloc: Global,
    owners: &Owners,
    visible: usize,
    before: &mut Meanings,
    name: &Text,
    set: &[AtomUse],
    least: &mut Option<Refusal>,
) -> Result<(), Memory>
    ensures before { OnOk result (before.new ≡ before.old ++ defined_member name.now (set_of (atom_scope owners.now.heads owners.now.atoms (take visible owners.now.owners) before.old) set.now) ∷ []) }
    ensures noted { OnOk result (least.new ≡ noted least.old (set_refusals (atom_scope owners.now.heads owners.now.atoms (take visible owners.now.owners) before.old) set.now)) }
{
    let atoms = read_set(alloc, &AtomScope::new(owners, visible, before), set, least)?;
    before.push(Meaning {
        name: name.copy()?,
        is_abstract: false,
        atoms,
        bound: None,
    })
}

/// What a module defines, in its order. The refusals of the sets are noted.
pub fn read_definitions(
    alloc: Global,
    owners: &Owners,
    visible: usize,
    defines: &[Define],
    least: &mut Option<Refusal>,
) -> Result<Meanings, Memory>
    ensures value { IfOk result (λ ms. ms ≡ definitions_after owners.now.heads owners.now.atoms (take visible owners.now.owners) [] defines.now) }
    ensures noted { OnOk result (least.new ≡ noted least.old (definitions_refusals owners.now.heads owners.now.atoms (take visible owners.now.owners) [] defines.now)) }
{
    let mut before = Meanings::new(alloc);
    for define in defines {
        read_definition(
            alloc,
            owners,
            visible,
            &mut before,
            &define.name.text,
            define.effect.as_slice(),
            least,
        )?;
    }
    Ok(before)
}

/// What a name stands for; nothing where it stands for none.
fn meaning_set(alloc: Global, meanings: &Meanings, name: &Text) -> Result<EffSet, Memory>
    ensures { IfOk result (λ e. e ≡ meaning_set (meaning_of meanings.now name.now)) }
{
    match meanings.find(name) {
        None => Ok(EffSet::empty(alloc)),
        Some(meaning) => meaning.atoms.copy(),
    }
}

/// Adds what a module defines for each abstract member.
fn add_definitions(
    alloc: Global,
    list: &mut SetList,
    heads: &Heads,
    meanings: &Meanings,
    members: &[Meaning],
) -> Result<(), Memory>
    ensures { OnOk result (list.new ≡ list.old ++ definitions_for heads.now [] meanings.now (abstract_names members.now)) }
{
    for member in members {
        if member.is_abstract {
            list.push(meaning_set(alloc, meanings, &member.name)?)?;
        }
    }
    Ok(())
}

/// What a module defines for each abstract member.
pub fn definitions_for(
    alloc: Global,
    heads: &Heads,
    meanings: &Meanings,
    members: &[Meaning],
) -> Result<SetList, Memory>
    ensures { IfOk result (λ l. l ≡ definitions_for heads.now [] meanings.now (abstract_names members.now)) }
{
    let mut list = Items::new(alloc);
    add_definitions(alloc, &mut list, heads, meanings, members)?;
    Ok(list)
}

/// Notes the refusals of the types of a module's parameters.
pub fn note_params(
    alloc: Global,
    scope: &AtomScope,
    plain: bool,
    params: &[Param],
    least: &mut Option<Refusal>,
) -> Result<(), Memory>
    ensures { OnOk result (least.new ≡ noted least.old (param_refusals scope.now plain params.now)) }
{
    for param in params {
        note_param(alloc, scope, plain, param, least)?;
    }
    Ok(())
}

/// Notes the refusals of a parameter's type, which may be bare.
fn note_param(
    alloc: Global,
    scope: &AtomScope,
    plain: bool,
    param: &Param,
    least: &mut Option<Refusal>,
) -> Result<(), Memory>
    ensures { OnOk result (least.new ≡ noted least.old (param_refusals scope.now plain (param.now ∷ []))) }
{
    if plain {
        note_plain(scope, &param.type_use, least);
        Ok(())
    } else {
        note_type(alloc, scope, true, &param.type_use, least)
    }
}

/// Notes Unknown at each grant whose type is none of the primitive ones.
pub fn note_grants(types: &Table, grants: &[Grant], least: &mut Option<Refusal>)
    requires { length types.now ≤ most_types }
    ensures { least.new ≡ noted least.old (grant_refusals types.now grants.now) }
{
    for grant in grants {
        match grant_opening(types, &grant.kind.text) {
            Opening::Members { decl: _ } => {}
            Opening::Nothing | Opening::Missing => {
                note_at(least, grant.kind.place, Cause::Unknown)
            }
        }
    }
}

/// The declared effect of a module's start; empty where none is written.
pub fn start_effect(alloc: Global, scope: &AtomScope, init: Option<&Init>) -> Result<EffSet, Memory>
    ensures { IfOk result (λ e. e ≡ start_effect [] [] scope.now (option_copied init.entry)) }
{
    match init {
        None => Ok(EffSet::empty(alloc)),
        Some(init) => set_of(alloc, scope, init.effect.as_slice()),
    }
}

/// Notes the refusals of the declared effect of a module's start.
pub fn note_init(scope: &AtomScope, init: Option<&Init>, least: &mut Option<Refusal>)
    ensures { least.new ≡ noted least.old (init_refusals [] [] scope.now (option_copied init.entry)) }
{
    if let Some(init) = init {
        note_set(scope, init.effect.as_slice(), least);
    }
}
