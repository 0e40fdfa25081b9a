//! What written sets stand for (docs/LANGUAGE.md, "Names").

ghost use Rattle.std.specs.Prelude.{◌≡◌, ◌++◌, IfOk, List};
ghost use Rattle.wy_symbols.specs.Least.{noted};
ghost use Rattle.wy_symbols.specs.Atoms.{owner_of, owner_set, atom_set, set_of, owner_refusals, atom_refusals, set_refusals};

use crate::atom_scope::AtomScope;
use crate::noting::{note, note_at};
use crate::refusal::{Cause, Refusal};
use crate::scoping::Opening;
use std::alloc::Global;
use wy_effects::set::EffSet;
use wy_syntax::types::{AtomUse, Name};
use wy_text::text::{Memory, Text};

/// The set of an owner's member; none where there is no such owner or member.
fn owner_set(
    alloc: Global,
    scope: &AtomScope,
    owner: &Text,
    member: &Text,
) -> Result<EffSet, Memory>
    ensures { IfOk result (λ e. e ≡ owner_set scope.now owner.now member.now (owner_of scope.now.owners owner.now)) }
{
    let Some(found) = scope.owner(owner) else {
        return Ok(EffSet::empty(alloc));
    };
    let Opening::Members { decl } = found.owner.opening else {
        return Ok(EffSet::empty(alloc));
    };
    let Some(head) = scope.heads().head(decl) else {
        return Ok(EffSet::empty(alloc));
    };
    match head.members.find(member) {
        None => Ok(EffSet::empty(alloc)),
        Some(meaning) => meaning.atoms.substitute(found.sets.as_slice()),
    }
}

/// The set that one atom of a written set stands for.
fn atom_set(alloc: Global, scope: &AtomScope, used: &AtomUse) -> Result<EffSet, Memory>
    ensures { IfOk result (λ e. e ≡ atom_set scope.now used.now.owner used.now.member.text) }
{
    match &used.owner {
        Some(owner) => owner_set(alloc, scope, &owner.text, &used.member.text),
        None => match scope.meaning(&used.member.text) {
            None => Ok(EffSet::empty(alloc)),
            Some(meaning) => meaning.atoms.copy(),
        },
    }
}

/// What a written set stands for.
pub fn set_of(alloc: Global, scope: &AtomScope, uses: &[AtomUse]) -> Result<EffSet, Memory>
    ensures { IfOk result (λ e. e ≡ set_of scope.now uses.now) }
{
    let mut set = EffSet::empty(alloc);
    for i in 0..uses.len() {
        let used = &uses[uses.len() - 1 - i];
        atom_set(alloc, scope, used)?.union_into(&mut set)?;
    }
    Ok(set)
}

/// Notes what is refused of an owner's member: Unknown at an owner that opens none, MemberUnknown at a
/// member that the owner's type lacks.
fn note_owner(scope: &AtomScope, owner: &Name, member: &Name, least: &mut Option<Refusal>)
    ensures { least.new ≡ noted least.old (owner_refusals scope.now owner.now member.now (owner_of scope.now.owners owner.now.text)) }
{
    let Some(found) = scope.owner(&owner.text) else {
        note_at(least, owner.place, Cause::Unknown);
        return;
    };
    match found.owner.opening {
        Opening::Missing => {}
        Opening::Nothing => note_at(least, owner.place, Cause::Unknown),
        Opening::Members { decl } => {
            let known = match scope.heads().head(decl) {
                None => false,
                Some(head) => head.members.find(&member.text).is_some(),
            };
            if !known {
                note_at(least, member.place, Cause::MemberUnknown);
            }
        }
    }
}

/// Notes what is refused of one atom of a written set.
fn note_atom(scope: &AtomScope, used: &AtomUse, least: &mut Option<Refusal>)
    ensures { least.new ≡ noted least.old (atom_refusals scope.now used.now.owner used.now.member) }
{
    match &used.owner {
        Some(owner) => note_owner(scope, owner, &used.member, least),
        None => {
            if scope.meaning(&used.member.text).is_none() {
                note_at(least, used.member.place, Cause::Unknown);
            }
        }
    }
}

/// Notes the refusals of a written set. It takes no memory.
pub fn note_set(scope: &AtomScope, uses: &[AtomUse], least: &mut Option<Refusal>)
    ensures { least.new ≡ noted least.old (set_refusals scope.now uses.now) }
{
    for used in uses {
        note_atom(scope, used, least);
    }
}

/// What a written set stands for. Its refusals are noted.
pub fn read_set(
    alloc: Global,
    scope: &AtomScope,
    uses: &[AtomUse],
    least: &mut Option<Refusal>,
) -> Result<EffSet, Memory>
    ensures value { IfOk result (λ e. e ≡ set_of scope.now uses.now) }
    ensures noted { least.new ≡ noted least.old (set_refusals scope.now uses.now) }
{
    note_set(scope, uses, least);
    set_of(alloc, scope, uses)
}
