ghost use Rattle.std.specs.Prelude.{◌≡◌, map, IfOk, slice_index_or};
ghost use Rattle.std.specs.Option.{option_copied, option_map};
ghost use Rattle.wy_policy.specs.Allowed.{Judges, allows, line_of, row_for};
ghost use Rattle.wy_policy.specs.Judging as judging;

use crate::policy::{Judgement, Policy, PolicyRow};
use crate::ruling::Ruling;
use std::alloc::Global;
use wy_authority::{Authority, InstanceRow, whole_set};
use wy_effects::atom::Atom;
use wy_text::fault::AtomName;
use wy_text::list::Items;
use wy_text::text::{Memory, Text, from_vec};

/// An atom that is not among a program's.
fn nameless(alloc: Global) -> AtomName
    ensures { result ≡ judging.nameless }
{
    AtomName {
        owner: from_vec(Vec::new(alloc)),
        member: from_vec(Vec::new(alloc)),
    }
}

/// What each row allows.
fn rulings_of<'a>(alloc: Global, rows: &'a [PolicyRow]) -> Result<Items<Ruling<'a>>, Memory>
    ensures { IfOk result (λ rulings. rulings ≡ rows.now) }
{
    let mut rulings = Items::new(alloc);
    for row in rows {
        rulings.push(Ruling::new(alloc, row)?)?;
    }
    Ok(rulings)
}

/// The ruling that an instance of this name goes by.
fn ruling_for<'a, 'b>(rulings: &'b [Ruling<'a>], name: &Text) -> Option<&'b Ruling<'a>>
    ensures { option_copied result ≡ row_for rulings.now name.now }
{
    for ruling in rulings {
        if ruling.has_name(name) {
            return Some(ruling);
        }
    }
    None
}

/// Whether an atom is allowed; where there is no ruling, none is.
fn is_allowed(ruling: Option<&Ruling<'_>>, atom: &AtomName) -> bool
    ensures { result ≡ allows (option_copied ruling.entry) atom.now }
{
    match ruling {
        Some(ruling) => ruling.allows(atom),
        None => false,
    }
}

/// The first of some atoms that is not allowed.
fn first_denied(
    alloc: Global,
    atoms: &[AtomName],
    ruling: Option<&Ruling<'_>>,
    numbers: &[Atom],
) -> Option<Atom>
    ensures { option_map (λ atom. atom.0) result ≡ judging.first_denied atoms.now (option_copied ruling.entry) (map (λ atom. atom.0) numbers.now) }
{
    let none = nameless(alloc);
    for number in numbers {
        let atom = atoms.get(number.0 as usize).unwrap_or(&none);
        if !is_allowed(ruling, atom) {
            return Some(*number);
        }
    }
    None
}

/// The name of an atom.
fn name_of(alloc: Global, atoms: &[AtomName], atom: Atom) -> Result<AtomName, Memory>
    ensures { IfOk result (λ name. name ≡ slice_index_or atoms.now atom.0 judging.nameless) }
{
    match atoms.get(atom.0 as usize) {
        Some(name) => Ok(AtomName {
            owner: name.owner.copy()?,
            member: name.member.copy()?,
        }),
        None => Ok(nameless(alloc)),
    }
}

/// The line of a ruling's row, 0 where there is none.
fn line_of(ruling: Option<&Ruling<'_>>) -> u32
    ensures { result ≡ line_of (option_copied ruling.entry) }
{
    match ruling {
        Some(ruling) => ruling.line(),
        None => 0,
    }
}

/// Judges one instance.
fn judge_instance(
    alloc: Global,
    atoms: &[AtomName],
    ruling: Option<&Ruling<'_>>,
    instance: &InstanceRow,
) -> Result<Judgement, Memory>
    ensures { IfOk result (λ j. j ≡ judging.instance_judged atoms.now (option_copied ruling.entry) instance.now) }
{
    let whole = whole_set(alloc, instance.bodies.as_slice())?;
    let numbers = whole.atoms()?;
    match first_denied(alloc, atoms, ruling, numbers.as_slice()) {
        None => Ok(Judgement::Allowed),
        Some(atom) => Ok(Judgement::Denied {
            line: line_of(ruling),
            instance: instance.name.copy()?,
            atom: name_of(alloc, atoms, atom)?,
        }),
    }
}

/// Judges instances, up to the first that may do more than its row allows.
fn judge_all(
    alloc: Global,
    rulings: &[Ruling<'_>],
    atoms: &[AtomName],
    instances: &[InstanceRow],
) -> Result<Judgement, Memory>
    ensures { IfOk result (λ j. j ≡ judging.judged rulings.now atoms.now instances.now) }
{
    let Some((instance, rest)) = instances.split_first() else {
        return Ok(Judgement::Allowed);
    };
    let ruling = ruling_for(rulings, &instance.name);
    match judge_instance(alloc, atoms, ruling, instance)? {
        Judgement::Allowed => judge_all(alloc, rulings, atoms, rest),
        denied => Ok(denied),
    }
}

/// What a policy says of an authority (docs/LANGUAGE.md, "Policies"): `Denied` exactly where an instance, or `main`, may do
/// more than the row that it goes by allows, with the first such instance. Each entry of the policy is read once; an atom is looked
/// for by its name. `Err` comes only where memory is wanting.
pub fn judge(alloc: Global, policy: &Policy, authority: &Authority) -> Result<Judgement, Memory>
    ensures { IfOk result (Judges policy.now.rows authority.now) }
{
    let rulings = rulings_of(alloc, policy.rows.as_slice())?;
    judge_all(
        alloc,
        rulings.as_slice(),
        authority.atoms.as_slice(),
        authority.rows.as_slice(),
    )
}
