//! Faults of bodies, by what their blocks come to, and of pure modules.

ghost use Rattle.std.specs.Prelude.{◌≡◌, IfOk, IfSome, IfNone, slice_get};
ghost use Rattle.std.specs.Option.{option_map};
ghost use Rattle.wy_text.specs.Members.{Within};
ghost use Rattle.wy_effects.specs.Bounds.{IsOneOf, IsLeastMissing};
ghost use Rattle.wy_types.specs.Program.{scope_of};
ghost use Rattle.wy_rules.specs.Typing.{fields_of};
ghost use Rattle.wy_judge.specs.Outcomes.{fault_or, lack_fault, var_fault, is_line, line_fault, pure_fault};
ghost use Rattle.wy_judge.specs.Lacks.{LacksIn, IsBodyFault};
ghost use Rattle.wy_judge.specs.Results.{fit_of};

use crate::outcomes::{Fit, fault_at};
use wy_effects::atom::{Atom, AtomTable};
use wy_effects::set::EffSet;
use wy_premises::{fields_of, least_missing};
use wy_subtype::Mode;
use wy_text::fault::{AtomName, Fault, Place, RuleName};
use wy_text::text::Memory;
use wy_types::resolved::{Field, Origin, OwnName, Scope, ScopeKind};

/// The least atom of an effect that the declared one lacks; in a plain module none.
fn lack(mode: Mode, effect: &EffSet, declared: &EffSet) -> Result<Option<Atom>, Memory>
    ensures { IfOk result (λ o. LacksIn mode effect.now declared.now (option_map (λ a. a.0) o)) }
{
    match mode {
        Mode::Plain => Ok(None),
        Mode::Annotated => least_missing(effect, declared),
    }
}

/// The name of an atom; none where the table has no such number.
pub fn atom_name(atoms: &AtomTable, atom: Atom) -> Result<Option<AtomName>, Memory>
    ensures { IfOk result (λ o. o ≡ slice_get atoms.now atom.0) }
{
    match atoms.name(atom) {
        None => Ok(None),
        Some(name) => Ok(Some(AtomName {
            owner: name.owner.copy()?,
            member: name.member.copy()?,
        })),
    }
}

/// The fault of the second premise of a rule, which is about effects, where this atom is missing.
pub fn lack_fault(
    place: Place,
    rule: RuleName,
    atoms: &AtomTable,
    missing: Option<Atom>,
) -> Result<Option<Fault>, Memory>
    ensures { IfOk result (λ o. o ≡ lack_fault place rule atoms.now (option_map (λ a. a.0) missing)) }
{
    match missing {
        None => Ok(None),
        Some(atom) => Ok(Some(Fault {
            place,
            rule,
            premise: 2,
            atom: atom_name(atoms, atom)?,
        })),
    }
}

/// What a body comes to, by what its block comes to at the result's type. The declared effect is widened by the bounds of
/// the scope's atoms.
pub fn body_fault(
    mode: Mode,
    place: Place,
    atoms: &AtomTable,
    declared: &EffSet,
    block: Fit,
) -> Result<Option<Fault>, Memory>
    ensures { IfOk result (λ o. IsBodyFault mode place atoms.now declared.now (fit_of block) o) }
{
    match block {
        Fit::Has(effect) => {
            let missing = lack(mode, &effect, declared)?;
            lack_fault(place, RuleName::TBody, atoms, missing)
        }
        Fit::Misfit => Ok(Some(fault_at(place, RuleName::TBody, 1))),
    }
}

/// M-Pure at the first `var` field.
fn var_fault(fields: &[Field]) -> Option<Fault>
    ensures { result ≡ var_fault fields.now }
{
    for field in fields {
        if field.mutable {
            return Some(fault_at(field.place, RuleName::MPure, 1));
        }
    }
    None
}

/// Whether an own name is that of an instance or import line.
fn is_line(origin: &Origin) -> bool
    ensures { result ≡ is_line origin.now }
{
    match origin {
        Origin::Parameter { .. } | Origin::Grant | Origin::Use { .. } => false,
        Origin::Instance { .. } | Origin::Import { .. } => true,
    }
}

/// M-Pure at the first line.
fn line_fault(names: &[OwnName]) -> Option<Fault>
    ensures { result ≡ line_fault names.now }
{
    for name in names {
        if is_line(&name.origin) {
            return Some(fault_at(name.place, RuleName::MPure, 2));
        }
    }
    None
}

/// The first fault, else the second.
fn fault_or(first: Option<Fault>, second: Option<Fault>) -> Option<Fault>
    ensures { result ≡ fault_or first second }
{
    match first {
        Some(fault) => Some(fault),
        None => second,
    }
}

/// What a pure module may not have: a `var` field, or an instance or import line.
pub fn pure_fault(scope: &Scope) -> Option<Fault>
    ensures { result ≡ pure_fault scope.now.kind (fields_of (scope_of scope.now) 0) scope.now.names }
{
    match scope.kind {
        ScopeKind::Pure => fault_or(
            var_fault(fields_of(scope, 0)),
            line_fault(scope.names.as_slice()),
        ),
        ScopeKind::Resource | ScopeKind::Plain | ScopeKind::Program => None,
    }
}
