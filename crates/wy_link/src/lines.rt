//! Lines: the first fault of the uses, instances and imports of a program.

ghost use Rattle.std.specs.Prelude.{◌≡◌, IfOk};
ghost use Rattle.wy_types.specs.Program.{program_of, scope_of};
ghost use Rattle.wy_rules.specs.Refusals.{plain_modules, scopes_of};
ghost use Rattle.wy_rules.specs.Ends.{AllGoOn};
ghost use Rattle.wy_rules.specs.Resolved.{CoreKeeps};
ghost use Rattle.wy_judge.specs.Tables.{IsScopeOf};
ghost use Rattle.wy_judge.specs.Targets.{about_in};
ghost use Rattle.wy_premises.specs.Tried.{missing_atom};
ghost use Rattle.wy_link.specs.Lines.{missing_name, misfit_fault, UseTo, InstanceTo, ImportTo, NameComesTo, ScopeComesTo, LinesComeTo};

use crate::imports::bound_misfit;
use crate::instances::instance_misfit;
use crate::misfit::Misfit;
use std::alloc::Global;
use wy_effects::atom::{Atom, AtomTable};
use wy_effects::set::EffSet;
use wy_judge::{atom_name, fault_at};
use wy_premises::{disagreement, is_of_kind};
use wy_subtype::{Mode, PairTable};
use wy_text::fault::{AtomName, Fault, Place, RuleName};
use wy_text::text::Memory;
use wy_types::resolved::{Core, Origin, OwnName, Scope, ScopeKind};

// ----------------------------------------------------------------------------
// Faults

/// The name of an atom that is missing.
fn missing_name(atoms: &AtomTable, missing: Option<Atom>) -> Result<Option<AtomName>, Memory>
    ensures { IfOk result (λ o. o ≡ missing_name atoms.now (missing_atom missing)) }
{
    let Some(atom) = missing else {
        return Ok(None);
    };
    atom_name(atoms, atom)
}

/// The fault of a rule of which a premise is false.
fn misfit_fault(
    place: Place,
    rule: RuleName,
    atoms: &AtomTable,
    misfit: Misfit,
) -> Result<Fault, Memory>
    ensures { IfOk result (λ f. f ≡ misfit_fault place rule atoms.now misfit) }
{
    Ok(Fault {
        place,
        rule,
        premise: misfit.premise,
        atom: missing_name(atoms, misfit.missing)?,
    })
}

// ----------------------------------------------------------------------------
// Lines

/// M-Use: whether the module is a pure one.
fn use_fault(core: &Core, name: &OwnName, target: u16) -> Option<Fault>
    ensures { UseTo (program_of core.now) name.now target result }
{
    if is_of_kind(core, ScopeKind::Pure, target) {
        return None;
    }
    Some(fault_at(name.place, RuleName::MUse, 1))
}

/// M-Inst.
fn instance_fault(
    alloc: Global,
    core: &Core,
    number: u16,
    scope: &Scope,
    annotated: &mut PairTable<'_>,
    name: &OwnName,
    target: u16,
    arguments: &[u32],
) -> Result<Option<Fault>, Memory>
    requires context { IsScopeOf (program_of core.now) number (scope_of scope.now) }
    requires pairs { annotated.old.about ≡ about_in (program_of core.now) number Mode.Annotated }
    ensures outcome { IfOk result (λ o. InstanceTo (program_of core.now) number (scope_of scope.now) name.now target arguments.now o) }
    ensures same { annotated.new.about ≡ annotated.old.about }
{
    match instance_misfit(alloc, core, number, scope, annotated, target, arguments)? {
        None => Ok(None),
        Some(misfit) => {
            let fault = misfit_fault(name.place, RuleName::MInst, &scope.atoms, misfit)?;
            Ok(Some(fault))
        }
    }
}

/// M-Import, and then I-Import.
fn import_fault(
    alloc: Global,
    core: &Core,
    number: u16,
    scope: &Scope,
    plain: &mut PairTable<'_>,
    name: &OwnName,
    target: u16,
    arguments: &[u32],
    bound: &EffSet,
) -> Result<Option<Fault>, Memory>
    requires context { IsScopeOf (program_of core.now) number (scope_of scope.now) }
    requires pairs { plain.old.about ≡ about_in (program_of core.now) number Mode.Plain }
    requires plain { AllGoOn (program_of core.now) (scopes_of plain_modules 0 (program_of core.now).scopes) }
    ensures outcome { IfOk result (λ o. ImportTo (program_of core.now) number (scope_of scope.now) name.now target arguments.now bound.now o) }
    ensures same { plain.new.about ≡ plain.old.about }
{
    if let Some(premise) = disagreement(core, ScopeKind::Plain, target, arguments) {
        return Ok(Some(fault_at(name.place, RuleName::MImport, premise)));
    }
    match bound_misfit(alloc, core, number, scope, plain, target, arguments, bound)? {
        None => Ok(None),
        Some(misfit) => {
            let fault = misfit_fault(name.place, RuleName::IImport, &scope.atoms, misfit)?;
            Ok(Some(fault))
        }
    }
}

/// The first fault of one of a scope's own names; a parameter or a grant has none.
fn name_fault(
    alloc: Global,
    core: &Core,
    number: u16,
    scope: &Scope,
    annotated: &mut PairTable<'_>,
    plain: &mut PairTable<'_>,
    name: &OwnName,
) -> Result<Option<Fault>, Memory>
    requires context { IsScopeOf (program_of core.now) number (scope_of scope.now) }
    requires annotated_pairs { annotated.old.about ≡ about_in (program_of core.now) number Mode.Annotated }
    requires plain_pairs { plain.old.about ≡ about_in (program_of core.now) number Mode.Plain }
    requires plain { AllGoOn (program_of core.now) (scopes_of plain_modules 0 (program_of core.now).scopes) }
    ensures outcome { IfOk result (λ o. NameComesTo (program_of core.now) number (scope_of scope.now) name.now o) }
    ensures same_annotated { annotated.new.about ≡ annotated.old.about }
    ensures same_plain { plain.new.about ≡ plain.old.about }
{
    match &name.origin {
        Origin::Parameter { .. } | Origin::Grant => Ok(None),
        Origin::Use { module } => Ok(use_fault(core, name, *module)),
        Origin::Instance { module, arguments } => instance_fault(
            alloc,
            core,
            number,
            scope,
            annotated,
            name,
            *module,
            arguments.as_slice(),
        ),
        Origin::Import {
            module,
            arguments,
            bound,
        } => import_fault(
            alloc,
            core,
            number,
            scope,
            plain,
            name,
            *module,
            arguments.as_slice(),
            bound,
        ),
    }
}

// ----------------------------------------------------------------------------
// Scopes and programs

/// The first fault of a scope's own names in their order.
fn names_fault(
    alloc: Global,
    core: &Core,
    number: u16,
    scope: &Scope,
    annotated: &mut PairTable<'_>,
    plain: &mut PairTable<'_>,
) -> Result<Option<Fault>, Memory>
    requires context { IsScopeOf (program_of core.now) number (scope_of scope.now) }
    requires annotated_pairs { annotated.old.about ≡ about_in (program_of core.now) number Mode.Annotated }
    requires plain_pairs { plain.old.about ≡ about_in (program_of core.now) number Mode.Plain }
    requires plain { AllGoOn (program_of core.now) (scopes_of plain_modules 0 (program_of core.now).scopes) }
    ensures { IfOk result (λ o. ScopeComesTo (program_of core.now) number (scope_of scope.now) o) }
{
    let names = scope.names.as_slice();
    for name in names {
        let next = name_fault(alloc, core, number, scope, annotated, plain, name)?;
        if next.is_some() {
            return Ok(next);
        }
    }
    Ok(None)
}

/// The first fault of a scope's lines. M-Inst asks annotated subtyping, and I-Import plain subtyping: each pair of types
/// is unfolded once in the scope and in each of the two.
fn scope_fault(
    alloc: Global,
    core: &Core,
    number: u16,
    scope: &Scope,
) -> Result<Option<Fault>, Memory>
    requires context { IsScopeOf (program_of core.now) number (scope_of scope.now) }
    requires plain { AllGoOn (program_of core.now) (scopes_of plain_modules 0 (program_of core.now).scopes) }
    ensures { IfOk result (λ o. ScopeComesTo (program_of core.now) number (scope_of scope.now) o) }
{
    let mut annotated = PairTable::new(alloc, core, number, Mode::Annotated);
    let mut plain = PairTable::new(alloc, core, number, Mode::Plain);
    names_fault(alloc, core, number, scope, &mut annotated, &mut plain)
}

/// The first fault of the lines of all modules in file order, and then of the program's, each where it stands: M-Use,
/// M-Inst, and M-Import before I-Import. Each premise is tried for all arguments before the next one. `None` comes
/// exactly where all lines are as the rules ask. The plain modules have derivations, so that the last premise of
/// I-Import holds (docs/LANGUAGE.md, "Modules and lines" and "First failing node").
pub fn judge_lines(alloc: Global, core: &Core) -> Result<Option<Fault>, Memory>
    requires keeps { CoreKeeps (program_of core.now) }
    requires plain { AllGoOn (program_of core.now) (scopes_of plain_modules 0 (program_of core.now).scopes) }
    ensures { IfOk result (λ o. LinesComeTo (program_of core.now) o) }
{
    let scopes = core.scopes.as_slice();
    for number in 0..scopes.len() {
        let next = scope_fault(alloc, core, number as u16, &scopes[number])?;
        if next.is_some() {
            return Ok(next);
        }
    }
    Ok(None)
}
