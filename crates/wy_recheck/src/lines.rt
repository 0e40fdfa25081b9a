//! The rules for a scope but for those of its bodies: of its kind, its seal, its uses and its lines.

ghost use Rattle.std.specs.Prelude.{◌≡◌, ◌<◌, ◌↔◌, ◌++◌, IfOk, IfErr, OnOk, length, map, slice_get, Some, true, false};
ghost use Rattle.wy_text.specs.Members.{In};
ghost use Rattle.wy_types.specs.declared.resolved.Field.{Field as AnyField};
ghost use Rattle.wy_types.specs.declared.resolved.OwnName.{OwnName as AnyName};
ghost use Rattle.wy_types.specs.Program.{Scope as ProgramScope, program_of, scope_of};
ghost use Rattle.wy_types.specs.Types.{is_plain, annotated, erased};
ghost use Rattle.wy_types.specs.Core.{IsCore};
ghost use Rattle.wy_types.specs.InRange.{IsInRange};
ghost use Rattle.wy_rules.specs.Acceptance.{PureHolds, IsLine, MembersHold, handed_to};
ghost use Rattle.wy_premises.specs.Tried.{handed_pair, OfEach};
ghost use Rattle.wy_proving.specs.declared.proof.CertTest.TheVariants.{Lines};
ghost use Rattle.wy_proving.specs.Certified.{annotated_pairs, plain_pairs};
ghost use Rattle.wy_cert.specs.declared.certificate.CertScope.{CertScope as ListedScope};
ghost use Rattle.wy_proving.specs.Proving.{AllStand, scope_rules, kind_rules, ascription_rules, names_rules, line_rules, IsListedPlain, IsListedIn, RuleStands, LinesHold, ascription, instance_of, bound_of};
ghost use Rattle.wy_proving.specs.Unproved.{FailsAt, IsFirstWithout};
ghost use Rattle.wy_recheck.specs.PairSet.{StandsFor};
ghost use Rattle.wy_recheck.specs.Standing.{FailsFirst};
ghost use Rattle.wy_recheck.specs.Rules.{rule_of, IsListedBy, Decides, AskedOf, AskedOfType, ArgumentOf};

use crate::failure::Failure;
use crate::pair_set::PairSet;
use std::alloc::Global;
use wy_cert::CertScope;
use wy_effects::set::{EffSet, copy_sets};
use wy_premises::{
    all_have_opened, argument_type, arguments_sets, disagreement, fields_of, first_outside,
    first_outside_member, is_of_kind, names_of, parameters_of,
};
use wy_text::list::Items;
use wy_text::text::Memory;
use wy_types::bounds::declared_bounds;
use wy_types::reading::{annotate, erase, substitute};
use wy_types::resolved::{Core, Field, Origin, OwnName, Scope, ScopeKind};
use wy_types::types::TypeRef;

/// A rule for a module or for one of its uses and lines (docs/LANGUAGE.md, "Modules and lines").
#[derive(Drop)]
pub enum LineRule<'a> {
    /// M-Pure, of a pure module.
    Purity,
    /// M-Ascribe, of a module that is sealed at the declared type of a number.
    Ascription(u16),
    /// Of the use of the module of a number.
    UseOf(u16),
    /// M-Inst, of an instance of the module of a number for arguments, by the numbers of own names.
    InstanceOf(u16, &'a [u32]),
    /// M-Import, of an import of the module of a number for arguments, by the numbers of own names.
    ImportOf(u16, &'a [u32]),
    /// I-Import, of such an import with the bound that it has.
    BoundOf(u16, &'a [u32], &'a EffSet),
}

/// Which pair is asked of an argument.
#[derive(Drop)]
enum Asked<'a> {
    /// Its type and the parameter's, with these sets put in.
    Substituted(&'a [EffSet]),
    /// Its type and that type's erasure annotated at this bound.
    Annotated(&'a EffSet),
    /// Its type and the parameter's, without effects.
    Erased,
}

// ----------------------------------------------------------------------------
// The rules of a scope

/// Adds the rules of an own name: of a use or a line, or none.
fn add_line_rules<'a>(name: &'a OwnName, rules: &mut Items<LineRule<'a>>) -> Result<(), Memory>
    ensures { OnOk result (map rule_of rules.new ≡ map rule_of rules.old ++ line_rules name.now.origin) }
{
    match &name.origin {
        Origin::Parameter { .. } | Origin::Grant => Ok(()),
        Origin::Use { module } => rules.push(LineRule::UseOf(*module)),
        Origin::Instance { module, arguments } => {
            rules.push(LineRule::InstanceOf(*module, arguments.as_slice()))
        }
        Origin::Import {
            module,
            arguments,
            bound,
        } => {
            rules.push(LineRule::ImportOf(*module, arguments.as_slice()))?;
            rules.push(LineRule::BoundOf(*module, arguments.as_slice(), bound))
        }
    }
}

/// Adds the rules of own names, in their order.
fn add_names_rules<'a>(names: &'a [OwnName], rules: &mut Items<LineRule<'a>>) -> Result<(), Memory>
    ensures { OnOk result (map rule_of rules.new ≡ map rule_of rules.old ++ names_rules names.now) }
{
    for name in names {
        add_line_rules(name, rules)?;
    }
    Ok(())
}

/// Adds the rule of a kind: of a pure module.
fn add_kind_rules(kind: ScopeKind, rules: &mut Items<LineRule<'_>>) -> Result<(), Memory>
    ensures { OnOk result (map rule_of rules.new ≡ map rule_of rules.old ++ kind_rules kind) }
{
    match kind {
        ScopeKind::Pure => rules.push(LineRule::Purity),
        ScopeKind::Resource | ScopeKind::Plain | ScopeKind::Program => Ok(()),
    }
}

/// Adds the rule of a module that is sealed at a type.
fn add_ascription_rules(
    ascribed: Option<u16>,
    rules: &mut Items<LineRule<'_>>,
) -> Result<(), Memory>
    ensures { OnOk result (map rule_of rules.new ≡ map rule_of rules.old ++ ascription_rules ascribed) }
{
    match ascribed {
        Some(decl) => rules.push(LineRule::Ascription(decl)),
        None => Ok(()),
    }
}

/// Adds the rules of a scope, in their order.
fn add_rules<'a>(scope: &'a Scope, rules: &mut Items<LineRule<'a>>) -> Result<(), Memory>
    ensures { OnOk result (map rule_of rules.new ≡ map rule_of rules.old ++ scope_rules (scope_of scope.now)) }
{
    add_kind_rules(scope.kind, rules)?;
    add_ascription_rules(scope.ascribed, rules)?;
    add_names_rules(scope.names.as_slice(), rules)
}

/// The rules of a scope in their order: of its kind, of its seal, and of its own names (docs/LANGUAGE.md, "Certificates").
pub fn rules_of<'a>(alloc: Global, scope: &'a Scope) -> Result<Items<LineRule<'a>>, Memory>
    ensures { IfOk result (λ rules. map rule_of rules ≡ scope_rules (scope_of scope.now)) }
{
    let mut rules = Items::new(alloc);
    add_rules(scope, &mut rules)?;
    Ok(rules)
}

// ----------------------------------------------------------------------------
// Purity

/// Whether no field is a `var`.
fn has_no_var(fields: &[Field]) -> bool
    ensures { (result ≡ true) ↔ ((f : AnyField) → In f fields.now → f.mutable ≡ false) }
{
    for field in fields {
        if field.mutable {
            return false;
        }
    }
    true
}

/// Whether an own name is that of an instance or import line.
fn is_line(origin: &Origin) -> bool
    ensures { (result ≡ true) ↔ IsLine origin.now }
{
    match origin {
        Origin::Parameter { .. } | Origin::Grant | Origin::Use { .. } => false,
        Origin::Instance { .. } | Origin::Import { .. } => true,
    }
}

/// Whether no own name is one.
fn has_no_line(names: &[OwnName]) -> bool
    ensures { (result ≡ true) ↔ ((n : AnyName) → In n names.now → IsLine n.origin → ⊥) }
{
    for name in names {
        if is_line(&name.origin) {
            return false;
        }
    }
    true
}

/// Whether a scope has what a pure module may have alone.
fn is_pure(scope: &Scope) -> bool
    ensures { (result ≡ true) ↔ PureHolds scope.now.kind (scope_of scope.now) }
{
    match scope.kind {
        ScopeKind::Pure => {
            has_no_var(fields_of(scope, 0)) && has_no_line(scope.names.as_slice())
        }
        ScopeKind::Resource | ScopeKind::Plain | ScopeKind::Program => true,
    }
}

// ----------------------------------------------------------------------------
// What each rule asks

/// What rules are tested by: the scope of a number, and the pairs that are listed for it.
#[derive(Drop)]
struct Rules<'a> {
    alloc: Global,
    core: &'a Core,
    number: u16,
    scope: &'a Scope,
    annotated: &'a PairSet,
    plain: &'a PairSet,
}

/// A type's erasure, annotated at a bound.
fn annotated_type(alloc: Global, typ: &TypeRef, bound: &EffSet) -> Result<TypeRef, Memory>
    ensures { IfOk result (λ t. t ≡ annotated bound.now (erased typ.now)) }
{
    let bare = erase(alloc, typ)?;
    annotate(alloc, &bare, bound)
}

impl Rules<'_> {
    /// Whether a pair is listed, by its erasure.
    fn is_listed_plain(&self, left: &TypeRef, right: &TypeRef) -> Result<bool, Memory>
        ensures { IfOk result (Decides self.now (λ c. IsListedPlain (program_of self.now.core.now) self.now.number (scope_of self.now.scope.now) c left.now right.now)) }
    {
        self.plain.contains_erased(self.alloc, left, right)
    }

    /// Whether a pair is listed, as the kind of the scope looks it up.
    fn is_listed_in(&self, left: &TypeRef, right: &TypeRef) -> Result<bool, Memory>
        ensures { IfOk result (Decides self.now (λ c. IsListedIn (program_of self.now.core.now) self.now.number (scope_of self.now.scope.now) c (is_plain self.now.scope.now.kind) left.now right.now)) }
    {
        match self.scope.kind {
            ScopeKind::Plain => self.is_listed_plain(left, right),
            ScopeKind::Pure | ScopeKind::Resource | ScopeKind::Program => {
                self.annotated.contains(self.alloc, left, right)
            }
        }
    }

    /// Whether what is asked of an argument is listed.
    fn is_asked(
        &self,
        asked: &Asked<'_>,
        parameter: &OwnName,
        argument: u32,
    ) -> Result<bool, Memory>
        ensures { IfOk result (Decides self.now (λ c. AskedOf (scope_of self.now.scope.now) c asked.now (handed_pair parameter.now argument))) }
    {
        let typ = argument_type(self.alloc, self.scope.names.as_slice(), argument)?;
        self.type_is_asked(asked, parameter, &typ)
    }

    /// Whether it is of an argument of a type.
    fn type_is_asked(
        &self,
        asked: &Asked<'_>,
        parameter: &OwnName,
        typ: &TypeRef,
    ) -> Result<bool, Memory>
        ensures { IfOk result (Decides self.now (λ c. AskedOfType c asked.now parameter.now.typ typ.now)) }
    {
        match asked {
            Asked::Substituted(sets) => {
                let expected = substitute(self.alloc, &parameter.typ, sets)?;
                self.annotated.contains(self.alloc, typ, &expected)
            }
            Asked::Annotated(bound) => {
                let wide = annotated_type(self.alloc, typ, bound)?;
                self.annotated.contains(self.alloc, typ, &wide)
            }
            Asked::Erased => self.is_listed_plain(typ, &parameter.typ),
        }
    }

    /// Whether it is of each argument that is handed to a parameter.
    fn all_are_asked(
        &self,
        asked: &Asked<'_>,
        parameters: &[OwnName],
        arguments: &[u32],
    ) -> Result<bool, Memory>
        ensures { IfOk result (Decides self.now (λ c. OfEach (AskedOf (scope_of self.now.scope.now) c asked.now) (handed_to parameters.now arguments.now))) }
    {
        for (i, parameter) in parameters.iter().enumerate() {
            let Some(argument) = arguments.get(i) else {
                return Ok(true);
            };
            if !self.is_asked(asked, parameter, *argument)? {
                return Ok(false);
            }
        }
        Ok(true)
    }

    /// Whether what an annotated module defines respects the bounds of the type that it is sealed at.
    fn members_hold(&self) -> Result<bool, Memory>
        requires core { IsInRange (program_of self.now.core.now) }
        ensures { IfOk result (λ b. (b ≡ true) ↔ MembersHold (program_of self.now.core.now) self.now.number (scope_of self.now.scope.now) (is_plain self.now.scope.now.kind)) }
    {
        match self.scope.kind {
            ScopeKind::Plain => Ok(true),
            ScopeKind::Pure | ScopeKind::Resource | ScopeKind::Program => {
                let Some(decl) = self.scope.ascribed else {
                    return Ok(true);
                };
                let bounds = declared_bounds(self.core, decl);
                let definitions = self.scope.definitions.as_slice();
                let outside = first_outside(self.core, self.number, bounds, definitions)?;
                Ok(outside.is_none())
            }
        }
    }

    /// M-Ascribe.
    fn ascription_stands(&self, decl: u16) -> Result<bool, Memory>
        requires core { IsInRange (program_of self.now.core.now) }
        ensures { IfOk result (Decides self.now (λ c. RuleStands (program_of self.now.core.now) self.now.number (scope_of self.now.scope.now) c (ascription decl))) }
    {
        let own = TypeRef::Own { literal: 0 };
        let sealed = TypeRef::Named {
            decl,
            members: copy_sets(self.alloc, self.scope.definitions.as_slice())?,
        };
        if !self.is_listed_in(&own, &sealed)? {
            return Ok(false);
        }
        self.members_hold()
    }

    /// Whether what M-Inst asks of the arguments of a module is listed, their sets put in.
    fn are_arguments(
        &self,
        target: u16,
        parameters: &[OwnName],
        arguments: &[u32],
    ) -> Result<bool, Memory>
        ensures { IfOk result (Decides self.now (λ c. OfEach (ArgumentOf (program_of self.now.core.now) (scope_of self.now.scope.now) c target arguments.now) (handed_to parameters.now arguments.now))) }
    {
        let outer = self.scope.names.as_slice();
        let names = names_of(self.core, target);
        let sets = arguments_sets(self.alloc, self.core, outer, names, arguments)?;
        self.all_are_asked(&Asked::Substituted(sets.as_slice()), parameters, arguments)
    }

    /// M-Inst.
    fn instance_stands(&self, target: u16, arguments: &[u32]) -> Result<bool, Memory>
        requires core { IsInRange (program_of self.now.core.now) }
        ensures { IfOk result (Decides self.now (λ c. RuleStands (program_of self.now.core.now) self.now.number (scope_of self.now.scope.now) c (instance_of target arguments.now))) }
    {
        if disagreement(self.core, ScopeKind::Resource, target, arguments).is_some() {
            return Ok(false);
        }
        let outer = self.scope.names.as_slice();
        let parameters = parameters_of(self.core, target);
        if !all_have_opened(self.alloc, self.core, outer, parameters, arguments)? {
            return Ok(false);
        }
        if !self.are_arguments(target, parameters, arguments)? {
            return Ok(false);
        }
        let outside = first_outside_member(
            self.alloc,
            self.core,
            self.number,
            outer,
            parameters,
            arguments,
        )?;
        Ok(outside.is_none())
    }

    /// I-Import.
    fn bound_stands(&self, target: u16, arguments: &[u32], bound: &EffSet) -> Result<bool, Memory>
        ensures { IfOk result (Decides self.now (λ c. RuleStands (program_of self.now.core.now) self.now.number (scope_of self.now.scope.now) c (bound_of target arguments.now bound.now))) }
    {
        let parameters = parameters_of(self.core, target);
        let annotated = Asked::Annotated(bound);
        if !self.all_are_asked(&annotated, parameters, arguments)? {
            return Ok(false);
        }
        self.all_are_asked(&Asked::Erased, parameters, arguments)
    }

    /// Whether a rule holds, the pairs that it asks being listed.
    fn stands(&self, rule: &LineRule<'_>) -> Result<bool, Memory>
        requires core { IsInRange (program_of self.now.core.now) }
        ensures { IfOk result (Decides self.now (λ c. RuleStands (program_of self.now.core.now) self.now.number (scope_of self.now.scope.now) c (rule_of rule.now))) }
    {
        match rule {
            LineRule::Purity => Ok(is_pure(self.scope)),
            LineRule::Ascription(decl) => self.ascription_stands(*decl),
            LineRule::UseOf(target) => Ok(is_of_kind(self.core, ScopeKind::Pure, *target)),
            LineRule::InstanceOf(target, arguments) => self.instance_stands(*target, arguments),
            LineRule::ImportOf(target, arguments) => {
                let misfit = disagreement(self.core, ScopeKind::Plain, *target, arguments);
                Ok(misfit.is_none())
            }
            LineRule::BoundOf(target, arguments, bound) => {
                self.bound_stands(*target, arguments, bound)
            }
        }
    }

    /// Tests rules one after another, up to the first that does not hold.
    fn test(&self, rules: &[LineRule<'_>]) -> Result<(), Failure>
        requires core { IsInRange (program_of self.now.core.now) }
        ensures hold { OnOk result ((c : ListedScope) → IsListedBy self.now c → AllStand (RuleStands (program_of self.now.core.now) self.now.number (scope_of self.now.scope.now) c) (map rule_of rules.now)) }
        ensures first { IfErr result (λ f. (c : ListedScope) → IsListedBy self.now c → FailsFirst (IsFirstWithout (RuleStands (program_of self.now.core.now) self.now.number (scope_of self.now.scope.now) c) (map rule_of rules.now)) f) }
    {
        for (i, rule) in rules.iter().enumerate() {
            if !self.stands(rule)? {
                return Err(Failure::At(i as u64));
            }
        }
        Ok(())
    }
}

/// Tests the rules for the scope of a number but for those of its bodies, over the pairs that a certificate lists for it: that a
/// pure module has no `var` field and no line, that a module is of the type that it is sealed at, and what its uses and lines ask.
/// Each subtyping that a rule asks is to be a listed pair. `At` comes exactly where a rule does not hold, with the number of the
/// first, from 0 (docs/LANGUAGE.md, "Certificates").
pub fn standing_lines(
    alloc: Global,
    core: &Core,
    number: u16,
    annotated: &PairSet,
    plain: &PairSet,
    part: &CertScope,
) -> Result<(), Failure>
    requires core { IsCore (program_of core.now) }
    requires there { number < length core.now.scopes }
    requires annotated { StandsFor annotated.now (annotated_pairs part.now) }
    requires plain { StandsFor plain.now (plain_pairs part.now) }
    ensures hold { OnOk result ((s : ProgramScope) → slice_get (program_of core.now).scopes number ≡ Some s → LinesHold (program_of core.now) number s part.now) }
    ensures first { IfErr result (λ f. (s : ProgramScope) → slice_get (program_of core.now).scopes number ≡ Some s → FailsFirst (FailsAt (program_of core.now) number s part.now Lines) f) }
{
    let scope = &core.scopes.as_slice()[number as usize];
    let rules = Rules {
        alloc,
        core,
        number,
        scope,
        annotated,
        plain,
    };
    let asked = rules_of(alloc, scope)?;
    rules.test(asked.as_slice())
}
