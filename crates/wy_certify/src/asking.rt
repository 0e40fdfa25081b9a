//! The pairs of types that the T-Subs and the rules for a scope ask, each of which is to be a subtyping.

ghost use Rattle.std.specs.Prelude.{◌≡◌, ◌++◌, ℕ, IfOk, OnOk, map};
ghost use Rattle.wy_types.specs.Program.{program_of, scope_of};
ghost use Rattle.wy_rules.specs.Acceptance.{handed_to};
ghost use Rattle.wy_premises.specs.Tried.{handed_pair};
ghost use Rattle.wy_proving.specs.Proving.{scope_rules, ascription, instance_of, bound_of};
ghost use Rattle.wy_proving.specs.Certified.{pair_of as pair_of_sub};
ghost use Rattle.wy_proving.specs.Written.{asked_by_all, seal, sub_pairs};
ghost use Rattle.wy_recheck.specs.Rules.{rule_of};
ghost use Rattle.wy_certify.specs.Asking.{expected_by, argument_asks, asked_in, subs_in, asks_in};
ghost use Rattle.wy_certify.specs.Pair.{pair_of};
ghost use Rattle.wy_certify.specs.Step.{steps_of};

use crate::pair::{TypePair, copied_pair};
use crate::step::Step;
use std::alloc::Global;
use wy_effects::set::{EffSet, copy_sets};
use wy_premises::{argument_type, arguments_sets, names_of, parameters_of};
use wy_recheck::{LineRule, rules_of};
use wy_subtype::Mode;
use wy_text::list::Items;
use wy_text::text::Memory;
use wy_types::reading::{annotate, erase, substitute};
use wy_types::resolved::{Core, OwnName, Scope, ScopeKind};
use wy_types::types::TypeRef;

/// Which pair is asked of an argument.
#[derive(Drop)]
enum Asked<'a> {
    /// Its type and the parameter's, with these sets put in.
    Substituted(&'a [EffSet]),
    /// Its type and that type's erasure annotated at this bound.
    Annotated(&'a EffSet),
    /// Its type and the parameter's.
    Declared,
}

/// What pairs are asked for: the scope, and the subtyping that is meant.
#[derive(Drop)]
struct Asking<'a> {
    alloc: Global,
    core: &'a Core,
    scope: &'a Scope,
    mode: Mode,
}

impl Asking<'_> {
    /// The type that an argument of a type is to be below.
    fn expected(
        &self,
        asked: &Asked<'_>,
        parameter: &OwnName,
        typ: &TypeRef,
    ) -> Result<TypeRef, Memory>
        ensures { IfOk result (λ t. t ≡ expected_by asked.now parameter.now.typ typ.now) }
    {
        match asked {
            Asked::Substituted(sets) => substitute(self.alloc, &parameter.typ, sets),
            Asked::Annotated(bound) => {
                let bare = erase(self.alloc, typ)?;
                annotate(self.alloc, &bare, bound)
            }
            Asked::Declared => parameter.typ.copy(self.alloc),
        }
    }

    /// The pair that is asked of an argument.
    fn pair(
        &self,
        asked: &Asked<'_>,
        parameter: &OwnName,
        argument: u32,
    ) -> Result<TypePair, Memory>
        ensures { IfOk result (λ q. pair_of q ≡ argument_asks (scope_of self.now.scope.now) asked.now (handed_pair parameter.now argument)) }
    {
        let left = argument_type(self.alloc, self.scope.names.as_slice(), argument)?;
        let right = self.expected(asked, parameter, &left)?;
        Ok(TypePair { left, right })
    }

    /// Adds the pairs that are asked of the arguments that are handed to parameters.
    fn add_all(
        &self,
        asked: &Asked<'_>,
        parameters: &[OwnName],
        arguments: &[u32],
        out: &mut Items<TypePair>,
    ) -> Result<(), Memory>
        ensures { OnOk result (map pair_of out.new ≡ map pair_of out.old ++ map (argument_asks (scope_of self.now.scope.now) asked.now) (handed_to parameters.now arguments.now)) }
    {
        for (i, parameter) in parameters.iter().enumerate() {
            let Some(argument) = arguments.get(i) else {
                return Ok(());
            };
            out.push(self.pair(asked, parameter, *argument)?)?;
        }
        Ok(())
    }

    /// Adds the pair of a module and the type that it is sealed at.
    fn add_sealed(&self, decl: u16, out: &mut Items<TypePair>) -> Result<(), Memory>
        ensures { OnOk result ((k : ℕ) → map pair_of out.new ≡ map pair_of out.old ++ seal (program_of self.now.core.now) k (scope_of self.now.scope.now) decl) }
    {
        let members = copy_sets(self.alloc, self.scope.definitions.as_slice())?;
        out.push(TypePair {
            left: TypeRef::Own { literal: 0 },
            right: TypeRef::Named { decl, members },
        })
    }

    /// Adds what M-Ascribe asks: a plain module is compared without effects, and any other with them.
    fn add_ascription(&self, decl: u16, out: &mut Items<TypePair>) -> Result<(), Memory>
        ensures { OnOk result ((k : ℕ) → map pair_of out.new ≡ map pair_of out.old ++ asked_in self.now.mode (program_of self.now.core.now) k (scope_of self.now.scope.now) (ascription decl)) }
    {
        match self.scope.kind {
            ScopeKind::Plain => match self.mode {
                Mode::Annotated => Ok(()),
                Mode::Plain => self.add_sealed(decl, out),
            },
            ScopeKind::Pure | ScopeKind::Resource | ScopeKind::Program => match self.mode {
                Mode::Annotated => self.add_sealed(decl, out),
                Mode::Plain => Ok(()),
            },
        }
    }

    /// Adds what M-Inst asks: nothing without effects.
    fn add_instance(
        &self,
        target: u16,
        arguments: &[u32],
        out: &mut Items<TypePair>,
    ) -> Result<(), Memory>
        ensures { OnOk result ((k : ℕ) → map pair_of out.new ≡ map pair_of out.old ++ asked_in self.now.mode (program_of self.now.core.now) k (scope_of self.now.scope.now) (instance_of target arguments.now)) }
    {
        match self.mode {
            Mode::Plain => Ok(()),
            Mode::Annotated => {
                let outer = self.scope.names.as_slice();
                let names = names_of(self.core, target);
                let sets = arguments_sets(self.alloc, self.core, outer, names, arguments)?;
                let asked = Asked::Substituted(sets.as_slice());
                self.add_all(&asked, parameters_of(self.core, target), arguments, out)
            }
        }
    }

    /// Adds what I-Import asks.
    fn add_bound(
        &self,
        target: u16,
        arguments: &[u32],
        bound: &EffSet,
        out: &mut Items<TypePair>,
    ) -> Result<(), Memory>
        ensures { OnOk result ((k : ℕ) → map pair_of out.new ≡ map pair_of out.old ++ asked_in self.now.mode (program_of self.now.core.now) k (scope_of self.now.scope.now) (bound_of target arguments.now bound.now)) }
    {
        let parameters = parameters_of(self.core, target);
        match self.mode {
            Mode::Annotated => self.add_all(&Asked::Annotated(bound), parameters, arguments, out),
            Mode::Plain => self.add_all(&Asked::Declared, parameters, arguments, out),
        }
    }

    /// Adds what a rule asks.
    fn add(&self, rule: &LineRule<'_>, out: &mut Items<TypePair>) -> Result<(), Memory>
        ensures { OnOk result ((k : ℕ) → map pair_of out.new ≡ map pair_of out.old ++ asked_in self.now.mode (program_of self.now.core.now) k (scope_of self.now.scope.now) (rule_of rule.now)) }
    {
        match rule {
            LineRule::Purity | LineRule::UseOf(_) | LineRule::ImportOf(_, _) => Ok(()),
            LineRule::Ascription(decl) => self.add_ascription(*decl, out),
            LineRule::InstanceOf(target, arguments) => {
                self.add_instance(*target, arguments, out)
            }
            LineRule::BoundOf(target, arguments, bound) => {
                self.add_bound(*target, arguments, bound, out)
            }
        }
    }

    /// Adds what each of these rules asks.
    fn add_each(&self, rules: &[LineRule<'_>], out: &mut Items<TypePair>) -> Result<(), Memory>
        ensures { OnOk result ((k : ℕ) → map pair_of out.new ≡ map pair_of out.old ++ asked_by_all (asked_in self.now.mode (program_of self.now.core.now) k (scope_of self.now.scope.now)) (map rule_of rules.now)) }
    {
        for rule in rules {
            self.add(rule, out)?;
        }
        Ok(())
    }

    /// Adds the pairs that all rules of the scope ask, in their order.
    fn add_rules(&self, out: &mut Items<TypePair>) -> Result<(), Memory>
        ensures { OnOk result ((k : ℕ) → map pair_of out.new ≡ map pair_of out.old ++ asked_by_all (asked_in self.now.mode (program_of self.now.core.now) k (scope_of self.now.scope.now)) (scope_rules (scope_of self.now.scope.now))) }
    {
        let rules = rules_of(self.alloc, self.scope)?;
        self.add_each(rules.as_slice(), out)
    }

    /// Adds the pair of a step, where it is a T-Sub.
    fn add_sub(&self, step: &Step, out: &mut Items<TypePair>) -> Result<(), Memory>
        ensures { OnOk result (map pair_of out.new ≡ map pair_of out.old ++ pair_of_sub step.now.below step.now.typ) }
    {
        match (&step.below, &step.typ) {
            (Some(left), Some(right)) => out.push(copied_pair(self.alloc, left, right)?),
            (Some(_), None) | (None, _) => Ok(()),
        }
    }

    /// Adds the pairs of the T-Subs among steps, in their order.
    fn add_subs(&self, steps: &[Step], out: &mut Items<TypePair>) -> Result<(), Memory>
        ensures { OnOk result (map pair_of out.new ≡ map pair_of out.old ++ sub_pairs (steps_of steps.now)) }
    {
        for step in steps {
            self.add_sub(step, out)?;
        }
        Ok(())
    }

    /// Adds them where the scope is judged by this subtyping: a plain module without effects, and any other with them.
    fn add_judged(&self, steps: &[Step], out: &mut Items<TypePair>) -> Result<(), Memory>
        ensures { OnOk result (map pair_of out.new ≡ map pair_of out.old ++ subs_in self.now.mode (scope_of self.now.scope.now) (steps_of steps.now)) }
    {
        match self.scope.kind {
            ScopeKind::Plain => match self.mode {
                Mode::Annotated => Ok(()),
                Mode::Plain => self.add_subs(steps, out),
            },
            ScopeKind::Pure | ScopeKind::Resource | ScopeKind::Program => match self.mode {
                Mode::Annotated => self.add_subs(steps, out),
                Mode::Plain => Ok(()),
            },
        }
    }
}

/// The pairs that are asked in a scope by one kind of subtyping: those of the T-Subs among its steps, where it is judged by that kind,
/// and then those of its rules in their order (docs/LANGUAGE.md, "Typing of bodies" and "Modules and lines"). The one error is
/// want of memory.
pub fn asked_pairs(
    alloc: Global,
    core: &Core,
    scope: &Scope,
    mode: Mode,
    steps: &[Step],
) -> Result<Items<TypePair>, Memory>
    ensures { IfOk result (λ l. (k : ℕ) → map pair_of l ≡ asks_in mode (program_of core.now) k (scope_of scope.now) (steps_of steps.now)) }
{
    let asking = Asking {
        alloc,
        core,
        scope,
        mode,
    };
    let mut out = Items::new(alloc);
    asking.add_judged(steps, &mut out)?;
    asking.add_rules(&mut out)?;
    Ok(out)
}
