//! Start order: the instances of a program in the order in which they start, each with its ground sets
//! (docs/LANGUAGE.md, "Start order and ground sets").

ghost use Rattle.std.specs.Prelude.{◌≡◌, ◌+◌, ◌<◌, ◌≤◌, ◌++◌, ◌∷◌, [], length, map, codes, slice_get, slice_index_or, Some, None, OnOk, IfOk, IfErr};
ghost use Rattle.wy_effects.specs.EffSet.{replace};
ghost use Rattle.wy_types.specs.declared.linked.Actual.TheVariants as actual;
ghost use Rattle.wy_types.specs.Program.{program_of};
ghost use Rattle.wy_types.specs.Core.{IsCore};
ghost use Rattle.wy_types.specs.Ground.{arguments_sets, members_of, names_of, visit, visit_name, used, lined, number_from, single_sets, defined_sets, definitions_of, instance_of, program_number, program_visited, uses_among, ground_sets};
ghost use Rattle.wy_rules.specs.Resolved.{CoreKeeps};
ghost use Rattle.wy_link.specs.Linking.{IsLinked, IsLinkRefusal, ComesTo, CanSettle, CanSettleAll, visited, with_instance, module_visit};

use crate::started::Started;
use std::alloc::Global;
use wy_effects::atom::Atom;
use wy_effects::set::{EffSet, SetList, substitute_sets};
use wy_premises::{arguments_sets, members_of, names_of};
use wy_text::limit::{LimitName, MOST_INSTANCES};
use wy_text::list::Items;
use wy_text::text::{Memory, Text, from_bytes};
use wy_types::linked::{Actual, ActualList, Instance, Linked};
use wy_types::resolved::{Core, Origin, OwnName};

/// What linking a program gives.
#[derive(Drop)]
pub struct Links {
    /// The instances in start order.
    pub instances: Linked,
    /// For each atom of the program's own scope its set of grant atoms.
    pub sets: SetList,
}

/// Why a program is not linked.
#[derive(Drop)]
pub enum LinkRefusal {
    /// There are more than 1,024 instances.
    Limit(LimitName),
    /// Memory was wanting.
    Memory,
}

impl From<Memory> for LinkRefusal {
    ghost use Rattle.std.specs.Prelude.{◌≡◌};
    ghost use Rattle.wy_link.specs.declared.linking.LinkRefusal.TheVariants as refusal;

    ghost from_gives = { λ _ e. e ≡ refusal.Memory };

    fn from(_memory: Memory) -> LinkRefusal {
        LinkRefusal::Memory
    }
}

/// What is settled of a scope that is visited: what its own names stand for, and the ground sets of its atoms, so far.
#[derive(Drop)]
struct Settled {
    actuals: ActualList,
    sets: SetList,
}

// ----------------------------------------------------------------------------
// What an own name settles

/// Adds a set for each member, of one atom each. The atoms are counted on from the number of sets.
fn add_single_sets(alloc: Global, sets: &mut SetList, members: &[Text]) -> Result<(), Memory>
    requires { length sets.old + length members.now ≤ 512 }
    ensures { OnOk result (sets.new ≡ sets.old ++ single_sets (length sets.old) members.now) }
{
    for _member in members {
        let number = sets.len();
        let mut set = EffSet::empty(alloc);
        set.insert(Atom(number as u16))?;
        sets.push(set)?;
    }
    Ok(())
}

/// Settles a grant: it stands for itself, and each of its atoms too.
fn settle_grant(alloc: Global, core: &Core, name: &OwnName, own: &mut Settled) -> Result<(), Memory>
    requires number { length own.old.actuals < 65536 }
    requires atoms { length own.old.sets + length (members_of (program_of core.now) name.now.typ) ≤ 512 }
    ensures actuals { OnOk result (own.new.actuals ≡ own.old.actuals ++ actual.Grant (length own.old.actuals) ∷ []) }
    ensures sets { OnOk result (own.new.sets ≡ own.old.sets ++ single_sets (length own.old.sets) (members_of (program_of core.now) name.now.typ)) }
{
    let number = own.actuals.len();
    own.actuals.push(Actual::Grant(number as u16))?;
    add_single_sets(alloc, &mut own.sets, members_of(core, &name.typ))
}

/// What a module defines for the members of its type.
fn definitions_of(core: &Core, scope: u16) -> &[EffSet]
    ensures { result.now ≡ definitions_of (slice_get (program_of core.now).scopes scope) }
{
    match core.scopes.get(scope as usize) {
        Some(scope) => scope.definitions.as_slice(),
        None => &[],
    }
}

/// Adds what a module defines for the members of its type, with the sets put in for its atoms.
fn add_defined(core: &Core, scope: u16, by: &[EffSet], sets: &mut SetList) -> Result<(), Memory>
    ensures { OnOk result (sets.new ≡ sets.old ++ defined_sets (program_of core.now) scope by.now) }
{
    add_replaced(definitions_of(core, scope), by, sets)
}

/// Adds the sets with each atom replaced.
fn add_replaced(definitions: &[EffSet], by: &[EffSet], sets: &mut SetList) -> Result<(), Memory>
    ensures { OnOk result (sets.new ≡ sets.old ++ map (replace by.now) definitions.now) }
{
    for set in definitions {
        sets.push(set.substitute(by)?)?;
    }
    Ok(())
}

/// What the own names of these numbers stand for.
fn handed_on(alloc: Global, actuals: &[Actual], arguments: &[u32]) -> Result<ActualList, Memory>
    ensures { IfOk result (λ l. l ≡ map (λ a. slice_index_or actuals.now a (actual.Grant 0)) arguments.now) }
{
    let mut out = Items::new(alloc);
    for argument in arguments {
        out.push(match actuals.get(*argument as usize) {
            Some(actual) => *actual,
            None => Actual::Grant(0),
        })?;
    }
    Ok(out)
}

/// What is settled of a module before its lines are visited: its parameters are handed a line's arguments, which are own
/// names of the scope where the line stands.
fn handed(
    alloc: Global,
    core: &Core,
    outer: &[OwnName],
    own: &Settled,
    scope: u16,
    arguments: &[u32],
) -> Result<Settled, Memory>
    ensures actuals { IfOk result (λ s. s.actuals ≡ map (λ a. slice_index_or own.now.actuals a (actual.Grant 0)) arguments.now) }
    ensures sets { IfOk result (λ s. s.sets ≡ map (replace own.now.sets) (arguments_sets (program_of core.now) outer.now (names_of (slice_get (program_of core.now).scopes scope)) arguments.now)) }
{
    let opened = arguments_sets(alloc, core, outer, names_of(core, scope), arguments)?;
    Ok(Settled {
        actuals: handed_on(alloc, own.actuals.as_slice(), arguments)?,
        sets: substitute_sets(alloc, opened.as_slice(), own.sets.as_slice())?,
    })
}

// ----------------------------------------------------------------------------
// Instances

/// Adds an instance behind those that it needs, unless there are 1,024; an own name stands for it.
fn add_instance(
    name: Text,
    scope: u16,
    bound: Option<EffSet>,
    inner: Settled,
    started: &mut Started,
    own: &mut Settled,
) -> Result<(), LinkRefusal>
    requires { length started.old ≤ 1024 }
    ensures { ComesTo (with_instance (visited started.old own.old) (instance_of name scope inner.actuals bound inner.sets)) started.new own.new result }
{
    let number = started.len();
    if number >= MOST_INSTANCES {
        return Err(LinkRefusal::Limit(LimitName::Instances));
    }
    started.push(Instance {
        name,
        scope,
        arguments: inner.actuals,
        bound,
        ground: inner.sets,
    })?;
    own.actuals.push(Actual::Instance(number as u16))?;
    Ok(())
}

/// Settles a line: it stands for its instance, which is added, and its atoms for what its module defines.
fn settle_line(
    core: &Core,
    name: Text,
    scope: u16,
    inner: Settled,
    started: &mut Started,
    own: &mut Settled,
) -> Result<(), LinkRefusal>
    requires { length started.old ≤ 1024 }
    ensures { ComesTo (lined (program_of core.now) (visited started.old own.old) (visited started.old inner) name scope) started.new own.new result }
{
    add_defined(core, scope, inner.sets.as_slice(), &mut own.sets)?;
    add_instance(name, scope, None, inner, started, own)
}

/// Settles an import: it stands for its instance, which is added with the ground of the import's bound, and opens no atoms.
fn settle_import(
    name: Text,
    scope: u16,
    bound: &EffSet,
    inner: Settled,
    started: &mut Started,
    own: &mut Settled,
) -> Result<(), LinkRefusal>
    requires { length started.old ≤ 1024 }
    ensures { ComesTo (with_instance (visited started.old own.old) (instance_of name scope inner.actuals (Some (replace own.old.sets bound.now)) inner.sets)) started.new own.new result }
{
    let bound = bound.substitute(own.sets.as_slice())?;
    add_instance(name, scope, Some(bound), inner, started, own)
}

/// The name of the instance of a pure module that is used by this name.
fn pure_name(alloc: Global, name: &Text) -> Result<Text, Memory>
    ensures { IfOk result (λ t. t ≡ codes "pure " ++ name.now) }
{
    from_bytes(alloc, b"pure ")?.joined(name)
}

/// The prefix of the instances that start inside the one of a line.
fn prefix_inside(alloc: Global, prefix: &Text, name: &Text) -> Result<Text, Memory>
    ensures { IfOk result (λ t. t ≡ prefix.now ++ (name.now ++ codes ".")) }
{
    prefix.joined(&name.joined(&from_bytes(alloc, b".")?)?)
}

/// Settles a use of a pure module whose instance there is.
fn settle_use(
    core: &Core,
    scope: u16,
    number: u16,
    started: &[Instance],
    own: &mut Settled,
) -> Result<(), Memory>
    ensures actuals { OnOk result (own.new.actuals ≡ own.old.actuals ++ actual.Instance number ∷ []) }
    ensures sets { OnOk result (own.new.sets ≡ own.old.sets ++ defined_sets (program_of core.now) scope (ground_sets (slice_get started.now number))) }
{
    own.actuals.push(Actual::Instance(number))?;
    match started.get(number as usize) {
        Some(instance) => add_defined(core, scope, instance.ground.as_slice(), &mut own.sets),
        None => add_defined(core, scope, &[], &mut own.sets),
    }
}

// ----------------------------------------------------------------------------
// Visits

/// Visits a scope's own names, in their order. Visits go through at most so many scopes, one in the other; the
/// instances of the scope's lines are named with the prefix.
#[cycle(visiting)]
fn visit(
    alloc: Global,
    core: &Core,
    scopes: usize,
    outer: &[OwnName],
    prefix: &Text,
    started: &mut Started,
    own: &mut Settled,
) -> Result<(), LinkRefusal>
    requires core { IsCore (program_of core.now) }
    requires few { length started.old ≤ 1024 }
    requires room { CanSettleAll (program_of core.now) outer.now (length own.old.actuals) (length own.old.sets) }
    ensures { ComesTo (visit (program_of core.now) scopes outer.now prefix.now outer.now (visited started.old own.old)) started.new own.new result }
{
    if scopes == 0 {
        return Ok(());
    }
    for name in outer {
        visit_name(alloc, core, scopes - 1, outer, prefix, name, started, own)?;
    }
    Ok(())
}

/// Visits one of a scope's own names. A line's module is visited before its instance is added, from what the line
/// hands on.
#[cycle(visiting)]
fn visit_name(
    alloc: Global,
    core: &Core,
    scopes: usize,
    outer: &[OwnName],
    prefix: &Text,
    name: &OwnName,
    started: &mut Started,
    own: &mut Settled,
) -> Result<(), LinkRefusal>
    requires core { IsCore (program_of core.now) }
    requires few { length started.old ≤ 1024 }
    requires room { CanSettle (program_of core.now) name.now name.now.origin (length own.old.actuals) (length own.old.sets) }
    ensures { ComesTo (visit_name (program_of core.now) (visit (program_of core.now) scopes) outer.now prefix.now name.now name.now.origin (visited started.old own.old)) started.new own.new result }
{
    match &name.origin {
        Origin::Parameter { .. } => Ok(()),
        Origin::Grant => Ok(settle_grant(alloc, core, name, own)?),
        Origin::Use { module } => visit_use(alloc, core, scopes, &name.name, *module, started, own),
        Origin::Instance { module, arguments } => {
            let mut inner = handed(alloc, core, outer, own, *module, arguments.as_slice())?;
            visit_module(
                alloc, core, scopes, prefix, &name.name, *module, started, &mut inner,
            )?;
            let line = prefix.joined(&name.name)?;
            settle_line(core, line, *module, inner, started, own)
        }
        Origin::Import {
            module,
            arguments,
            bound,
        } => {
            let mut inner = handed(alloc, core, outer, own, *module, arguments.as_slice())?;
            visit_module(
                alloc, core, scopes, prefix, &name.name, *module, started, &mut inner,
            )?;
            let line = prefix.joined(&name.name)?;
            settle_import(line, *module, bound, inner, started, own)
        }
    }
}

/// Visits the own names of a line's module: its instances are named with the prefix and the line's name.
#[cycle(visiting)]
fn visit_module(
    alloc: Global,
    core: &Core,
    scopes: usize,
    prefix: &Text,
    name: &Text,
    scope: u16,
    started: &mut Started,
    inner: &mut Settled,
) -> Result<(), LinkRefusal>
    requires core { IsCore (program_of core.now) }
    requires few { length started.old ≤ 1024 }
    requires there { scope + 1 < length (program_of core.now).scopes }
    ensures { ComesTo (module_visit (program_of core.now) scopes prefix.now name.now scope (visited started.old inner.old)) started.new inner.new result }
{
    let inside = prefix_inside(alloc, prefix, name)?;
    let names = names_of(core, scope);
    visit(alloc, core, scopes, names, &inside, started, inner)
}

/// Visits a use: a pure module has one instance, which its first use adds.
#[cycle(visiting_uses)]
fn visit_use(
    alloc: Global,
    core: &Core,
    scopes: usize,
    name: &Text,
    scope: u16,
    started: &mut Started,
    own: &mut Settled,
) -> Result<(), LinkRefusal>
    requires { length started.old ≤ 1024 }
    ensures { ComesTo (used (program_of core.now) (visit (program_of core.now) scopes) (visited started.old own.old) (codes "pure " ++ name.now) scope (number_from 0 (codes "pure " ++ name.now) started.old)) started.new own.new result }
{
    let pure = pure_name(alloc, name)?;
    if let Some(number) = started.number_of(&pure) {
        return Ok(settle_use(core, scope, number, started.as_slice(), own)?);
    }
    let mut inner = Settled {
        actuals: Items::new(alloc),
        sets: Items::new(alloc),
    };
    let names = names_of(core, scope);
    visit_uses(alloc, core, scopes, names, started, &mut inner)?;
    settle_line(core, pure, scope, inner, started, own)
}

/// Visits the uses among a pure module's own names, in their order.
#[cycle(visiting_uses)]
fn visit_uses(
    alloc: Global,
    core: &Core,
    scopes: usize,
    outer: &[OwnName],
    started: &mut Started,
    own: &mut Settled,
) -> Result<(), LinkRefusal>
    requires { length started.old ≤ 1024 }
    ensures { ComesTo (visit (program_of core.now) scopes outer.now [] (uses_among outer.now) (visited started.old own.old)) started.new own.new result }
{
    if scopes == 0 {
        return Ok(());
    }
    for name in outer {
        if let Origin::Use { module } = &name.origin {
            visit_use(alloc, core, scopes - 1, &name.name, *module, started, own)?;
        }
    }
    Ok(())
}

/// The program's own names; none where there is no scope.
fn program_names(core: &Core) -> &[OwnName]
    ensures { result.now ≡ names_of (slice_get (program_of core.now).scopes (program_number (program_of core.now))) }
{
    match core.scopes.get(core.scopes.len().saturating_sub(1)) {
        Some(scope) => scope.names.as_slice(),
        None => &[],
    }
}

/// Visits the program's own names, where nothing is settled yet.
fn visit_program(
    alloc: Global,
    core: &Core,
    started: &mut Started,
    own: &mut Settled,
) -> Result<(), LinkRefusal>
    requires keeps { CoreKeeps (program_of core.now) }
    requires none { started.old ≡ [] }
    requires actuals { own.old.actuals ≡ [] }
    requires sets { own.old.sets ≡ [] }
    ensures { ComesTo (program_visited (program_of core.now)) started.new own.new result }
{
    let prefix = from_bytes(alloc, b"")?;
    let names = program_names(core);
    visit(alloc, core, core.scopes.len(), names, &prefix, started, own)
}

/// The instances of a program in start order, whether or not the rules for its lines hold. `Limit` comes exactly
/// where there are more than 1,024 (docs/LANGUAGE.md, "Start order and ground sets" and "Limits").
pub fn link(alloc: Global, core: &Core) -> Result<Links, LinkRefusal>
    requires { CoreKeeps (program_of core.now) }
    ensures links { IfOk result (λ l. IsLinked (program_of core.now) l) }
    ensures refusal { IfErr result (λ r. IsLinkRefusal (program_of core.now) r) }
{
    let mut started = Started::new(alloc);
    let mut own = Settled {
        actuals: Items::new(alloc),
        sets: Items::new(alloc),
    };
    visit_program(alloc, core, &mut started, &mut own)?;
    Ok(Links {
        instances: started.into_linked(alloc)?,
        sets: own.sets,
    })
}
