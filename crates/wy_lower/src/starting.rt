//! The start list of a program as the code has it: what the program's own names stand for, its grants and its instances.

ghost use Rattle.std.specs.Prelude.{◌≡◌, ◌++◌, ◌∷◌, [], List, ℕ, codes, map, bytes_eq, Some, IfOk, OnOk};
ghost use Rattle.std.specs.List.{position_from};
ghost use Rattle.indexmap.specs.IndexMap.{get};
ghost use Rattle.wy_types.specs.declared.linked.Instance as linked;
ghost use Rattle.wy_device.specs.Editions.{current, primitive_numbered};
ghost use Rattle.wy_meaning.specs.Starts.{numbered_from, main_actual, main_actuals, primitive_of_type, started_of};
ghost use Rattle.wy_lower.specs.Lowering.{grant_code, grants_code, argument_of, instance_code};

use crate::indexes::word;
use indexmap::IndexMap;
use std::alloc::Global;
use wy_code::code::{Argument, Grant, Instance};
use wy_device::primitive::Primitive;
use wy_text::list::Items;
use wy_text::text::{Memory, Text, from_bytes};
use wy_types::linked::{Actual, Linked};
use wy_types::resolved::{Origin, OwnName};
use wy_types::types::TypeRef;

/// The number of the first instance of each name.
fn instance_numbers(alloc: Global, instances: &Linked) -> Result<IndexMap<Text, usize>, Memory>
    ensures { IfOk result (λ m. (x : List ℕ) → get bytes_eq m x ≡ position_from (λ (s : linked.Instance). bytes_eq s.name x) 0 instances.now) }
{
    let mut numbers = IndexMap::new(alloc);
    let instances = instances.as_slice();
    for i in 0..instances.len() {
        let instance = &instances[i];
        if !numbers.contains_key(&instance.name) {
            numbers.insert(instance.name.copy()?, i)?;
        }
    }
    Ok(numbers)
}

/// A number of a grant or an instance.
fn short(number: usize) -> Result<u16, Memory>
    ensures { IfOk result (λ n. n ≡ number) }
{
    match u16::try_from(number) {
        Ok(short) => Ok(short),
        Err(_) => Err(Memory),
    }
}

/// The grant of a number.
fn granted(number: usize) -> Result<Actual, Memory>
    ensures { IfOk result (λ a. a ≡ Actual.Grant number) }
{
    Ok(Actual::Grant(short(number)?))
}

/// The instance of a name.
fn instance_named(
    instances: &Linked,
    numbers: &IndexMap<Text, usize>,
    name: &Text,
) -> Result<Actual, Memory>
    requires { (x : List ℕ) → get bytes_eq numbers.now x ≡ position_from (λ (s : linked.Instance). bytes_eq s.name x) 0 instances.now }
    ensures { IfOk result (λ a. a ≡ Actual.Instance (numbered_from 0 name.now (map started_of instances.now))) }
{
    let number = numbers.get(name).copied().unwrap_or(instances.len());
    Ok(Actual::Instance(short(number)?))
}

/// The instance of a pure module of this name.
fn pure_named(
    alloc: Global,
    instances: &Linked,
    numbers: &IndexMap<Text, usize>,
    name: &Text,
) -> Result<Actual, Memory>
    requires { (x : List ℕ) → get bytes_eq numbers.now x ≡ position_from (λ (s : linked.Instance). bytes_eq s.name x) 0 instances.now }
    ensures { IfOk result (λ a. a ≡ Actual.Instance (numbered_from 0 (codes "pure " ++ name.now) (map started_of instances.now))) }
{
    let name = from_bytes(alloc, b"pure ")?.joined(name)?;
    instance_named(instances, numbers, &name)
}

/// What an own name of the program stands for.
fn main_actual(
    alloc: Global,
    instances: &Linked,
    numbers: &IndexMap<Text, usize>,
    number: usize,
    own: &OwnName,
) -> Result<Actual, Memory>
    requires { (x : List ℕ) → get bytes_eq numbers.now x ≡ position_from (λ (s : linked.Instance). bytes_eq s.name x) 0 instances.now }
    ensures { IfOk result (λ a. a ≡ main_actual (map started_of instances.now) number own.now.name own.now.origin) }
{
    match &own.origin {
        Origin::Parameter { bare: _ } => granted(number),
        Origin::Grant => granted(number),
        Origin::Use { module: _ } => pure_named(alloc, instances, numbers, &own.name),
        Origin::Instance {
            module: _,
            arguments: _,
        } => instance_named(instances, numbers, &own.name),
        Origin::Import {
            module: _,
            arguments: _,
            bound: _,
        } => instance_named(instances, numbers, &own.name),
    }
}

/// Adds what the own names of the program stand for, whose instances have these numbers.
fn actuals_with(
    alloc: Global,
    instances: &Linked,
    numbers: &IndexMap<Text, usize>,
    names: &[OwnName],
    actuals: &mut Vec<Actual>,
) -> Result<(), Memory>
    requires numbers { (x : List ℕ) → get bytes_eq numbers.now x ≡ position_from (λ (s : linked.Instance). bytes_eq s.name x) 0 instances.now }
    requires actuals { actuals.old.items ≡ [] }
    ensures { OnOk result (actuals.new.items ≡ main_actuals (map started_of instances.now) 0 names.now) }
{
    for k in 0..names.len() {
        actuals.push(main_actual(alloc, instances, numbers, k, &names[k])?)?;
    }
    Ok(())
}

/// Adds what the own names of the program stand for.
pub(crate) fn main_actuals(
    alloc: Global,
    instances: &Linked,
    names: &[OwnName],
    actuals: &mut Vec<Actual>,
) -> Result<(), Memory>
    requires { actuals.old.items ≡ [] }
    ensures { OnOk result (actuals.new.items ≡ main_actuals (map started_of instances.now) 0 names.now) }
{
    let numbers = instance_numbers(alloc, instances)?;
    actuals_with(alloc, instances, &numbers, names, actuals)
}

// ----------------------------------------------------------------------------
// Grants

/// The primitive type of a number.
fn primitive_numbered(number: u16) -> Option<Primitive>
    ensures { result ≡ primitive_numbered current number }
{
    let primitives = [
        Primitive::Console,
        Primitive::Folder,
        Primitive::Clock,
        Primitive::Random,
        Primitive::FullFolder,
    ];
    primitives.get(usize::from(number)).copied()
}

/// The primitive type that a type is.
fn primitive_of_type(typ: &TypeRef) -> Option<Primitive>
    ensures { result ≡ primitive_of_type current typ.now }
{
    match typ {
        TypeRef::Named { decl, members: _ } => primitive_numbered(*decl),
        _ => None,
    }
}

/// Adds the grant that an own name is, where it is one.
fn add_grant(grants: &mut Items<Grant>, own: &OwnName) -> Result<(), Memory>
    ensures { OnOk result (grants.new ≡ grants.old ++ grant_code own.now.origin own.now) }
{
    if let Origin::Grant = own.origin {
        if let Some(primitive) = primitive_of_type(&own.typ) {
            grants.push(Grant {
                name: own.name.copy()?,
                primitive,
            })?;
        }
    }
    Ok(())
}

/// Adds the grants among the program's own names.
pub(crate) fn put_grants(names: &[OwnName], grants: &mut Items<Grant>) -> Result<(), Memory>
    requires { grants.old ≡ [] }
    ensures { OnOk result (grants.new ≡ grants_code names.now) }
{
    for own in names {
        add_grant(grants, own)?;
    }
    Ok(())
}

// ----------------------------------------------------------------------------
// Instances

fn argument_of(actual: Actual) -> Argument
    ensures { result ≡ argument_of actual }
{
    match actual {
        Actual::Grant(number) => Argument::Grant(number),
        Actual::Instance(number) => Argument::Instance(number),
    }
}

/// What an instance is handed.
fn arguments_of(alloc: Global, actuals: &[Actual]) -> Result<Items<Argument>, Memory>
    ensures { IfOk result (λ a. a ≡ map argument_of actuals.now) }
{
    let mut arguments = Items::new(alloc);
    for actual in actuals {
        arguments.push(argument_of(*actual))?;
    }
    Ok(arguments)
}

/// An instance of a scope.
pub(crate) fn instance_code(
    alloc: Global,
    name: &[u8],
    scope: usize,
    actuals: &[Actual],
) -> Result<Instance, Memory>
    ensures { IfOk result (λ i. i ≡ instance_code (record { name = name.now; scope = scope; actuals = actuals.now })) }
{
    let scope = word(scope)?;
    let arguments = arguments_of(alloc, actuals)?;
    Ok(Instance {
        name: from_bytes(alloc, name)?,
        scope,
        arguments,
    })
}

/// Adds the instances, in start order.
pub(crate) fn add_instances(
    alloc: Global,
    instances: &Linked,
    all: &mut Items<Instance>,
) -> Result<(), Memory>
    requires { all.old ≡ [] }
    ensures { OnOk result (all.new ≡ map instance_code (map started_of instances.now)) }
{
    for instance in instances.as_slice() {
        all.push(instance_code(
            alloc,
            instance.name.as_bytes(),
            usize::from(instance.scope),
            instance.arguments.as_slice(),
        )?)?;
    }
    Ok(())
}
