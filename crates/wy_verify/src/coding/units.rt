//! The grants, the instances and the program of code.

ghost use Rattle.std.specs.Prelude.{◌≡◌, IfOk, map};
ghost use Rattle.wy_verified.specs.CodeOf.{argument_of, grant_of, instance_of, main_of};

use crate::coding::instructions::short;
use std::alloc::Global;
use wy_code::code;
use wy_image::{Argument, Grant, Instance, Main};
use wy_text::list::Items;
use wy_text::text::{Memory, from_bytes};

/// Returns the grants of code.
pub(super) fn grants_of(alloc: Global, grants: &[Grant]) -> Result<Items<code::Grant>, Memory>
    ensures { IfOk result (λ l. l ≡ map grant_of grants.now) }
{
    let mut list = Items::new(alloc);
    for grant in grants {
        list.push(grant_of(grant)?)?;
    }
    Ok(list)
}

/// Returns a grant of code.
fn grant_of(grant: &Grant) -> Result<code::Grant, Memory>
    ensures { IfOk result (λ g. g ≡ grant_of grant.now) }
{
    let name = grant.name.copy()?;
    Ok(code::Grant {
        name,
        primitive: grant.primitive,
    })
}

/// Returns an argument of code.
fn argument_of(argument: Argument) -> Result<code::Argument, Memory>
    ensures { IfOk result (λ a. a ≡ argument_of argument) }
{
    match argument {
        Argument::Grant(grant) => Ok(code::Argument::Grant(short(grant)?)),
        Argument::Instance(instance) => Ok(code::Argument::Instance(short(instance)?)),
    }
}

/// Returns the arguments of code.
fn arguments_of(alloc: Global, arguments: &[Argument]) -> Result<Items<code::Argument>, Memory>
    ensures { IfOk result (λ l. l ≡ map argument_of arguments.now) }
{
    let mut list = Items::new(alloc);
    for argument in arguments {
        list.push(argument_of(*argument)?)?;
    }
    Ok(list)
}

/// Returns an instance of code.
fn instance_of(alloc: Global, instance: &Instance) -> Result<code::Instance, Memory>
    ensures { IfOk result (λ i. i ≡ instance_of instance.now) }
{
    let name = instance.name.copy()?;
    let arguments = arguments_of(alloc, instance.arguments.as_slice())?;
    Ok(code::Instance {
        name,
        scope: instance.scope,
        arguments,
    })
}

/// Returns the instances of code.
pub(super) fn instances_of(
    alloc: Global,
    instances: &[Instance],
) -> Result<Items<code::Instance>, Memory>
    ensures { IfOk result (λ l. l ≡ map instance_of instances.now) }
{
    let mut list = Items::new(alloc);
    for instance in instances {
        list.push(instance_of(alloc, instance)?)?;
    }
    Ok(list)
}

/// Returns the program of code.
pub(super) fn main_of(alloc: Global, main: &Main) -> Result<code::Instance, Memory>
    ensures { IfOk result (λ i. i ≡ main_of main.now) }
{
    let name = from_bytes(alloc, b"main")?;
    Ok(code::Instance {
        name,
        scope: main.scope,
        arguments: Items::new(alloc),
    })
}
