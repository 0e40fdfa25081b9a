//! Instances and the program.

ghost use Rattle.std.specs.Prelude.{◌≡◌, ◌↔◌, ◌<◌, ℕ, List, Some, IsTrue, IfOk, length, map, slice_get};
ghost use Rattle.wy_text.specs.Members.{In, Apart};
ghost use Rattle.wy_image.specs.declared.file.Argument.{Argument};
ghost use Rattle.wy_image.specs.declared.file.Instance.{Instance};
ghost use Rattle.wy_image.specs.declared.typing.Bounds.{Bounds};
ghost use Rattle.wy_image.specs.declared.typing.Reference.{Reference};
ghost use Rattle.wy_verified.specs.Ranges.{ArgumentInRange, BodiesStandOnce, InstanceInRange, LiteralStated, MainInRange, TypingInRange, role_bodies, roles_of};
ghost use Rattle.wy_verify.specs.RangeParts.{AreAsManyAmong, AreStatedOnce, AreTablesOf, HasArguments, HasNoValues, HasValues, role_of};

use crate::ranges::bounds::fit_their_bodies;
use crate::ranges::distinct::{Numbers, Texts};
use crate::ranges::references::{Writer, are_values};
use crate::ranges::roles::{Role, roles_of};
use crate::ranges::tables::Tables;
use crate::ranges::words::is_printed;
use std::alloc::Global;
use wy_image::{Argument, Bounds, ImageFile, Instance, Scope, Typing, Values};
use wy_text::text::Memory;

/// Whether the types of the values of a literal are stated.
fn is_literal_stated(writer: &Writer<'_>, literal: usize, values: &Values) -> bool
    ensures { IsTrue result ↔ LiteralStated writer.now.file.now writer.now.instance writer.now.scope.now (slice_get writer.now.scope.now.literals literal) values.now }
{
    match writer.scope.literals.get(literal) {
        Some(literal) => are_values(
            writer,
            literal.captures.len(),
            literal.fields,
            values.as_slice(),
        ),
        None => false,
    }
}

/// Whether the types of the values of all literals are.
fn are_literals_stated(writer: &Writer<'_>, literals: &[Values]) -> bool
    ensures { IsTrue result ↔ ((l : ℕ) (rs : List Reference) → slice_get literals.now l ≡ Some rs → LiteralStated writer.now.file.now writer.now.instance writer.now.scope.now (slice_get writer.now.scope.now.literals l) rs) }
{
    for l in 0..literals.len() {
        if !is_literal_stated(writer, l, &literals[l]) {
            return false;
        }
    }
    true
}

/// Returns the numbers of the bodies of which something is stated.
fn numbers_of(alloc: Global, bodies: &[Bounds]) -> Result<Vec<u32>, Memory>
    ensures { IfOk result (λ v. v.items ≡ map (λ (n : Bounds). n.body) bodies.now) }
{
    let mut numbers = Vec::new(alloc);
    for body in bodies {
        numbers.push(body.body)?;
    }
    Ok(numbers)
}

/// Whether all bodies of a scope are among these.
fn are_all_among(numbers: &Numbers, roles: &[Role]) -> bool
    ensures { IsTrue result ↔ ((b : ℕ) → In b (role_bodies (map role_of roles.now)) → In b numbers.now) }
{
    for role in roles {
        if !numbers.has(role.body) {
            return false;
        }
    }
    true
}

/// Whether there are numbers, and the bodies of a scope are so many, and all among them.
fn are_as_many_among(numbers: &Option<Numbers>, count: usize, roles: &[Role]) -> bool
    ensures { IsTrue result ↔ AreAsManyAmong numbers.now count (role_bodies (map role_of roles.now)) }
{
    match numbers {
        Some(numbers) => roles.len() == count && are_all_among(numbers, roles),
        None => false,
    }
}

/// Whether something is stated of each body of a scope, once, and of no other.
fn are_stated_once(alloc: Global, scope: &Scope, bodies: &[Bounds]) -> Result<bool, Memory>
    requires { Apart (role_bodies (roles_of scope.now)) }
    ensures { IfOk result (λ b. IsTrue b ↔ AreStatedOnce scope.now bodies.now) }
{
    let roles = roles_of(alloc, scope)?;
    let numbers = numbers_of(alloc, bodies)?;
    let stated = Numbers::each_once(alloc, numbers.as_slice())?;
    Ok(are_as_many_among(&stated, numbers.len(), roles.as_slice()))
}

/// Whether bodies are stated under different names.
fn are_names_apart(alloc: Global, bodies: &[Bounds]) -> Result<bool, Memory>
    ensures { IfOk result (λ b. IsTrue b ↔ Apart (map (λ (n : Bounds). n.name) bodies.now)) }
{
    let mut names = Texts::new(alloc);
    names.take_bodies(bodies)
}

/// Whether what is stated of an instance or of the program has the lengths of its scope, each of its bodies once, and
/// different names, and names what is there.
fn is_typing(
    alloc: Global,
    writer: &Writer<'_>,
    tables: &Tables,
    typing: &Typing,
) -> Result<bool, Memory>
    requires tables { AreTablesOf writer.now.file.now tables.now }
    requires once { Apart (role_bodies (roles_of writer.now.scope.now)) }
    ensures { IfOk result (λ b. IsTrue b ↔ TypingInRange writer.now.file.now writer.now.instance writer.now.scope.now typing.now) }
{
    if !has_values(writer, typing) {
        return Ok(false);
    }
    let bodies = typing.bodies.as_slice();
    let once = are_stated_once(alloc, writer.scope, bodies)?;
    if !once {
        return Ok(false);
    }
    let apart = are_names_apart(alloc, bodies)?;
    if !apart {
        return Ok(false);
    }
    Ok(fit_their_bodies(writer, tables, bodies))
}

/// Whether types are stated for as many literals as the scope has.
fn has_all_literals(scope: &Scope, typing: &Typing) -> bool
    ensures { IsTrue result ↔ (length typing.now.literals ≡ length scope.now.literals) }
{
    typing.literals.len() == scope.literals.len()
}

/// Whether the types of the values of the instance and of its literals are stated.
fn has_values(writer: &Writer<'_>, typing: &Typing) -> bool
    ensures { IsTrue result ↔ HasValues writer.now.file.now writer.now.instance writer.now.scope.now typing.now }
{
    let scope = writer.scope;
    let values = typing.values.as_slice();
    if !are_values(writer, scope.arguments as usize, scope.fields, values) {
        return false;
    }
    if !has_all_literals(scope, typing) {
        return false;
    }
    let literals = typing.literals.as_slice();
    are_literals_stated(writer, literals)
}

/// Whether an argument is a grant, or an earlier instance.
fn is_argument(file: &ImageFile, number: usize, argument: Argument) -> bool
    ensures { IsTrue result ↔ ArgumentInRange file.now number argument }
{
    match argument {
        Argument::Grant(grant) => (grant as usize) < file.grants.len(),
        Argument::Instance(instance) => (instance as usize) < number,
    }
}

/// Whether all arguments are.
fn are_arguments(file: &ImageFile, number: usize, arguments: &[Argument]) -> bool
    ensures { IsTrue result ↔ ((a : Argument) → In a arguments.now → ArgumentInRange file.now number a) }
{
    for argument in arguments {
        if !is_argument(file, number, *argument) {
            return false;
        }
    }
    true
}

/// Whether an instance has an argument for each of those that its scope has.
fn has_arguments(writer: &Writer<'_>, instance: &Instance) -> bool
    ensures { IsTrue result ↔ HasArguments writer.now.file.now writer.now.instance writer.now.scope.now instance.now }
{
    instance.arguments.len() == writer.scope.arguments as usize
        && are_arguments(writer.file, writer.instance, instance.arguments.as_slice())
}

/// Whether all that is stated of an instance of a scope names what is there.
fn is_instance_of(
    alloc: Global,
    writer: &Writer<'_>,
    tables: &Tables,
    instance: &Instance,
) -> Result<bool, Memory>
    requires tables { AreTablesOf writer.now.file.now tables.now }
    requires once { BodiesStandOnce writer.now.file.now }
    requires scope { slice_get writer.now.file.now.scopes instance.now.scope ≡ Some writer.now.scope.now }
    ensures { IfOk result (λ b. IsTrue b ↔ InstanceInRange writer.now.file.now writer.now.instance instance.now) }
{
    if !is_printed(&instance.name) {
        return Ok(false);
    }
    if !has_arguments(writer, instance) {
        return Ok(false);
    }
    is_typing(alloc, writer, tables, &instance.typing)
}

/// Whether an instance has a scope, and all that is stated of it names what is there.
fn is_instance(
    alloc: Global,
    file: &ImageFile,
    tables: &Tables,
    number: usize,
    instance: &Instance,
) -> Result<bool, Memory>
    requires tables { AreTablesOf file.now tables.now }
    requires once { BodiesStandOnce file.now }
    ensures { IfOk result (λ b. IsTrue b ↔ InstanceInRange file.now number instance.now) }
{
    match file.scopes.get(instance.scope as usize) {
        Some(scope) => {
            let writer = Writer {
                file,
                instance: number,
                scope,
            };
            is_instance_of(alloc, &writer, tables, instance)
        }
        None => Ok(false),
    }
}

/// Whether all instances do.
pub(super) fn are_instances(
    alloc: Global,
    file: &ImageFile,
    tables: &Tables,
    instances: &[Instance],
) -> Result<bool, Memory>
    requires tables { AreTablesOf file.now tables.now }
    requires once { BodiesStandOnce file.now }
    ensures { IfOk result (λ b. IsTrue b ↔ ((x : ℕ) (i : Instance) → slice_get instances.now x ≡ Some i → InstanceInRange file.now x i)) }
{
    for x in 0..instances.len() {
        let fits = is_instance(alloc, file, tables, x, &instances[x])?;
        if !fits {
            return Ok(false);
        }
    }
    Ok(true)
}

/// Whether a scope has neither arguments nor fields.
fn has_no_values(scope: &Scope) -> bool
    ensures { IsTrue result ↔ HasNoValues scope.now }
{
    scope.arguments == 0 && scope.fields == 0
}

/// Whether all that is stated of the program, which is of a scope, names what is there.
fn is_main_of(alloc: Global, writer: &Writer<'_>, tables: &Tables) -> Result<bool, Memory>
    requires tables { AreTablesOf writer.now.file.now tables.now }
    requires once { BodiesStandOnce writer.now.file.now }
    requires scope { slice_get writer.now.file.now.scopes writer.now.file.now.main.scope ≡ Some writer.now.scope.now }
    requires last { writer.now.instance ≡ length writer.now.file.now.instances }
    ensures { IfOk result (λ b. IsTrue b ↔ MainInRange writer.now.file.now) }
{
    if !has_no_values(writer.scope) {
        return Ok(false);
    }
    is_typing(alloc, writer, tables, &writer.file.main.typing)
}

/// Whether the program has a scope with neither arguments nor fields, and all that is stated of it names what is there.
pub(super) fn is_main(alloc: Global, file: &ImageFile, tables: &Tables) -> Result<bool, Memory>
    requires tables { AreTablesOf file.now tables.now }
    requires once { BodiesStandOnce file.now }
    ensures { IfOk result (λ b. IsTrue b ↔ MainInRange file.now) }
{
    match file.scopes.get(file.main.scope as usize) {
        Some(scope) => {
            let writer = Writer {
                file,
                instance: file.instances.len(),
                scope,
            };
            is_main_of(alloc, &writer, tables)
        }
        None => Ok(false),
    }
}
