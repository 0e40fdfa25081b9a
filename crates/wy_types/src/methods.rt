ghost use Rattle.std.specs.Prelude.{◌≡◌, List, map, IfOk, slice_get};
ghost use Rattle.std.specs.Option.{option_copied, option_map};
ghost use Rattle.wy_types.specs.Program.{program_of, scope_of, body_of};
ghost use Rattle.wy_types.specs.Signature.{Signature, find_method};
ghost use Rattle.wy_types.specs.Types.{signature, declared_methods, methods_of_owner, named_methods, methods_of, scope_bodies, scope_is_plain};
ghost use Rattle.wy_types.specs.Readings.{signature_read};

use crate::reading::{Reading, read_effect, read_type, read_types};
use crate::resolved::{Body, Core, ScopeKind};
use crate::types::{Method, TypeRef};
use std::alloc::Global;
use wy_effects::set::EffSet;
use wy_text::text::{Memory, Text};

/// The method, read so.
fn read_method(alloc: Global, m: &Method, reading: Reading) -> Result<Method, Memory>
    ensures { IfOk result (λ r. signature r ≡ signature_read reading.entry (signature m.now)) }
{
    Ok(Method {
        name: m.name.copy()?,
        params: read_types(alloc, m.params.as_slice(), reading)?,
        effect: read_effect(alloc, &m.effect, reading)?,
        result: read_type(alloc, &m.result, reading)?,
    })
}

fn copied(alloc: Global, m: &Method) -> Result<Method, Memory>
    ensures { IfOk result (λ r. r ≡ m.now) }
{
    read_method(alloc, m, Reading::Same)
}

/// The methods, read so.
fn read_methods(alloc: Global, methods: &[Method], reading: Reading) -> Result<Vec<Method>, Memory>
    ensures { IfOk result (λ v. map signature v.items ≡ map (signature_read reading.entry) (map signature methods.now)) }
{
    let mut out = Vec::new(alloc);
    for m in methods {
        out.push(read_method(alloc, m, reading)?)?;
    }
    Ok(out)
}

/// The signatures of an owner's bodies.
fn owned(alloc: Global, bodies: &[Body], owner: u32) -> Result<Vec<Method>, Memory>
    ensures { IfOk result (λ v. map signature v.items ≡ methods_of_owner owner (map body_of bodies.now)) }
{
    let mut out = Vec::new(alloc);
    for body in bodies {
        if body.owner == owner {
            out.push(copied(alloc, &body.signature)?)?;
        }
    }
    Ok(out)
}

/// A declaration's methods.
fn declared(core: &Core, decl: u16) -> &[Method]
    ensures { map signature result.now ≡ declared_methods (slice_get core.now.declarations decl) }
{
    match core.declarations.get(decl as usize) {
        Some(d) => d.methods.as_slice(),
        None => &[],
    }
}

/// Bodies of a scope among which are all those of an owner.
fn bodies_around(core: &Core, scope: u16, owner: u32) -> &[Body]
    ensures { methods_of_owner owner (map body_of result.now) ≡ methods_of_owner owner (scope_bodies (slice_get (program_of core.now).scopes scope)) }
{
    match core.scopes.get(scope as usize) {
        Some(s) => s.bodies.around(owner),
        None => &[],
    }
}

/// Whether a scope is a plain module.
fn is_plain_scope(core: &Core, scope: u16) -> bool
    ensures { result ≡ scope_is_plain (slice_get (program_of core.now).scopes scope) }
{
    match core.scopes.get(scope as usize) {
        Some(s) => matches!(s.kind, ScopeKind::Plain),
        None => false,
    }
}

/// How a scope reads the methods of a declared type with sets for its members: as the sets say,
/// or bare in a plain module.
fn named_reading<'a>(core: &Core, scope: u16, members: &'a [EffSet]) -> Reading<'a>
    ensures { (ms : List (Signature TypeRef)) → map (signature_read result) ms ≡ named_methods (scope_is_plain (slice_get (program_of core.now).scopes scope)) members.now ms }
{
    if is_plain_scope(core, scope) {
        Reading::Bare
    } else {
        Reading::Replaced(members)
    }
}

/// The methods of a type in a scope, in the order of their declaration (docs/LANGUAGE.md,
/// "Effects and types").
pub fn methods(alloc: Global, core: &Core, scope: u16, t: &TypeRef) -> Result<Vec<Method>, Memory>
    ensures { IfOk result (λ v. map signature v.items ≡ methods_of (program_of core.now) scope t.now) }
{
    match t {
        TypeRef::Int | TypeRef::Bool | TypeRef::Text | TypeRef::Unit => Ok(Vec::new(alloc)),
        TypeRef::Named { decl, members } => {
            let reading = named_reading(core, scope, members.as_slice());
            read_methods(alloc, declared(core, *decl), reading)
        }
        TypeRef::At { decl, bound } => read_methods(
            alloc,
            declared(core, *decl),
            Reading::Bound(bound),
        ),
        TypeRef::Own { literal } => owned(alloc, bodies_around(core, scope, *literal), *literal),
    }
}

/// The first method of a name.
pub fn find<'a>(methods: &'a [Method], name: &Text) -> Option<&'a Method>
    ensures { option_map signature (option_copied result) ≡ find_method name.now (map signature methods.now) }
{
    for m in methods {
        if m.name == *name {
            return Some(m);
        }
    }
    None
}

/// The first signature of a name among an owner's bodies.
fn find_owned<'a>(bodies: &'a [Body], owner: u32, name: &Text) -> Option<&'a Method>
    ensures { option_map signature (option_copied result) ≡ find_method name.now (methods_of_owner owner (map body_of bodies.now)) }
{
    for body in bodies {
        if body.owner == owner && body.signature.name == *name {
            return Some(&body.signature);
        }
    }
    None
}

/// The method of a declared type, read so.
#[tactic(auto, using(crate::proofs::FindingMethods::find_mapped))]
fn find_read(
    alloc: Global,
    core: &Core,
    decl: u16,
    name: &Text,
    reading: Reading,
) -> Result<Option<Method>, Memory>
    ensures { IfOk result (λ o. option_map signature o ≡ find_method name.now (map (signature_read reading.entry) (declared_methods (slice_get core.now.declarations decl)))) }
{
    match find(declared(core, decl), name) {
        None => Ok(None),
        Some(m) => Ok(Some(read_method(alloc, m, reading)?)),
    }
}

/// The method of a name that a type has in a scope; `None` where it has none
/// (docs/LANGUAGE.md, "Effects and types"). Of the type's methods it makes this one alone.
pub fn find_method(
    alloc: Global,
    core: &Core,
    scope: u16,
    t: &TypeRef,
    name: &Text,
) -> Result<Option<Method>, Memory>
    ensures { IfOk result (λ o. option_map signature o ≡ find_method name.now (methods_of (program_of core.now) scope t.now)) }
{
    match t {
        TypeRef::Int | TypeRef::Bool | TypeRef::Text | TypeRef::Unit => Ok(None),
        TypeRef::Named { decl, members } => {
            let reading = named_reading(core, scope, members.as_slice());
            find_read(alloc, core, *decl, name, reading)
        }
        TypeRef::At { decl, bound } => find_read(alloc, core, *decl, name, Reading::Bound(bound)),
        TypeRef::Own { literal } => match find_owned(
            bodies_around(core, scope, *literal),
            *literal,
            name,
        ) {
            None => Ok(None),
            Some(m) => Ok(Some(copied(alloc, m)?)),
        },
    }
}
