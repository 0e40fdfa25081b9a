ghost use Rattle.std.specs.Prelude.{◌≡◌, ◌++◌, ◌≤◌, ◌-◌, OnOk, IfOk, map, length, slice_get};
ghost use Rattle.wy_text.specs.Members.{Apart};
ghost use Rattle.wy_types.specs.Program.{program_of, scope_of, body_of, start_of};
ghost use Rattle.wy_types.specs.Types.{signature};
ghost use Rattle.wy_types.specs.Signature.{signature_types};
ghost use Rattle.wy_types.specs.Reached.{Reach, sealed_types, own_types, field_types, start_types, body_types, first_types, scope_first_types};
ghost use Rattle.std.specs.List.{range_with_len};
ghost use Rattle.wy_types.specs.Gathering.{Gathers, Begins};

use crate::methods::methods;
use crate::resolved::{Body, Core, Literal, OwnName, Scope, ScopeKind, Start};
use crate::type_set::TypeSet;
use crate::types::{Method, TypeList, TypeRef};
use crate::written::{add_block, add_copy, add_values};
use std::alloc::Global;
use wy_effects::set::copy_sets;
use wy_text::limit::LimitName;
use wy_text::list::Items;
use wy_text::text::Memory;

/// Why a scope's reached types aren't given.
#[derive(Debug, Drop, PartialEq, Eq)]
pub enum ReachRefusal {
    /// The scope reaches more than 1,024 object types.
    Limit(LimitName),
    Memory,
}

impl From<Memory> for ReachRefusal {
    ghost use Rattle.std.specs.Prelude.{◌≡◌};
    ghost use Rattle.wy_types.specs.declared.reach.ReachRefusal.TheVariants as refusal;

    ghost from_gives = { λ _ e. e ≡ refusal.Memory };

    fn from(_memory: Memory) -> ReachRefusal {
        ReachRefusal::Memory
    }
}

/// Adds each object type that isn't there.
fn add_all(seen: &mut TypeSet, types: &[TypeRef]) -> Result<(), ReachRefusal>
    requires apart { Apart seen.old }
    requires small { length seen.old ≤ 1024 }
    ensures { Gathers seen.old types.now seen.new result }
{
    for t in types {
        seen.add(t)?;
    }
    Ok(())
}

/// Adds the types in signatures.
fn add_signatures(seen: &mut TypeSet, methods: &[Method]) -> Result<(), ReachRefusal>
    requires apart { Apart seen.old }
    requires small { length seen.old ≤ 1024 }
    ensures { Gathers seen.old (signature_types (map signature methods.now)) seen.new result }
{
    for m in methods {
        add_all(seen, m.params.as_slice())?;
        seen.add(&m.result)?;
    }
    Ok(())
}

/// Adds the types of own names.
fn add_names(alloc: Global, out: &mut TypeList, names: &[OwnName]) -> Result<(), Memory>
    ensures { OnOk result (out.new ≡ out.old ++ map (λ n. n.typ) names.now) }
{
    for name in names {
        add_copy(alloc, out, &name.typ)?;
    }
    Ok(())
}

/// Adds the type that a module is sealed at.
fn add_sealed(alloc: Global, out: &mut TypeList, scope: &Scope) -> Result<(), Memory>
    ensures { OnOk result (out.new ≡ out.old ++ sealed_types scope.now.ascribed scope.now.definitions) }
{
    match scope.ascribed {
        Some(decl) => out.push(TypeRef::Named {
            decl,
            members: copy_sets(alloc, scope.definitions.as_slice())?,
        }),
        None => Ok(()),
    }
}

/// Adds the own types from a number on and below another.
fn add_own(out: &mut TypeList, first: u32, end: u32) -> Result<(), Memory>
    ensures { OnOk result (out.new ≡ out.old ++ map (λ l. TypeRef.Own l) (range_with_len first (end - first))) }
{
    for literal in first..end {
        out.push(TypeRef::Own { literal })?;
    }
    Ok(())
}

/// Adds the types of fields.
fn add_fields(alloc: Global, out: &mut TypeList, literals: &[Literal]) -> Result<(), Memory>
    ensures { OnOk result (out.new ≡ out.old ++ field_types literals.now) }
{
    for literal in literals {
        add_literal(alloc, out, literal)?;
    }
    Ok(())
}

fn add_literal(alloc: Global, out: &mut TypeList, literal: &Literal) -> Result<(), Memory>
    ensures { OnOk result (out.new ≡ out.old ++ map (λ f. f.typ) literal.now.fields) }
{
    for field in literal.fields.as_slice() {
        add_copy(alloc, out, &field.typ)?;
    }
    Ok(())
}

/// Adds the types written in what a scope does when it starts.
fn add_start(alloc: Global, out: &mut TypeList, start: &Start) -> Result<(), Memory>
    ensures { OnOk result (out.new ≡ out.old ++ start_types (start_of start.now)) }
{
    match start {
        Start::Init(values) => add_values(alloc, out, values),
        Start::Run(block) => add_block(alloc, out, block),
    }
}

/// Adds the types written in bodies.
fn add_bodies(alloc: Global, out: &mut TypeList, bodies: &[Body]) -> Result<(), Memory>
    ensures { OnOk result (out.new ≡ out.old ++ body_types (map body_of bodies.now)) }
{
    for body in bodies {
        add_block(alloc, out, &body.block)?;
    }
    Ok(())
}

/// The types from which reaching begins. Literals have numbers of 32 bits; no memory has room for more of them.
fn firsts(alloc: Global, scope: &Scope) -> Result<TypeList, Memory>
    ensures { IfOk result (λ ts. ts ≡ first_types (scope_of scope.now)) }
{
    let mut out = Items::new(alloc);
    add_names(alloc, &mut out, scope.names.as_slice())?;
    add_sealed(alloc, &mut out, scope)?;
    let first = match scope.kind {
        ScopeKind::Pure | ScopeKind::Resource | ScopeKind::Plain => 0,
        ScopeKind::Program => 1,
    };
    let Ok(count) = u32::try_from(scope.literals.len()) else {
        return Err(Memory);
    };
    add_own(&mut out, first, count)?;
    add_fields(alloc, &mut out, scope.literals.as_slice())?;
    add_start(alloc, &mut out, &scope.start)?;
    add_bodies(alloc, &mut out, scope.bodies.as_slice())?;
    Ok(out)
}

/// The object types among those from which reaching begins, each once.
fn begin(alloc: Global, core: &Core, scope: u16) -> Result<TypeSet, ReachRefusal>
    ensures { Begins (scope_first_types (slice_get (program_of core.now).scopes scope)) result }
{
    match core.scopes.get(scope as usize) {
        None => Ok(TypeSet::new(alloc)),
        Some(s) => {
            let types = firsts(alloc, s)?;
            let mut seen = TypeSet::new(alloc);
            add_all(&mut seen, types.as_slice())?;
            Ok(seen)
        }
    }
}

/// The object types that a scope reaches, each once (docs/LANGUAGE.md, "Effects and types"). `Limit`
/// comes exactly where there are more than 1,024 (docs/LANGUAGE.md, "Limits").
pub fn reach(alloc: Global, core: &Core, scope: u16) -> Result<TypeList, ReachRefusal>
    ensures { Reach (program_of core.now) scope result }
{
    let mut seen = begin(alloc, core, scope)?;
    let mut next = 0;
    while next < seen.len() {
        let found = methods(alloc, core, scope, &seen.as_slice()[next])?;
        add_signatures(&mut seen, found.as_slice())?;
        next += 1;
    }
    Ok(seen.into_list()?)
}
