//! Finds the method of a number of a type.

ghost use Rattle.std.specs.Prelude.{◌≡◌, ◌<◌, ◌↔◌, ◌∷◌, [], ℕ, IsTrue, Some, length, slice_get};
ghost use Rattle.std.specs.Option.{option_copied};
ghost use Rattle.wy_code.specs.Machine.{literal_of};
ghost use Rattle.wy_device.specs.Primitives.{operations_of};
ghost use Rattle.wy_device.specs.Requests as requests;
ghost use Rattle.wy_text.specs.Members.{Within};
ghost use Rattle.wy_verified.specs.Kinds as kinds;
ghost use Rattle.wy_verify.specs.Effects.{AreSmall, IsSmall, effect_numbers};
ghost use Rattle.wy_verify.specs.Found.{NoLiteral};
ghost use Rattle.wy_verify.specs.Judging.{body_by, kind_numbers, listed_numbers, literal_by, literal_numbers};

use crate::effects::{Effect, number_of};
use crate::granted::operation_called;
use crate::judged::Judged;
use crate::tables::item_at;
use std::marker::Model;
use wy_code::code::Literal;
use wy_device::operation::OpName;
use wy_image::{Atom, Bounds, Reference, Signature};
use wy_lanes::number_set::NumberSet;
use wy_text::text::Text;
use wy_verified::Kind;

/// A method of a listed type, a body as an instance states it, or an operation of a grant. The first two have the set of
/// their effect.
#[derive(Clone, Copy)]
pub(crate) enum Found<'a> {
    Listed(&'a Signature, &'a NumberSet),
    Stated(u32, &'a Bounds, &'a NumberSet),
    Operation(u32, OpName),
}

/// A method that was found. Contracts see its type.
#[derive(Drop)]
pub struct FoundMethod<'a> {
    found: Found<'a>,
}

impl<'a> Model for FoundMethod<'a> {
    ghost use Rattle.wy_verified.specs.Kinds.{MethodType};
    ghost use Rattle.wy_verify.specs.Found.{IsReadyFound, method_found};

    ghost Value = { MethodType };

    ghost view = { λ m. method_found m.found };

    ghost invariant = { λ m. IsReadyFound m.found };
}

/// Returns the type that a reference names, if it is no literal. Takes no memory.
fn plain_kind(instance: u32, reference: Reference) -> Kind
    requires { NoLiteral reference }
    ensures { result ≡ kinds.kind_in instance reference }
{
    match reference {
        Reference::Int => Kind::Ints,
        Reference::Truth => Kind::Truths,
        Reference::Bytes => Kind::Texts,
        Reference::Unit => Kind::Units,
        Reference::Listed(number) => Kind::Named(number),
        Reference::Literal(_) => unreachable!(),
        Reference::Grant(number) => Kind::Granted(number),
        Reference::Instance(number) => Kind::Own(number, 0),
    }
}

/// Returns the number of texts that an operation takes. Takes no memory.
fn text_count(operation: OpName) -> usize
    ensures { result ≡ kinds.text_count operation }
{
    match operation {
        OpName::ConsoleRead => 0,
        OpName::ConsoleWrite => 1,
        OpName::FolderRead => 1,
        OpName::FolderHas => 1,
        OpName::FolderWrite => 2,
        OpName::FolderAppend => 2,
        OpName::FolderNames => 0,
        OpName::ClockNow => 0,
        OpName::RandomWord => 0,
        OpName::FolderRemove => 1,
    }
}

/// Returns the type of an operation's answer. Takes no memory.
fn answer_kind(operation: OpName) -> Kind
    ensures { result ≡ kinds.answer_kind operation }
{
    match operation {
        OpName::ConsoleRead => Kind::Texts,
        OpName::ConsoleWrite => Kind::Units,
        OpName::FolderRead => Kind::Texts,
        OpName::FolderHas => Kind::Truths,
        OpName::FolderWrite => Kind::Units,
        OpName::FolderAppend => Kind::Units,
        OpName::FolderNames => Kind::Texts,
        OpName::ClockNow => Kind::Ints,
        OpName::RandomWord => Kind::Ints,
        OpName::FolderRemove => Kind::Units,
    }
}

/// Returns the number of an operation's member among those of its primitive type. Takes no memory.
fn member_number(operation: OpName) -> u32
    ensures exact { result ≡ kinds.member_number operation }
    ensures small { result < 8 }
{
    match operation {
        OpName::ConsoleRead => 0,
        OpName::ConsoleWrite => 1,
        OpName::FolderRead => 0,
        OpName::FolderHas => 0,
        OpName::FolderWrite => 1,
        OpName::FolderAppend => 2,
        OpName::FolderNames => 3,
        OpName::ClockNow => 0,
        OpName::RandomWord => 0,
        OpName::FolderRemove => 4,
    }
}

/// Returns the set of one atom. Takes no memory.
fn set_alone(atom: Atom) -> NumberSet
    requires { IsSmall atom }
    ensures { result ≡ effect_numbers (atom ∷ []) }
{
    let mut set = NumberSet::empty();
    set.insert(number_of(atom));
    set
}

impl<'a> FoundMethod<'a> {
    /// Returns the number of its parameters. Takes no memory.
    pub fn parameter_count(&self) -> usize
        ensures { result ≡ length self.now.params }
    {
        match self.found {
            Found::Listed(signature, _) => signature.parameters.len(),
            Found::Stated(_, bounds, _) => bounds.parameters.len(),
            Found::Operation(_, operation) => text_count(operation),
        }
    }

    /// Returns the type of the parameter of a number, from 0. Takes no memory.
    pub fn parameter(&self, at: usize) -> Kind
        requires { at < length self.now.params }
        ensures { slice_get self.now.params at ≡ Some result }
    {
        match self.found {
            Found::Listed(signature, _) => plain_kind(0, *item_at(&signature.parameters, at)),
            Found::Stated(instance, bounds, _) => {
                plain_kind(instance, *item_at(&bounds.parameters, at))
            }
            Found::Operation(_, _) => Kind::Texts,
        }
    }

    /// Returns the type of its result. Takes no memory.
    pub fn result(&self) -> Kind
        ensures { result ≡ self.now.result }
    {
        match self.found {
            Found::Listed(signature, _) => plain_kind(0, signature.result),
            Found::Stated(instance, bounds, _) => plain_kind(instance, bounds.result),
            Found::Operation(_, operation) => answer_kind(operation),
        }
    }

    /// Returns the set of its effect. Takes no memory.
    fn effect_set(&self) -> NumberSet
        ensures numbers { result ≡ effect_numbers self.now.effect }
        ensures small { AreSmall self.now.effect }
    {
        match self.found {
            Found::Listed(_, set) => set.copy(),
            Found::Stated(_, _, set) => set.copy(),
            Found::Operation(grant, operation) => set_alone(Atom {
                grant,
                member: member_number(operation),
            }),
        }
    }

    /// Returns whether each atom of its effect is in an effect. Takes no memory.
    pub fn is_within(&self, effect: &Effect<'_>) -> bool
        ensures { IsTrue result ↔ Within self.now.effect effect.now }
    {
        effect.has_all(&self.effect_set())
    }

    /// Returns whether each atom of its effect is in the effect of another method. Takes no memory.
    pub fn is_within_method(&self, other: &FoundMethod<'_>) -> bool
        ensures { IsTrue result ↔ Within self.now.effect other.now.effect }
    {
        other.effect_set().includes(&self.effect_set())
    }
}

impl<'a> Judged<'a> {
    /// Returns the method of a number of a listed type.
    fn listed_method(&self, listed: u32, number: u32) -> Option<FoundMethod<'_>>
        ensures { result ≡ kinds.listed_method (slice_get self.now.types listed) number }
    {
        let entry = self.tables.listed.find(listed, number)?;
        let signatures = self.file.types.get(listed as usize)?;
        let signature = signatures.get(entry.place as usize)?;
        Some(FoundMethod {
            found: Found::Listed(signature, &entry.effect),
        })
    }

    /// Returns what an instance states of a body, as a method.
    fn stated_method(&self, instance: u32, body: u32) -> Option<FoundMethod<'_>>
        ensures { result ≡ kinds.bounds_method instance (kinds.stated self.now instance body) }
    {
        let entry = self.tables.stated.find(instance, body)?;
        let typing = self.typing(instance)?;
        let bounds = typing.bodies.get(entry.place as usize)?;
        Some(FoundMethod {
            found: Found::Stated(instance, bounds, &entry.effect),
        })
    }

    /// Returns the number of the scope of an instance; the program comes after the instances.
    fn scope_number(&self, instance: u32) -> Option<u32>
        ensures { (l : ℕ) → literal_of self.now.code instance l ≡ literal_by self.now.code result l }
    {
        let instances = &self.code.instances;
        let at = instance as usize;
        if at == instances.len() {
            return Some(self.code.main.scope);
        }
        match instances.get(at) {
            Some(instance) => Some(instance.scope),
            None => None,
        }
    }

    /// Returns the body that a method of an object's literal has.
    fn body_called(&self, instance: u32, literal: u32, number: u32) -> Option<u32>
        ensures { result ≡ body_by (literal_of self.now.code instance literal) number }
    {
        let scope = self.scope_number(instance)?;
        self.tables.called.find(scope, literal, number)
    }

    /// Returns the method of a number of the objects of an instance and a literal.
    fn own_method(&self, instance: u32, literal: u32, number: u32) -> Option<FoundMethod<'_>>
        ensures { result ≡ kinds.own_method self.now instance (literal_of self.now.code instance literal) number }
    {
        let body = self.body_called(instance, literal, number)?;
        self.stated_method(instance, body)
    }

    /// Returns the name of a number, among the file's names and those of primitive types.
    fn name_at(&self, number: u32) -> Option<&Text>
        ensures { option_copied result ≡ slice_get self.now.names number }
    {
        let names = &self.file.methods;
        let at = number as usize;
        if at < names.len() {
            names.get(at)
        } else {
            self.tables.more.get(at - names.len())
        }
    }

    /// Returns the method of a number of a grant.
    fn granted_method(&self, grant: u32, number: u32) -> Option<FoundMethod<'_>>
        ensures { result ≡ kinds.methods self.now (Kind.Granted grant) number }
    {
        let primitive = self.code.grants.get(grant as usize)?.primitive;
        let name = self.name_at(number)?;
        let operation = operation_called(primitive, name.as_bytes())?;
        Some(FoundMethod {
            found: Found::Operation(grant, operation),
        })
    }

    /// Returns the method of a number of a type, if it has one, in constant time. Takes no memory.
    pub fn method(&self, kind: Kind, number: u32) -> Option<FoundMethod<'_>>
        ensures { result ≡ kinds.methods self.now kind number }
    {
        match kind {
            Kind::Named(listed) => self.listed_method(listed, number),
            Kind::Own(instance, literal) => self.own_method(instance, literal, number),
            Kind::Granted(grant) => self.granted_method(grant, number),
            Kind::Ints | Kind::Truths | Kind::Texts | Kind::Units => None,
        }
    }

    /// Returns the number of the method at a place of a listed type.
    fn listed_number(&self, listed: u32, at: usize) -> Option<u32>
        ensures { result ≡ slice_get (listed_numbers (slice_get self.now.types listed)) at }
    {
        let signatures = self.file.types.get(listed as usize)?;
        let signature = signatures.get(at)?;
        Some(signature.method)
    }

    /// Returns a literal of an instance's scope.
    fn literal(&self, instance: u32, literal: u32) -> Option<&Literal>
        ensures { option_copied result ≡ literal_of self.now.code instance literal }
    {
        let scope = self.scope_number(instance)?;
        let scope = self.code.scopes.get(scope as usize)?;
        scope.literals.get(literal as usize)
    }

    /// Returns the number of the method at a place of a literal.
    fn own_number(&self, instance: u32, literal: u32, at: usize) -> Option<u32>
        ensures { result ≡ slice_get (literal_numbers (literal_of self.now.code instance literal)) at }
    {
        let literal = self.literal(instance, literal)?;
        let method = literal.methods.get(at)?;
        Some(method.method)
    }

    /// Returns the number at a place of the numbers that a type's methods may have. Takes no memory.
    pub(crate) fn number_at(&self, kind: Kind, at: usize) -> Option<u32>
        ensures { result ≡ slice_get (kind_numbers self.now kind) at }
    {
        match kind {
            Kind::Named(listed) => self.listed_number(listed, at),
            Kind::Own(instance, literal) => self.own_number(instance, literal, at),
            Kind::Granted(_) => self.tables.granted.get(at).copied(),
            Kind::Ints | Kind::Truths | Kind::Texts | Kind::Units => None,
        }
    }
}
