//! Lookup tables of the methods of types and of the bodies of instances.

ghost use Rattle.std.specs.Prelude.{◌≡◌, ◌++◌, ◌∷◌, [], ◌<◌, ℕ, List, IfOk, OnOk, Some, length, slice_get};
ghost use Rattle.wy_image.specs.declared.typing.Bounds.{Bounds};
ghost use Rattle.wy_image.specs.declared.typing.Signature.{Signature};
ghost use Rattle.wy_image.specs.declared.typing.Typing.{Typing};
ghost use Rattle.std.specs.Option.{option_copied};
ghost use Rattle.indexmap.specs.IndexMap.{get};
ghost use Rattle.wy_verified.specs.CodeOf.{typings_of};
ghost use Rattle.wy_verified.specs.Ranges.{entry_roles, literal_roles};
ghost use Rattle.wy_verify.specs.Effects.{AreSmall};
ghost use Rattle.wy_verify.specs.Tables.{AddsBodies, AddsPlaces, Tells, entry_of, same_pair, same_triple};
ghost use Rattle.wy_verify.specs.Tables.{literals_notes, methods_notes, scopes_notes};
ghost use Rattle.wy_verify.specs.Tables.{AddsOwners, code_roles, owners_notes, role_notes};
ghost use Rattle.wy_verify.specs.Tables.{SmallBounds, SmallSignatures, SmallTypes, SmallTypings};
ghost use Rattle.wy_verify.specs.Tables.{bounds_notes, signatures_notes, types_notes, typings_in, typings_notes};

use crate::effects::set_of;
use indexmap::IndexMap;
use std::alloc::Global;
use wy_code::code::{Literal, Method, Scope};
use wy_image::{Atom, Bounds, ImageFile, Instance, Listed};
use wy_lanes::number_set::NumberSet;
use wy_text::list::Items;
use wy_text::text::Memory;

/// The place of a method in a listed type, or of a body among those of an instance, and the set of its effect.
#[derive(Drop)]
pub(crate) struct Entry {
    pub(crate) place: u32,
    pub(crate) effect: NumberSet,
}

/// Returns a number as tables have it.
pub(crate) fn word(number: usize) -> Result<u32, Memory>
    ensures { IfOk result (λ n. n ≡ number) }
{
    match u32::try_from(number) {
        Ok(word) => Ok(word),
        Err(_) => Err(Memory),
    }
}

/// Returns the item of a number. Takes no memory.
pub(crate) fn item_at<X>(items: &Items<X>, at: usize) -> &X
    requires { at < length items.now }
    ensures { slice_get items.now at ≡ Some result.now }
{
    &items.as_slice()[at]
}

// ----------------------------------------------------------------------------
// Places and effects

/// The place of the first method of each number of each type, or of the first body of each number of each instance.
#[derive(Drop)]
pub(crate) struct Places {
    entries: IndexMap<(u32, u32), Entry>,
}

impl Places {
    /// Makes an empty table. Takes no memory.
    fn new(alloc: Global) -> Places
        ensures { Tells same_pair result.entries [] }
    {
        Places {
            entries: IndexMap::new(alloc),
        }
    }

    /// Notes a place, unless the key has one.
    fn note(
        &mut self,
        row: u32,
        number: u32,
        place: u32,
        effect: &Items<Atom>,
    ) -> Result<(), Memory>
        requires { AreSmall effect.now }
        ensures { OnOk result (AddsPlaces self.old self.new (((row, number), entry_of place effect.now) ∷ [])) }
    {
        let key = (row, number);
        if !self.entries.contains_key(&key) {
            let effect = set_of(effect);
            self.entries.insert(key, Entry { place, effect })?;
        }
        Ok(())
    }

    /// Notes the methods of a type.
    fn add_type(&mut self, row: u32, methods: &Listed) -> Result<(), Memory>
        requires { SmallSignatures methods.now }
        ensures { OnOk result (AddsPlaces self.old self.new (signatures_notes row 0 methods.now)) }
    {
        for at in 0..methods.len() {
            let method = item_at(methods, at);
            self.note(row, method.method, word(at)?, &method.effect)?;
        }
        Ok(())
    }

    /// Notes the methods of types.
    fn add_types(&mut self, types: &Items<Listed>) -> Result<(), Memory>
        requires { SmallTypes types.now }
        ensures { OnOk result (AddsPlaces self.old self.new (types_notes 0 types.now)) }
    {
        for at in 0..types.len() {
            self.add_type(word(at)?, item_at(types, at))?;
        }
        Ok(())
    }

    /// Notes the bodies of an instance.
    fn add_bodies(&mut self, row: u32, bodies: &Items<Bounds>) -> Result<(), Memory>
        requires { SmallBounds bodies.now }
        ensures { OnOk result (AddsPlaces self.old self.new (bounds_notes row 0 bodies.now)) }
    {
        for at in 0..bodies.len() {
            let bounds = item_at(bodies, at);
            self.note(row, bounds.body, word(at)?, &bounds.effect)?;
        }
        Ok(())
    }

    /// Notes the bodies of instances.
    fn add_instances(&mut self, instances: &Items<Instance>) -> Result<(), Memory>
        requires { SmallTypings (typings_in instances.now) }
        ensures { OnOk result (AddsPlaces self.old self.new (typings_notes 0 (typings_in instances.now))) }
    {
        for at in 0..instances.len() {
            let instance = item_at(instances, at);
            self.add_bodies(word(at)?, &instance.typing.bodies)?;
        }
        Ok(())
    }

    /// Notes the bodies of a file's instances and of its program.
    fn add_typings(&mut self, file: &ImageFile) -> Result<(), Memory>
        requires { SmallTypings (typings_of file.now) }
        ensures { OnOk result (AddsPlaces self.old self.new (typings_notes 0 (typings_of file.now))) }
    {
        self.add_instances(&file.instances)?;
        self.add_bodies(word(file.instances.len())?, &file.main.typing.bodies)
    }

    /// Makes the table of the methods of types.
    pub(crate) fn of_types(alloc: Global, types: &Items<Listed>) -> Result<Places, Memory>
        requires { SmallTypes types.now }
        ensures { IfOk result (λ p. Tells same_pair p.entries (types_notes 0 types.now)) }
    {
        let mut places = Places::new(alloc);
        places.add_types(types)?;
        Ok(places)
    }

    /// Makes the table of the bodies of a file's instances and of its program.
    pub(crate) fn of_typings(alloc: Global, file: &ImageFile) -> Result<Places, Memory>
        requires { SmallTypings (typings_of file.now) }
        ensures { IfOk result (λ p. Tells same_pair p.entries (typings_notes 0 (typings_of file.now))) }
    {
        let mut places = Places::new(alloc);
        places.add_typings(file)?;
        Ok(places)
    }

    /// Returns the place and the effect that were noted first. Takes no memory.
    pub(crate) fn find(&self, row: u32, number: u32) -> Option<&Entry>
        ensures { option_copied result ≡ get same_pair self.now.entries (row, number) }
    {
        self.entries.get(&(row, number))
    }
}

// ----------------------------------------------------------------------------
// Bodies

/// The body of the first method of each number of each literal.
#[derive(Drop)]
pub(crate) struct Called {
    bodies: IndexMap<(u32, u32, u32), u32>,
}

impl Called {
    /// Makes an empty table. Takes no memory.
    fn new(alloc: Global) -> Called
        ensures { Tells same_triple result.bodies [] }
    {
        Called {
            bodies: IndexMap::new(alloc),
        }
    }

    /// Notes a method, unless its number has one.
    fn note(&mut self, scope: u32, literal: u32, method: Method) -> Result<(), Memory>
        ensures { OnOk result (AddsBodies self.old self.new (((scope, literal, method.method), method.body) ∷ [])) }
    {
        let key = (scope, literal, method.method);
        if !self.bodies.contains_key(&key) {
            self.bodies.insert(key, method.body)?;
        }
        Ok(())
    }

    /// Notes the methods of a literal.
    fn add_literal(
        &mut self,
        scope: u32,
        literal: u32,
        methods: &Items<Method>,
    ) -> Result<(), Memory>
        ensures { OnOk result (AddsBodies self.old self.new (methods_notes scope literal methods.now)) }
    {
        for at in 0..methods.len() {
            self.note(scope, literal, *item_at(methods, at))?;
        }
        Ok(())
    }

    /// Notes the methods of the literals of a scope.
    fn add_scope(&mut self, scope: u32, literals: &Items<Literal>) -> Result<(), Memory>
        ensures { OnOk result (AddsBodies self.old self.new (literals_notes scope 0 literals.now)) }
    {
        for at in 0..literals.len() {
            self.add_literal(scope, word(at)?, &item_at(literals, at).methods)?;
        }
        Ok(())
    }

    /// Notes the methods of scopes.
    fn add_scopes(&mut self, scopes: &Items<Scope>) -> Result<(), Memory>
        ensures { OnOk result (AddsBodies self.old self.new (scopes_notes 0 scopes.now)) }
    {
        for at in 0..scopes.len() {
            self.add_scope(word(at)?, &item_at(scopes, at).literals)?;
        }
        Ok(())
    }

    /// Makes the table of the methods of scopes.
    pub(crate) fn of_scopes(alloc: Global, scopes: &Items<Scope>) -> Result<Called, Memory>
        ensures { IfOk result (λ c. Tells same_triple c.bodies (scopes_notes 0 scopes.now)) }
    {
        let mut called = Called::new(alloc);
        called.add_scopes(scopes)?;
        Ok(called)
    }

    /// Returns the body that was noted first. Takes no memory.
    pub(crate) fn find(&self, scope: u32, literal: u32, method: u32) -> Option<u32>
        ensures { result ≡ get same_triple self.now.bodies (scope, literal, method) }
    {
        self.bodies.get(&(scope, literal, method)).copied()
    }
}

// ----------------------------------------------------------------------------
// Owners

/// The owner of the first body of each number of each scope.
#[derive(Drop)]
pub(crate) struct Owners {
    owners: IndexMap<(u32, u32), Option<u32>>,
}

impl Owners {
    /// Makes an empty table. Takes no memory.
    fn new(alloc: Global) -> Owners
        ensures { Tells same_pair result.owners [] }
    {
        Owners {
            owners: IndexMap::new(alloc),
        }
    }

    /// Notes the owner of a body, unless it has one.
    fn note(&mut self, scope: u32, body: u32, owner: Option<u32>) -> Result<(), Memory>
        ensures { OnOk result (AddsOwners self.old self.new (role_notes scope ((owner, body) ∷ []))) }
    {
        let key = (scope, body);
        if !self.owners.contains_key(&key) {
            self.owners.insert(key, owner)?;
        }
        Ok(())
    }

    /// Notes the bodies of the methods of a literal.
    fn add_methods(
        &mut self,
        scope: u32,
        literal: u32,
        methods: &Items<Method>,
    ) -> Result<(), Memory>
        ensures { OnOk result (AddsOwners self.old self.new (role_notes scope (entry_roles literal methods.now))) }
    {
        for at in 0..methods.len() {
            self.note(scope, item_at(methods, at).body, Some(literal))?;
        }
        Ok(())
    }

    /// Notes the bodies of the methods of literals.
    fn add_literals(&mut self, scope: u32, literals: &Items<Literal>) -> Result<(), Memory>
        ensures { OnOk result (AddsOwners self.old self.new (role_notes scope (literal_roles 0 literals.now))) }
    {
        for at in 0..literals.len() {
            self.add_methods(scope, word(at)?, &item_at(literals, at).methods)?;
        }
        Ok(())
    }

    /// Notes the bodies of a scope: the first one, and the methods.
    fn add_scope(&mut self, number: u32, scope: &Scope) -> Result<(), Memory>
        ensures { OnOk result (AddsOwners self.old self.new (role_notes number (code_roles scope.now))) }
    {
        self.note(number, scope.start, None)?;
        self.add_literals(number, &scope.literals)
    }

    /// Notes the bodies of scopes.
    fn add_scopes(&mut self, scopes: &Items<Scope>) -> Result<(), Memory>
        ensures { OnOk result (AddsOwners self.old self.new (owners_notes 0 scopes.now)) }
    {
        for at in 0..scopes.len() {
            self.add_scope(word(at)?, item_at(scopes, at))?;
        }
        Ok(())
    }

    /// Makes the table of the owners of the bodies of scopes.
    pub(crate) fn of_scopes(alloc: Global, scopes: &Items<Scope>) -> Result<Owners, Memory>
        ensures { IfOk result (λ o. Tells same_pair o.owners (owners_notes 0 scopes.now)) }
    {
        let mut owners = Owners::new(alloc);
        owners.add_scopes(scopes)?;
        Ok(owners)
    }

    /// Returns the owner that was noted first. Takes no memory.
    pub(crate) fn find(&self, scope: u32, body: u32) -> Option<Option<u32>>
        ensures { result ≡ get same_pair self.now.owners (scope, body) }
    {
        self.owners.get(&(scope, body)).copied()
    }
}
