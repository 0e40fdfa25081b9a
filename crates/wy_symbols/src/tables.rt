//! Tables of names.

ghost use Rattle.std.specs.Prelude.{◌≡◌, ◌||◌, ◌<◌, ◌∷◌, ◌++◌, [], ℕ, List, map, length, is_some, IfOk, OnOk, IfSome, if◌then◌else◌};
ghost use Rattle.indexmap.specs.IndexMap.{get};
ghost use Rattle.wy_symbols.specs.Least.{noted, refusal_at};
ghost use Rattle.wy_symbols.specs.Declarations.{same_name, first_from, has_name, repeated, texts};
ghost use Rattle.wy_symbols.specs.declared.refusal.Cause.TheVariants.{Twice};

use crate::naming::Named;
use crate::noting::note_at;
use crate::refusal::{Cause, Refusal};
use indexmap::IndexMap;
use std::alloc::Global;
use std::marker::Model;
use wy_syntax::types::Name;
use wy_text::text::{Memory, Text};

/// The number of the first of each name.
pub fn first_numbers(alloc: Global, names: &[Text]) -> Result<IndexMap<Text, usize>, Memory>
    ensures { IfOk result (λ m. (x : List ℕ) → get same_name m x ≡ first_from 0 names.now x) }
{
    let mut map = IndexMap::new(alloc);
    for i in 0..names.len() {
        let name = &names[i];
        if !map.contains_key(name) {
            map.insert(name.copy()?, i)?;
        }
    }
    Ok(map)
}

/// Whether a name was there before; it is there afterwards.
fn put_name(seen: &mut IndexMap<Text, ()>, name: &Text) -> Result<bool, Memory>
    ensures was { IfOk result (λ b. b ≡ is_some (get same_name seen.old name.now)) }
    ensures is { OnOk result ((x : List ℕ) → is_some (get same_name seen.new x) ≡ is_some (get same_name seen.old x) || same_name name.now x) }
{
    if seen.contains_key(name) {
        return Ok(true);
    }
    seen.insert(name.copy()?, ())?;
    Ok(false)
}

/// The names of a list as a table.
fn names_seen(alloc: Global, names: &[Text]) -> Result<IndexMap<Text, ()>, Memory>
    ensures { IfOk result (λ m. (x : List ℕ) → is_some (get same_name m x) ≡ has_name x names.now) }
{
    let mut seen = IndexMap::new(alloc);
    for name in names {
        put_name(&mut seen, name)?;
    }
    Ok(seen)
}

/// Notes Twice at each name that repeats one before it, in its list or in another.
pub fn note_repeated<T: Named>(
    alloc: Global,
    before: &[Text],
    things: &[T],
    least: &mut Option<Refusal>,
) -> Result<(), Memory>
    ensures { OnOk result (least.new ≡ noted least.old (repeated before.now (map T.name_of things.now))) }
{
    let mut seen = names_seen(alloc, before)?;
    for thing in things {
        note_name(&mut seen, thing.name(), least)?;
    }
    Ok(())
}

/// Notes Twice at a name that was there before; it is there afterwards.
fn note_name(
    seen: &mut IndexMap<Text, ()>,
    name: &Name,
    least: &mut Option<Refusal>,
) -> Result<(), Memory>
    ensures is { OnOk result ((x : List ℕ) → is_some (get same_name seen.new x) ≡ is_some (get same_name seen.old x) || same_name name.now.text x) }
    ensures noted { OnOk result (least.new ≡ noted least.old (if is_some (get same_name seen.old name.now.text) then refusal_at name.now.place Twice ∷ [] else [])) }
{
    if put_name(seen, &name.text)? {
        note_at(least, name.place, Cause::Twice);
    }
    Ok(())
}

/// Names in their order, and the number of the first of each.
#[derive(Drop)]
pub struct Table {
    names: Vec<Text>,
    numbers: IndexMap<Text, usize>,
}

impl Model for Table {
    ghost use Rattle.std.specs.Prelude.{◌≡◌, ℕ, List};
    ghost use Rattle.indexmap.specs.IndexMap.{get};
    ghost use Rattle.wy_symbols.specs.Declarations.{same_name, first_from};

    ghost Value = { List (List ℕ) };

    ghost view = { λ t. t.names.items };

    ghost invariant = { λ t. (x : List ℕ) → get same_name t.numbers x ≡ first_from 0 t.names.items x };
}

impl Table {
    /// The table of these names.
    pub fn new(alloc: Global, names: Vec<Text>) -> Result<Table, Memory>
        ensures { IfOk result (λ t. t ≡ names.items) }
    {
        let numbers = first_numbers(alloc, &names)?;
        Ok(Table { names, numbers })
    }

    /// How many names there are. It takes no memory.
    pub fn len(&self) -> usize
        ensures { result ≡ length self.now }
    {
        self.names.len()
    }

    /// The number of the first of a name. It takes no memory.
    pub fn number(&self, name: &Text) -> Option<usize>
        ensures value { result ≡ first_from 0 self.now name.now }
        ensures within { IfSome result (λ k. k < length self.now) }
    {
        self.numbers.get(name).copied()
    }
}

/// Adds the names of things.
pub fn add_texts<T: Named>(names: &mut Vec<Text>, things: &[T]) -> Result<(), Memory>
    ensures { OnOk result (names.new.items ≡ names.old.items ++ texts (map T.name_of things.now)) }
{
    for thing in things {
        names.push(thing.name().text.copy()?)?;
    }
    Ok(())
}

/// The names of things as a table.
pub fn name_table<T: Named>(alloc: Global, things: &[T]) -> Result<Table, Memory>
    ensures { IfOk result (λ t. t ≡ texts (map T.name_of things.now)) }
{
    let mut names = Vec::new(alloc);
    add_texts(&mut names, things)?;
    Table::new(alloc, names)
}
