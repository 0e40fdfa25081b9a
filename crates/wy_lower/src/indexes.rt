//! The tables of texts and of method names, and those of `val`s and captured variables, in which the place of each is found
//! at once.

ghost use Rattle.std.specs.Prelude.{◌≡◌, ◌+◌, ◌∷◌, [], ℕ, Bool, length, nat_eq, IfOk, OnOk};
ghost use Rattle.std.specs.List.{position_from};
ghost use Rattle.indexmap.specs.IndexMap.{get};
ghost use Rattle.wy_lower.specs.Capped.{capped};
ghost use Rattle.wy_lower.specs.Parts.{each_once_after, number_in};
ghost use Rattle.wy_lower.specs.Inside.{place_from, is_val, capture_from};
ghost use Rattle.wy_lower.specs.EmitIndexes.{key_of, same_key};

use indexmap::{IndexMap, IndexSet};
use std::alloc::Global;
use std::marker::Model;
use wy_text::list::Items;
use wy_text::text::{Memory, Text};
use wy_types::code::Variable;

/// A number as the code has it.
pub(crate) fn word(number: usize) -> Result<u32, Memory>
    ensures exact { IfOk result (λ n. n ≡ number) }
    ensures summed { (sum : ℕ) → number ≡ capped sum → IfOk result (λ n. n ≡ sum) }
{
    match u32::try_from(number) {
        Ok(word) => Ok(word),
        Err(_) => Err(Memory),
    }
}

/// The sum of two numbers, or the greatest number if that is less.
pub(crate) fn sum(first: usize, second: usize) -> usize
    ensures { result ≡ capped (first + second) }
{
    first.saturating_add(second)
}

// ----------------------------------------------------------------------------
// Texts, each once

/// Puts a text at the end of a table, unless it stands there.
pub(crate) fn put_text(table: &mut IndexSet<Text>, text: &Text) -> Result<(), Memory>
    ensures { OnOk result (table.new.keys ≡ each_once_after table.old.keys (text.now ∷ [])) }
{
    if !table.contains(text) {
        table.insert(text.copy()?)?;
    }
    Ok(())
}

/// The place of a text in a table.
pub(crate) fn place_in(table: &IndexSet<Text>, text: &Text) -> usize
    ensures { result ≡ number_in table.now.keys text.now }
{
    match table.get_index_of(text) {
        Some(place) => place,
        None => table.len(),
    }
}

/// The number of a text in a table.
pub(crate) fn number_in(table: &IndexSet<Text>, text: &Text) -> Result<u32, Memory>
    ensures { IfOk result (λ n. n ≡ number_in table.now.keys text.now) }
{
    word(place_in(table, text))
}

/// Adds the texts of a table, in order.
pub(crate) fn add_texts(table: &IndexSet<Text>, texts: &mut Items<Text>) -> Result<(), Memory>
    requires { texts.old ≡ [] }
    ensures { OnOk result (texts.new ≡ table.now.keys) }
{
    for text in table.as_slice() {
        texts.push(text.copy()?)?;
    }
    Ok(())
}

// ----------------------------------------------------------------------------
// Places of `val`s

/// The place of the first of each number in a list.
fn val_places(alloc: Global, numbers: &[u32]) -> Result<IndexMap<u32, usize>, Memory>
    ensures { IfOk result (λ m. (n : ℕ) → get nat_eq m n ≡ position_from (λ k. nat_eq k n) 0 numbers.now) }
{
    let mut places = IndexMap::new(alloc);
    for i in 0..numbers.len() {
        let number = numbers[i];
        if !places.contains_key(&number) {
            places.insert(number, i)?;
        }
    }
    Ok(places)
}

/// The `val`s of a body by their numbers in the scope, in their order.
#[derive(Drop)]
pub(crate) struct Vals {
    numbers: Vec<u32>,
    places: IndexMap<u32, usize>,
}

impl Model for Vals {
    ghost use Rattle.std.specs.Prelude.{◌≡◌, ℕ, List, nat_eq};
    ghost use Rattle.std.specs.List.{position_from};
    ghost use Rattle.indexmap.specs.IndexMap.{get};

    ghost Value = { List ℕ };

    ghost view = { λ v. v.numbers.items };

    ghost invariant = { λ v. (n : ℕ) → get nat_eq v.places n ≡ position_from (λ k. nat_eq k n) 0 v.numbers.items };
}

impl Vals {
    /// The `val`s of these numbers.
    pub(crate) fn new(alloc: Global, numbers: Vec<u32>) -> Result<Vals, Memory>
        ensures { IfOk result (λ v. v ≡ numbers.items) }
    {
        let places = val_places(alloc, &numbers)?;
        Ok(Vals { numbers, places })
    }

    /// How many there are.
    pub(crate) fn len(&self) -> usize
        ensures { result ≡ length self.now }
    {
        self.numbers.len()
    }

    /// Whether there is one of this number.
    pub(crate) fn has(&self, number: u32) -> bool
        ensures { result ≡ is_val number self.now }
    {
        self.places.contains_key(&number)
    }

    /// The place of the one of this number.
    pub(crate) fn place(&self, number: u32) -> usize
        ensures { result ≡ place_from 0 number self.now }
    {
        self.places
            .get(&number)
            .copied()
            .unwrap_or(self.numbers.len())
    }
}

// ----------------------------------------------------------------------------
// Places of captured variables

/// A variable as a table's key: whether it is a parameter, its body's number or its own, and its index.
type Key = (bool, u32, u16);

/// A variable as a table's key.
fn key_of(variable: Variable) -> Key
    ensures { result ≡ key_of variable }
{
    match variable {
        Variable::Parameter { body, index } => (true, body, index),
        Variable::Local(number) => (false, number, 0),
    }
}

/// The place of the first variable of each key in a list.
fn capture_places(alloc: Global, variables: &[Variable]) -> Result<IndexMap<Key, usize>, Memory>
    ensures { IfOk result (λ m. (q : Bool × ℕ × ℕ) → get same_key m q ≡ position_from (λ y. same_key (key_of y) q) 0 variables.now) }
{
    let mut places = IndexMap::new(alloc);
    for i in 0..variables.len() {
        let key = key_of(variables[i]);
        if !places.contains_key(&key) {
            places.insert(key, i)?;
        }
    }
    Ok(places)
}

/// The variables that a literal captures, in their order.
#[derive(Drop)]
pub(crate) struct Captures {
    variables: Vec<Variable>,
    places: IndexMap<Key, usize>,
}

impl Model for Captures {
    ghost use Rattle.std.specs.Prelude.{◌≡◌, ℕ, Bool, List};
    ghost use Rattle.std.specs.List.{position_from};
    ghost use Rattle.indexmap.specs.IndexMap.{get};
    ghost use Rattle.wy_types.specs.declared.code.Variable.{Variable};
    ghost use Rattle.wy_lower.specs.EmitIndexes.{key_of, same_key};

    ghost Value = { List Variable };

    ghost view = { λ c. c.variables.items };

    ghost invariant = { λ c. (q : Bool × ℕ × ℕ) → get same_key c.places q ≡ position_from (λ y. same_key (key_of y) q) 0 c.variables.items };
}

impl Captures {
    /// No variables. It takes no memory.
    pub(crate) fn none(alloc: Global) -> Captures
        ensures { result ≡ [] }
    {
        Captures {
            variables: Vec::new(alloc),
            places: IndexMap::new(alloc),
        }
    }

    /// These variables.
    pub(crate) fn new(alloc: Global, captured: &[Variable]) -> Result<Captures, Memory>
        ensures { IfOk result (λ c. c ≡ captured.now) }
    {
        let variables = Vec::from_slice(alloc, captured)?;
        let places = capture_places(alloc, captured)?;
        Ok(Captures { variables, places })
    }

    /// How many there are.
    pub(crate) fn len(&self) -> usize
        ensures { result ≡ length self.now }
    {
        self.variables.len()
    }

    /// The place of a variable.
    pub(crate) fn place(&self, variable: Variable) -> usize
        ensures { result ≡ capture_from 0 variable self.now }
    {
        let key = key_of(variable);
        self.places
            .get(&key)
            .copied()
            .unwrap_or(self.variables.len())
    }
}
