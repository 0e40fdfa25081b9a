//! Tables by the number of a body, each made once.

ghost use Rattle.std.specs.Prelude.{◌≡◌, ◌↔◌, ℕ, max, IsTrue, IfOk, OnOk, map, nat_eq, slice_get};
ghost use Rattle.indexmap.specs.IndexMap.{get};
ghost use Rattle.wy_image.specs.declared.file.Body.{Body};
ghost use Rattle.wy_image.specs.declared.file.ImageFile.{ImageFile};
ghost use Rattle.wy_image.specs.declared.file.Instance.{Instance};
ghost use Rattle.wy_verified.specs.CodeOf.{name_by, typings_of};
ghost use Rattle.wy_verified.specs.Kinds.{stated_in};
ghost use Rattle.wy_verify.specs.RangeParts.{AreTablesOf, first_name, last_stored, name_at, or_empty, or_other, slot_stored_by, stated_name, vals_in};

use indexmap::IndexMap;
use std::alloc::Global;
use wy_image::{Body, Bounds, ImageFile, Instance, Instruction, Row};
use wy_text::text::{Memory, Text, from_bytes};

/// What is found by the number of a body: how many `val`s it has, and the name that is stated of it.
#[derive(Drop)]
pub(crate) struct Tables {
    pub vals: Vec<u32>,
    pub names: IndexMap<u32, Text>,
}

/// Returns the slot that an instruction stores into, or 0.
fn slot_stored_by(instruction: &Instruction) -> u32
    ensures { result ≡ slot_stored_by instruction.now }
{
    match instruction {
        Instruction::Store(slot) => *slot,
        _ => 0,
    }
}

/// Returns the greater of two numbers.
fn greater(first: u32, second: u32) -> u32
    ensures { result ≡ max first second }
{
    if first < second { second } else { first }
}

/// Returns the greatest slot that rows store into, or 0.
fn last_stored(rows: &[Row]) -> u32
    ensures { result ≡ last_stored rows.now }
{
    let mut last = 0;
    for row in rows {
        last = greater(slot_stored_by(&row.instruction), last);
    }
    last
}

/// Returns how many `val`s a body has: the slots behind its parameters, up to the last one that is stored into.
fn vals_in(body: &Body) -> u32
    ensures { result ≡ vals_in body.now }
{
    last_stored(body.rows.as_slice()).saturating_sub(body.parameters)
}

/// Returns how many `val`s each body has.
fn vals_of(alloc: Global, bodies: &[Body]) -> Result<Vec<u32>, Memory>
    ensures { IfOk result (λ v. v.items ≡ map vals_in bodies.now) }
{
    let mut vals = Vec::new(alloc);
    for body in bodies {
        vals.push(vals_in(body))?;
    }
    Ok(vals)
}

/// Adds the name that is stated of a body, unless it has one.
fn add_name(names: &mut IndexMap<u32, Text>, bounds: &Bounds) -> Result<(), Memory>
    ensures { OnOk result ((b : ℕ) → get nat_eq names.new b ≡ or_other (get nat_eq names.old b) (name_at bounds.now b)) }
{
    if !names.contains_key(&bounds.body) {
        names.insert(bounds.body, bounds.name.copy()?)?;
    }
    Ok(())
}

/// Adds the names that are stated of bodies, each unless it has one.
fn add_names(names: &mut IndexMap<u32, Text>, bodies: &[Bounds]) -> Result<(), Memory>
    ensures { OnOk result ((b : ℕ) → get nat_eq names.new b ≡ or_other (get nat_eq names.old b) (stated_name (stated_in b bodies.now))) }
{
    for bounds in bodies {
        add_name(names, bounds)?;
    }
    Ok(())
}

/// Adds the names that instances state, each unless its body has one.
fn add_instances(names: &mut IndexMap<u32, Text>, instances: &[Instance]) -> Result<(), Memory>
    ensures { OnOk result ((b : ℕ) → get nat_eq names.new b ≡ or_other (get nat_eq names.old b) (first_name b (map (λ (i : Instance). i.typing) instances.now))) }
{
    for instance in instances {
        add_names(names, instance.typing.bodies.as_slice())?;
    }
    Ok(())
}

/// Returns the names that are stated first.
fn names_of(alloc: Global, file: &ImageFile) -> Result<IndexMap<u32, Text>, Memory>
    ensures { IfOk result (λ m. (b : ℕ) → or_empty (get nat_eq m b) ≡ name_by (typings_of file.now) b) }
{
    let mut names = IndexMap::new(alloc);
    add_instances(&mut names, file.instances.as_slice())?;
    add_names(&mut names, file.main.typing.bodies.as_slice())?;
    Ok(names)
}

impl Tables {
    /// Makes the tables of a file.
    pub(crate) fn new(alloc: Global, file: &ImageFile) -> Result<Tables, Memory>
        ensures { IfOk result (AreTablesOf file.now) }
    {
        let vals = vals_of(alloc, file.bodies.as_slice())?;
        let names = names_of(alloc, file)?;
        Ok(Tables { vals, names })
    }

    /// Returns how many `val`s the body of a number has.
    pub(crate) fn vals(&self, body: u32) -> u32
        ensures { (file : ImageFile) (b : Body) → AreTablesOf file self.now → slice_get file.bodies body ≡ Some b → result ≡ vals_in b }
    {
        match self.vals.get(body as usize) {
            Some(vals) => *vals,
            None => 0,
        }
    }

    /// Returns the name that is stated of the body of a number, or the empty text.
    pub(crate) fn name(&self, alloc: Global, body: u32) -> Result<Text, Memory>
        ensures { (file : ImageFile) → AreTablesOf file self.now → IfOk result (λ t. t ≡ name_by (typings_of file) body) }
    {
        match self.names.get(&body) {
            Some(stated) => stated.copy(),
            None => from_bytes(alloc, b""),
        }
    }

    /// Whether the body of a number has a name.
    pub(crate) fn is_name(&self, body: u32, name: &Text) -> bool
        ensures { (file : ImageFile) → AreTablesOf file self.now → IsTrue result ↔ (name.now ≡ name_by (typings_of file) body) }
    {
        match self.names.get(&body) {
            Some(stated) => stated == name,
            None => name.as_bytes().is_empty(),
        }
    }
}
