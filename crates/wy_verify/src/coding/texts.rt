//! The texts that code pushes, each once, in a table in which the number of each is found at once.

ghost use Rattle.std.specs.Prelude.{◌≡◌, ◌∷◌, [], IfOk, OnOk};
ghost use Rattle.wy_code.specs.EachOnce.{each_once_after};
ghost use Rattle.wy_verified.specs.CodeOf.{bodies_texts, instruction_text, number_in, rows_texts, texts_of};

use indexmap::IndexSet;
use std::alloc::Global;
use wy_image::{Body, Constant, ImageFile, Instruction, Row};
use wy_text::list::Items;
use wy_text::text::{Memory, Text};

/// Puts a text at the end of a table, unless it is there.
fn put_text(table: &mut IndexSet<Text>, text: &Text) -> Result<(), Memory>
    ensures { OnOk result (table.new.keys ≡ each_once_after table.old.keys (text.now ∷ [])) }
{
    if !table.contains(text) {
        table.insert(text.copy()?)?;
    }
    Ok(())
}

/// Puts the text that an instruction pushes.
fn put_instruction(table: &mut IndexSet<Text>, instruction: &Instruction) -> Result<(), Memory>
    ensures { OnOk result (table.new.keys ≡ each_once_after table.old.keys (instruction_text instruction.now)) }
{
    match instruction {
        Instruction::Push(Constant::Text(text)) => put_text(table, text),
        _ => Ok(()),
    }
}

/// Puts the texts that rows push.
fn put_rows(table: &mut IndexSet<Text>, rows: &[Row]) -> Result<(), Memory>
    ensures { OnOk result (table.new.keys ≡ each_once_after table.old.keys (rows_texts rows.now)) }
{
    for row in rows {
        put_instruction(table, &row.instruction)?;
    }
    Ok(())
}

/// Puts the texts that bodies push.
fn put_bodies(table: &mut IndexSet<Text>, bodies: &[Body]) -> Result<(), Memory>
    ensures { OnOk result (table.new.keys ≡ each_once_after table.old.keys (bodies_texts bodies.now)) }
{
    for body in bodies {
        put_rows(table, body.rows.as_slice())?;
    }
    Ok(())
}

/// Returns the texts that a file's instructions push, each once.
pub(super) fn texts_of(alloc: Global, file: &ImageFile) -> Result<IndexSet<Text>, Memory>
    ensures { IfOk result (λ t. t.keys ≡ texts_of file.now) }
{
    let mut table = IndexSet::new(alloc);
    put_bodies(&mut table, file.bodies.as_slice())?;
    Ok(table)
}

/// Returns the place of a text in a table.
fn place_in(table: &IndexSet<Text>, text: &Text) -> usize
    ensures { result ≡ number_in table.now.keys text.now }
{
    match table.get_index_of(text) {
        Some(place) => place,
        None => table.len(),
    }
}

/// Returns the number of a text in a table.
pub(super) fn number_in(table: &IndexSet<Text>, text: &Text) -> Result<u32, Memory>
    ensures { IfOk result (λ n. n ≡ number_in table.now.keys text.now) }
{
    match u32::try_from(place_in(table, text)) {
        Ok(number) => Ok(number),
        Err(_) => Err(Memory),
    }
}

/// Returns the texts of a table, in order.
pub(super) fn listed(alloc: Global, table: &IndexSet<Text>) -> Result<Items<Text>, Memory>
    ensures { IfOk result (λ l. l ≡ table.now.keys) }
{
    let mut texts = Items::new(alloc);
    for text in table.as_slice() {
        texts.push(text.copy()?)?;
    }
    Ok(texts)
}

/// Returns copies of texts.
pub(super) fn copied(alloc: Global, texts: &[Text]) -> Result<Items<Text>, Memory>
    ensures { IfOk result (λ l. l ≡ texts.now) }
{
    let mut copies = Items::new(alloc);
    for text in texts {
        copies.push(text.copy()?)?;
    }
    Ok(copies)
}
