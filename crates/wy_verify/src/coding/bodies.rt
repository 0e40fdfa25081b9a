//! The bodies of code.

ghost use Rattle.std.specs.Prelude.{◌≡◌, IfOk, Some, slice_get};
ghost use Rattle.wy_image.specs.declared.file.ImageFile.{ImageFile};
ghost use Rattle.wy_verified.specs.CodeOf.{bodies_of, body_of, name_by, typings_of};
ghost use Rattle.wy_verify.specs.RangeParts.{AreTablesOf};

use crate::coding::instructions::instructions_of;
use crate::ranges::tables::Tables;
use indexmap::IndexSet;
use std::alloc::Global;
use wy_code::code;
use wy_image::{Body, ImageFile};
use wy_text::list::Items;
use wy_text::text::{Memory, Text};

/// Returns the code of the body of a number.
fn body_of(
    alloc: Global,
    texts: &IndexSet<Text>,
    tables: &Tables,
    number: usize,
    body: &Body,
) -> Result<code::Body, Memory>
    ensures { (file : ImageFile) → AreTablesOf file tables.now → slice_get file.bodies number ≡ Some body.now → IfOk result (λ b. b ≡ body_of texts.now.keys (typings_of file) number body.now) }
{
    let Ok(number) = u32::try_from(number) else {
        return Err(Memory);
    };
    let vals = tables.vals(number);
    let name = tables.name(alloc, number)?;
    let instructions = instructions_of(alloc, texts, body.rows.as_slice())?;
    Ok(code::Body {
        name,
        parameters: body.parameters,
        vals,
        slots: body.slots,
        instructions,
    })
}

/// Returns the code of the bodies of a file.
pub(super) fn bodies_of(
    alloc: Global,
    texts: &IndexSet<Text>,
    tables: &Tables,
    file: &ImageFile,
    bodies: &[Body],
) -> Result<Items<code::Body>, Memory>
    requires tables { AreTablesOf file.now tables.now }
    requires bodies { bodies.now ≡ file.now.bodies }
    ensures { IfOk result (λ l. l ≡ bodies_of texts.now.keys (typings_of file.now) 0 bodies.now) }
{
    let mut list = Items::new(alloc);
    for number in 0..bodies.len() {
        list.push(body_of(alloc, texts, tables, number, &bodies[number])?)?;
    }
    Ok(list)
}
