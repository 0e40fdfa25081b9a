//! The code of an image file.

mod bodies;
mod instructions;
mod scopes;
mod texts;
mod units;

ghost use Rattle.std.specs.Prelude.{◌≡◌, IfOk};
ghost use Rattle.wy_verified.specs.CodeOf.{code_of};
ghost use Rattle.wy_verify.specs.RangeParts.{AreTablesOf};

use crate::coding::bodies::bodies_of;
use crate::coding::scopes::scopes_of;
use crate::coding::texts::{copied, listed, texts_of};
use crate::coding::units::{grants_of, instances_of, main_of};
use crate::ranges::tables::Tables;
use std::alloc::Global;
use wy_code::code::Code;
use wy_image::ImageFile;
use wy_text::text::Memory;

/// Makes the code of a file, by its tables.
fn code_by(alloc: Global, file: &ImageFile, tables: &Tables) -> Result<Code, Memory>
    requires { AreTablesOf file.now tables.now }
    ensures { IfOk result (λ c. c ≡ code_of file.now) }
{
    let table = texts_of(alloc, file)?;
    let bodies = bodies_of(alloc, &table, tables, file, file.bodies.as_slice())?;
    let texts = listed(alloc, &table)?;
    let grants = grants_of(alloc, file.grants.as_slice())?;
    let methods = copied(alloc, file.methods.as_slice())?;
    let scopes = scopes_of(alloc, file.scopes.as_slice())?;
    let instances = instances_of(alloc, file.instances.as_slice())?;
    let main = main_of(alloc, &file.main)?;
    Ok(Code {
        grants,
        methods,
        texts,
        bodies,
        scopes,
        instances,
        main,
    })
}

/// Makes the code of a file. If a number of the file is too great for code, which V-Range rules out, it returns `Memory`.
pub(crate) fn code_of(alloc: Global, file: &ImageFile) -> Result<Code, Memory>
    ensures { IfOk result (λ c. c ≡ code_of file.now) }
{
    let tables = Tables::new(alloc, file)?;
    code_by(alloc, file, &tables)
}
