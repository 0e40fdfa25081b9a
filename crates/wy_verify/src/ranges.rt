//! V-Range: each number and each length of an image names what is there, and names are what names may be
//! (docs/PROMISES.md, "Images").

mod bounds;
mod distinct;
mod instances;
mod needs;
pub(crate) mod references;
mod roles;
mod rows;
mod scopes;
pub(crate) mod tables;
mod types;
mod words;

ghost use Rattle.std.specs.Prelude.{◌≡◌, ◌↔◌, ◌≤◌, ◌∷◌, codes, IsTrue, IfOk, map};
ghost use Rattle.wy_text.specs.Members.{In, Apart};
ghost use Rattle.wy_text.specs.declared.limit.LimitName.TheVariants.{Slots};
ghost use Rattle.wy_text.specs.LimitName.{limit_number};
ghost use Rattle.wy_image.specs.declared.file.Body.{Body};
ghost use Rattle.wy_image.specs.declared.file.Grant.{Grant};
ghost use Rattle.wy_image.specs.declared.file.Instance.{Instance};
ghost use Rattle.wy_verified.specs.Ranges.{BodiesStandOnce, IsGrantName, IsInRange, LimitsKept};
ghost use Rattle.wy_verify.specs.RangeParts.{AreTablesOf, HasFewParts, ListsInRange, PartsInRange, UnitsInRange};

use crate::ranges::distinct::Texts;
use crate::ranges::instances::{are_instances, is_main};
use crate::ranges::scopes::{are_scopes, bodies_stand_once};
use crate::ranges::tables::Tables;
use crate::ranges::types::are_types;
use crate::ranges::words::is_grant_name;
use std::alloc::Global;
use wy_image::{Body, Grant, ImageFile, Instance};
use wy_text::limit::LimitName;
use wy_text::text::{Memory, Text, from_bytes};

/// Whether a body has at most 256 slots.
fn has_few_slots(body: &Body) -> bool
    ensures { IsTrue result ↔ (body.now.slots ≤ limit_number Slots) }
{
    body.slots <= 256
}

/// Whether all bodies have.
fn have_few_slots(bodies: &[Body]) -> bool
    ensures { IsTrue result ↔ ((b : Body) → In b bodies.now → b.slots ≤ limit_number Slots) }
{
    for body in bodies {
        if !has_few_slots(body) {
            return false;
        }
    }
    true
}

/// Whether there are few enough files, grants, instances and bodies.
fn has_few_parts(file: &ImageFile) -> bool
    ensures { IsTrue result ↔ HasFewParts file.now }
{
    file.files.len() <= 64
        && file.grants.len() <= 64
        && file.instances.len() <= 1024
        && file.bodies.len() <= 16384
}

/// Whether there are few enough files, grants, instances, bodies and slots.
fn are_limits_kept(file: &ImageFile) -> bool
    ensures { IsTrue result ↔ LimitsKept file.now }
{
    if !has_few_parts(file) {
        return false;
    }
    let bodies = file.bodies.as_slice();
    have_few_slots(bodies)
}

/// Whether the names of all grants are names of the language.
fn have_grant_names(grants: &[Grant]) -> bool
    ensures { IsTrue result ↔ ((g : Grant) → In g grants.now → IsGrantName g.name) }
{
    for grant in grants {
        if !is_grant_name(&grant.name) {
            return false;
        }
    }
    true
}

/// Whether grants have different names.
fn are_grants_apart(alloc: Global, grants: &[Grant]) -> Result<bool, Memory>
    ensures { IfOk result (λ b. IsTrue b ↔ Apart (map (λ (g : Grant). g.name) grants.now)) }
{
    let mut names = Texts::new(alloc);
    names.take_grants(grants)
}

/// Whether texts differ from each other.
fn are_texts_apart(alloc: Global, texts: &[Text]) -> Result<bool, Memory>
    ensures { IfOk result (λ b. IsTrue b ↔ Apart texts.now) }
{
    let mut seen = Texts::new(alloc);
    seen.take_texts(texts)
}

/// Whether instances have different names, none of which is the program's.
fn are_names_apart(alloc: Global, instances: &[Instance]) -> Result<bool, Memory>
    ensures { IfOk result (λ b. IsTrue b ↔ Apart (codes "main" ∷ map (λ (i : Instance). i.name) instances.now)) }
{
    let main = from_bytes(alloc, b"main")?;
    let mut names = Texts::new(alloc);
    let fresh = names.put(&main)?;
    if !fresh {
        return Ok(false);
    }
    names.take_instances(instances)
}

/// Whether types, bodies and scopes are in range.
fn are_parts_in_range(alloc: Global, file: &ImageFile) -> Result<bool, Memory>
    ensures { IfOk result (λ b. IsTrue b ↔ PartsInRange file.now) }
{
    let types = file.types.as_slice();
    let typed = are_types(alloc, file, types)?;
    if !typed {
        return Ok(false);
    }
    // Each body stands in one scope, so its rows are read once.
    let once = bodies_stand_once(alloc, file)?;
    if !once {
        return Ok(false);
    }
    let scopes = file.scopes.as_slice();
    are_scopes(alloc, file, scopes)
}

/// Whether the lists of an image are in range, but for what instances state.
fn are_lists_in_range(alloc: Global, file: &ImageFile) -> Result<bool, Memory>
    ensures { IfOk result (λ b. IsTrue b ↔ ListsInRange file.now) }
{
    if !are_limits_kept(file) {
        return Ok(false);
    }
    let grants = file.grants.as_slice();
    if !have_grant_names(grants) {
        return Ok(false);
    }
    let apart = are_grants_apart(alloc, grants)?;
    if !apart {
        return Ok(false);
    }
    let methods = file.methods.as_slice();
    let named = are_texts_apart(alloc, methods)?;
    if !named {
        return Ok(false);
    }
    are_parts_in_range(alloc, file)
}

/// Whether instances and the program, and all that is stated of them, are in range.
fn are_units_in_range(alloc: Global, file: &ImageFile) -> Result<bool, Memory>
    requires { BodiesStandOnce file.now }
    ensures { IfOk result (λ b. IsTrue b ↔ UnitsInRange file.now) }
{
    let instances = file.instances.as_slice();
    let named = are_names_apart(alloc, instances)?;
    if !named {
        return Ok(false);
    }
    let tables = Tables::new(alloc, file)?;
    let all = are_instances(alloc, file, &tables, instances)?;
    if !all {
        return Ok(false);
    }
    is_main(alloc, file, &tables)
}

/// Whether each number and each length of an image names what is there, and names are what names may be.
pub(crate) fn is_in_range(alloc: Global, file: &ImageFile) -> Result<bool, Memory>
    ensures { IfOk result (λ b. IsTrue b ↔ IsInRange file.now) }
{
    let lists = are_lists_in_range(alloc, file)?;
    if !lists {
        return Ok(false);
    }
    are_units_in_range(alloc, file)
}
