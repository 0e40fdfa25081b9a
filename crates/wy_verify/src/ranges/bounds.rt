//! What instances state of bodies.

ghost use Rattle.std.specs.Prelude.{◌≡◌, ◌↔◌, ◌+◌, ◌<◌, ◌≤◌, ℕ, IsTrue, length, slice_get};
ghost use Rattle.wy_text.specs.Members.{In};
ghost use Rattle.wy_image.specs.declared.file.Body.{Body};
ghost use Rattle.wy_image.specs.declared.typing.Bounds.{Bounds};
ghost use Rattle.wy_image.specs.declared.typing.Target.{Target};
ghost use Rattle.wy_image.specs.declared.file.ImageFile.{ImageFile};
ghost use Rattle.wy_verified.specs.CodeOf.{name_by, typings_of};
ghost use Rattle.wy_verified.specs.Ranges.{BoundsInRange, IsPrinted, TargetInRange};
ghost use Rattle.wy_verify.specs.RangeParts.{AreTablesOf, BoundsFit, HasItsTypes, IsValSlot, vals_in};

use crate::ranges::references::{Writer, are_atoms, are_plain, are_references, is_plain};
use crate::ranges::tables::Tables;
use crate::ranges::words::is_printed;
use wy_image::{Body, Bounds, Target};

/// Whether a slot is one of a body's `val`s, of which so many are stated.
fn is_val_slot(body: &Body, vals: usize, slot: u32) -> bool
    ensures { IsTrue result ↔ IsValSlot body.now vals slot }
{
    slot > body.parameters && (slot - body.parameters) as usize <= vals
}

/// Whether all slots are.
fn are_val_slots(body: &Body, vals: usize, slots: &[u32]) -> bool
    ensures { IsTrue result ↔ ((i : ℕ) → In i slots.now → IsValSlot body.now vals i) }
{
    for slot in slots {
        if !is_val_slot(body, vals, *slot) {
            return false;
        }
    }
    true
}

/// Whether an address names a row.
fn is_address(body: &Body, address: u32) -> bool
    ensures { IsTrue result ↔ (address < length body.now.rows) }
{
    (address as usize) < body.rows.len()
}

/// Whether a target names a row, types, and slots of `val`s that are stated.
fn is_target(writer: &Writer<'_>, body: &Body, vals: usize, target: &Target) -> bool
    ensures { IsTrue result ↔ TargetInRange writer.now.file.now writer.now.instance writer.now.scope.now body.now vals target.now }
{
    if !is_address(body, target.address) {
        return false;
    }
    let operands = target.operands.as_slice();
    if !are_references(writer, operands) {
        return false;
    }
    let stored = target.stored.as_slice();
    are_val_slots(body, vals, stored)
}

/// Whether all targets do.
fn are_targets(writer: &Writer<'_>, body: &Body, vals: usize, targets: &[Target]) -> bool
    ensures { IsTrue result ↔ ((t : Target) → In t targets.now → TargetInRange writer.now.file.now writer.now.instance writer.now.scope.now body.now vals t) }
{
    for target in targets {
        if !is_target(writer, body, vals, target) {
            return false;
        }
    }
    true
}

/// Whether the targets that are stated of a body do.
fn has_targets(writer: &Writer<'_>, body: &Body, bounds: &Bounds) -> bool
    ensures { IsTrue result ↔ ((t : Target) → In t bounds.now.targets → TargetInRange writer.now.file.now writer.now.instance writer.now.scope.now body.now (length bounds.now.vals) t) }
{
    are_targets(writer, body, bounds.vals.len(), bounds.targets.as_slice())
}

/// Whether the types of as many `val`s are stated as the body stores at least.
fn has_vals(tables: &Tables, bounds: &Bounds) -> bool
    ensures { (file : ImageFile) (b : Body) → AreTablesOf file tables.now → slice_get file.bodies bounds.now.body ≡ Some b → IsTrue result ↔ (vals_in b ≤ length bounds.now.vals) }
{
    tables.vals(bounds.body) as usize <= bounds.vals.len()
}

/// Whether what is stated of a body has a name that bodies may have, and the same wherever it is stated.
fn has_its_name(tables: &Tables, bounds: &Bounds) -> bool
    ensures { (file : ImageFile) → AreTablesOf file tables.now → IsTrue result ↔ (IsPrinted bounds.now.name × (bounds.now.name ≡ name_by (typings_of file) bounds.now.body)) }
{
    if !is_printed(&bounds.name) {
        return false;
    }
    tables.is_name(bounds.body, &bounds.name)
}

/// Whether what is stated of a body has as many parameters as the body, which are plain, and a plain result.
fn has_its_types(writer: &Writer<'_>, body: &Body, bounds: &Bounds) -> bool
    ensures { IsTrue result ↔ HasItsTypes writer.now.file.now body.now bounds.now }
{
    bounds.parameters.len() == body.parameters as usize
        && are_plain(writer.file, bounds.parameters.as_slice())
        && is_plain(writer.file, bounds.result)
}

/// Whether what is stated of a body has the lengths of the body, and names what is there.
fn is_bounds(writer: &Writer<'_>, tables: &Tables, body: &Body, bounds: &Bounds) -> bool
    requires tables { AreTablesOf writer.now.file.now tables.now }
    requires body { slice_get writer.now.file.now.bodies bounds.now.body ≡ Some body.now }
    ensures { IsTrue result ↔ BoundsInRange writer.now.file.now writer.now.instance writer.now.scope.now body.now bounds.now }
{
    if !has_its_name(tables, bounds) {
        return false;
    }
    let effect = bounds.effect.as_slice();
    if !are_atoms(writer.file, effect) {
        return false;
    }
    if !has_its_types(writer, body, bounds) {
        return false;
    }
    if !has_vals(tables, bounds) {
        return false;
    }
    let vals = bounds.vals.as_slice();
    if !are_references(writer, vals) {
        return false;
    }
    has_targets(writer, body, bounds)
}

/// Whether what is stated of a body fits the body, if there is one.
fn fits_its_body(writer: &Writer<'_>, tables: &Tables, bounds: &Bounds) -> bool
    requires { AreTablesOf writer.now.file.now tables.now }
    ensures { IsTrue result ↔ BoundsFit writer.now.file.now writer.now.instance writer.now.scope.now bounds.now }
{
    match writer.file.bodies.get(bounds.body as usize) {
        Some(body) => is_bounds(writer, tables, body, bounds),
        None => true,
    }
}

/// Whether what is stated of bodies does.
pub(super) fn fit_their_bodies(writer: &Writer<'_>, tables: &Tables, bodies: &[Bounds]) -> bool
    requires { AreTablesOf writer.now.file.now tables.now }
    ensures { IsTrue result ↔ ((n : Bounds) → In n bodies.now → BoundsFit writer.now.file.now writer.now.instance writer.now.scope.now n) }
{
    for bounds in bodies {
        if !fits_its_body(writer, tables, bounds) {
            return false;
        }
    }
    true
}
