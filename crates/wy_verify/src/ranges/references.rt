//! Types as an image writes them, and atoms.

ghost use Rattle.std.specs.Prelude.{◌≡◌, ◌↔◌, ◌+◌, ◌≤◌, drop, length, IsTrue};
ghost use Rattle.wy_text.specs.Members.{In};
ghost use Rattle.wy_image.specs.declared.typing.Atom.{Atom};
ghost use Rattle.wy_verified.specs.Members.{members_of};
ghost use Rattle.wy_verified.specs.Ranges.{AreInRange, ArePlain, AtomInRange, IsPlain, ReferenceInRange, ValuesInRange};

use wy_device::primitive::Primitive;
use wy_image::{Atom, ImageFile, Reference, Scope};

/// Where references are written: the number of an instance, and its scope. The program's number follows the last one.
#[derive(Clone, Copy)]
pub(super) struct Writer<'a> {
    pub file: &'a ImageFile,
    pub instance: usize,
    pub scope: &'a Scope,
}

/// Returns how many members a primitive type has.
pub(crate) fn member_count(primitive: Primitive) -> usize
    ensures { result ≡ length (members_of primitive) }
{
    match primitive {
        Primitive::Console => 2,
        Primitive::Folder => 4,
        Primitive::Clock | Primitive::Random => 1,
        Primitive::FullFolder => 5,
    }
}

/// Whether an atom names a grant, and a member of its primitive type.
fn is_atom(file: &ImageFile, atom: Atom) -> bool
    ensures { IsTrue result ↔ AtomInRange file.now atom }
{
    match file.grants.get(atom.grant as usize) {
        Some(grant) => (atom.member as usize) < member_count(grant.primitive),
        None => false,
    }
}

/// Whether all atoms do.
pub(super) fn are_atoms(file: &ImageFile, atoms: &[Atom]) -> bool
    ensures { IsTrue result ↔ ((a : Atom) → In a atoms.now → AtomInRange file.now a) }
{
    for atom in atoms {
        if !is_atom(file, *atom) {
            return false;
        }
    }
    true
}

/// Whether a type is a base type, or a listed one.
pub(super) fn is_plain(file: &ImageFile, reference: Reference) -> bool
    ensures { IsTrue result ↔ IsPlain file.now reference }
{
    match reference {
        Reference::Listed(t) => (t as usize) < file.types.len(),
        Reference::Literal(_) | Reference::Grant(_) | Reference::Instance(_) => false,
        _ => true,
    }
}

/// Whether all types are.
pub(super) fn are_plain(file: &ImageFile, references: &[Reference]) -> bool
    ensures { IsTrue result ↔ ArePlain file.now references.now }
{
    for reference in references {
        if !is_plain(file, *reference) {
            return false;
        }
    }
    true
}

/// Whether a type names what is there, where it is written.
fn is_reference(writer: &Writer<'_>, reference: Reference) -> bool
    ensures { IsTrue result ↔ ReferenceInRange writer.now.file.now writer.now.instance writer.now.scope.now reference }
{
    match reference {
        Reference::Listed(t) => (t as usize) < writer.file.types.len(),
        Reference::Literal(l) => (l as usize) < writer.scope.literals.len(),
        Reference::Grant(g) => (g as usize) < writer.file.grants.len(),
        Reference::Instance(y) => {
            (y as usize) <= writer.instance && (y as usize) < writer.file.instances.len()
        }
        _ => true,
    }
}

/// Whether all types do.
pub(super) fn are_references(writer: &Writer<'_>, references: &[Reference]) -> bool
    ensures { IsTrue result ↔ AreInRange writer.now.file.now writer.now.instance writer.now.scope.now references.now }
{
    for reference in references {
        if !is_reference(writer, *reference) {
            return false;
        }
    }
    true
}

/// Whether a number is the sum of two numbers.
fn is_sum(count: usize, before: usize, fields: u32) -> bool
    ensures { IsTrue result ↔ (count ≡ before + fields) }
{
    count >= before && count - before == fields as usize
}

/// Whether the types behind the first so many are plain.
fn are_plain_behind(file: &ImageFile, references: &[Reference], before: usize) -> bool
    requires { before ≤ length references.now }
    ensures { IsTrue result ↔ ArePlain file.now (drop before references.now) }
{
    are_plain(file, &references[before..])
}

/// Whether types are those of an object's values: what it is handed or captures, and then its fields.
pub(super) fn are_values(
    writer: &Writer<'_>,
    before: usize,
    fields: u32,
    references: &[Reference],
) -> bool
    ensures { IsTrue result ↔ ValuesInRange writer.now.file.now writer.now.instance writer.now.scope.now before fields references.now }
{
    if !is_sum(references.len(), before, fields) {
        return false;
    }
    if !are_references(writer, references) {
        return false;
    }
    are_plain_behind(writer.file, references, before)
}
