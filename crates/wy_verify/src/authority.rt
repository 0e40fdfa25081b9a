//! The authority that an image states for its bodies.

ghost use Rattle.std.specs.Prelude.{◌≡◌, ◌++◌, ◌∷◌, [], ◌<◌, ◌≤◌, length, map, codes, IfOk, OnOk};
ghost use Rattle.wy_effects.specs.AtomTable.{atom_name};
ghost use Rattle.wy_verified.specs.Members.{members_of};
ghost use Rattle.wy_verified.specs.Ranges.{IsInRange};
ghost use Rattle.wy_verify.specs.Authority.{AreBodiesNumbered, AreInstancesNumbered, AreNumbered, IsReported};
ghost use Rattle.wy_verify.specs.Authority.{atoms_of, body_row, firsts_of, grant_atoms, image_authority};
ghost use Rattle.wy_verify.specs.Authority.{instance_row, number_of, unit_row, with_atoms};

use crate::ranges::references::member_count;
use std::alloc::Global;
use wy_authority::{Authority, BodyRow, InstanceRow};
use wy_device::primitive::Primitive;
use wy_effects::atom::Atom as Number;
use wy_effects::set::EffSet;
use wy_image::{Atom, Bounds, Grant, ImageFile, Instance, Typing};
use wy_text::fault::AtomName;
use wy_text::list::Items;
use wy_text::text::{Memory, Text, from_bytes};

/// Adds the atom of a member of a grant.
fn add_atom(
    alloc: Global,
    atoms: &mut Items<AtomName>,
    grant: &Text,
    member: &str,
) -> Result<(), Memory>
    ensures { OnOk result (atoms.new ≡ atoms.old ++ atom_name grant.now member.now ∷ []) }
{
    let owner = grant.copy()?;
    let member = from_bytes(alloc, member.as_bytes())?;
    atoms.push(AtomName { owner, member })
}

/// Adds the atoms of two members of a grant.
fn add_two(
    alloc: Global,
    atoms: &mut Items<AtomName>,
    grant: &Text,
    first: &str,
    second: &str,
) -> Result<(), Memory>
    ensures { OnOk result (atoms.new ≡ atoms.old ++ atom_name grant.now first.now ∷ atom_name grant.now second.now ∷ []) }
{
    add_atom(alloc, atoms, grant, first)?;
    add_atom(alloc, atoms, grant, second)
}

/// Adds the atoms of a folder.
fn add_folder(alloc: Global, atoms: &mut Items<AtomName>, grant: &Text) -> Result<(), Memory>
    ensures { OnOk result (atoms.new ≡ atoms.old ++ map (atom_name grant.now) (members_of Primitive.Folder)) }
{
    add_two(alloc, atoms, grant, "Read", "Write")?;
    add_two(alloc, atoms, grant, "Append", "List")
}

/// Adds the atoms of a grant.
fn add_grant(alloc: Global, atoms: &mut Items<AtomName>, grant: &Grant) -> Result<(), Memory>
    ensures { OnOk result (atoms.new ≡ atoms.old ++ atoms_of grant.now) }
{
    let name = &grant.name;
    match grant.primitive {
        Primitive::Console => add_two(alloc, atoms, name, "In", "Out"),
        Primitive::Folder => add_folder(alloc, atoms, name),
        Primitive::Clock => add_atom(alloc, atoms, name, "Tick"),
        Primitive::Random => add_atom(alloc, atoms, name, "Draw"),
        Primitive::FullFolder => {
            add_folder(alloc, atoms, name)?;
            add_atom(alloc, atoms, name, "Remove")
        }
    }
}

/// Returns the atoms of grants.
fn grant_atoms(alloc: Global, grants: &[Grant]) -> Result<Items<AtomName>, Memory>
    ensures { IfOk result (λ atoms. atoms ≡ grant_atoms grants.now) }
{
    let mut atoms = Items::new(alloc);
    for grant in grants {
        add_grant(alloc, &mut atoms, grant)?;
    }
    Ok(atoms)
}

/// Returns the number of the first atom of each grant.
fn firsts_of(alloc: Global, grants: &[Grant]) -> Result<Items<usize>, Memory>
    requires { length grants.now ≤ 64 }
    ensures { IfOk result (λ firsts. firsts ≡ firsts_of grants.now) }
{
    let mut firsts = Items::new(alloc);
    let mut next = 0;
    for grant in grants {
        firsts.push(next)?;
        next += member_count(grant.primitive);
    }
    Ok(firsts)
}

/// Returns the number of an atom among those of all grants.
fn number_of(firsts: &Items<usize>, atom: Atom) -> u16
    requires { number_of firsts.now atom < 512 }
    ensures { result ≡ number_of firsts.now atom }
{
    let first = match firsts.get(atom.grant as usize) {
        Some(first) => *first,
        None => 0,
    };
    (first + atom.member as usize) as u16
}

/// Returns the set of the numbers of atoms.
fn set_of(alloc: Global, firsts: &Items<usize>, atoms: &Items<Atom>) -> Result<EffSet, Memory>
    requires { AreNumbered firsts.now atoms.now }
    ensures { IfOk result (λ set. set ≡ with_atoms firsts.now atoms.now []) }
{
    let mut set = EffSet::empty(alloc);
    for atom in atoms.as_slice() {
        set.insert(Number(number_of(firsts, *atom)))?;
    }
    Ok(set)
}

/// Returns the row of a body.
fn body_row(alloc: Global, firsts: &Items<usize>, bounds: &Bounds) -> Result<BodyRow, Memory>
    requires { AreNumbered firsts.now bounds.now.effect }
    ensures { IfOk result (λ row. row ≡ body_row firsts.now bounds.now) }
{
    Ok(BodyRow {
        name: bounds.name.copy()?,
        set: set_of(alloc, firsts, &bounds.effect)?,
    })
}

/// Returns the rows of bodies.
fn body_rows(
    alloc: Global,
    firsts: &Items<usize>,
    bodies: &Items<Bounds>,
) -> Result<Items<BodyRow>, Memory>
    requires { AreBodiesNumbered firsts.now bodies.now }
    ensures { IfOk result (λ rows. rows ≡ map (body_row firsts.now) bodies.now) }
{
    let mut rows = Items::new(alloc);
    for bounds in bodies.as_slice() {
        rows.push(body_row(alloc, firsts, bounds)?)?;
    }
    Ok(rows)
}

/// Returns the row of an instance or of the program.
fn unit_row(
    alloc: Global,
    firsts: &Items<usize>,
    name: Text,
    typing: &Typing,
) -> Result<InstanceRow, Memory>
    requires { AreBodiesNumbered firsts.now typing.now.bodies }
    ensures { IfOk result (λ row. row ≡ unit_row firsts.now name typing.now) }
{
    let bodies = body_rows(alloc, firsts, &typing.bodies)?;
    Ok(InstanceRow { name, bodies })
}

/// Returns the rows of instances.
fn instance_rows(
    alloc: Global,
    firsts: &Items<usize>,
    instances: &[Instance],
) -> Result<Items<InstanceRow>, Memory>
    requires { AreInstancesNumbered firsts.now instances.now }
    ensures { IfOk result (λ rows. rows ≡ map (instance_row firsts.now) instances.now) }
{
    let mut rows = Items::new(alloc);
    for instance in instances {
        let name = instance.name.copy()?;
        rows.push(unit_row(alloc, firsts, name, &instance.typing)?)?;
    }
    Ok(rows)
}

/// Returns the rows of the instances of a file, and then that of its program.
fn all_rows(
    alloc: Global,
    firsts: &Items<usize>,
    file: &ImageFile,
) -> Result<Items<InstanceRow>, Memory>
    requires instances { AreInstancesNumbered firsts.now file.now.instances }
    requires main { AreBodiesNumbered firsts.now file.now.main.typing.bodies }
    ensures { IfOk result (λ rows. rows ≡ map (instance_row firsts.now) file.now.instances ++ unit_row firsts.now (codes "main") file.now.main.typing ∷ []) }
{
    let mut rows = instance_rows(alloc, firsts, file.instances.as_slice())?;
    let name = from_bytes(alloc, b"main")?;
    rows.push(unit_row(alloc, firsts, name, &file.main.typing)?)?;
    Ok(rows)
}

/// Returns the authority that an image states for its bodies. Fails only if memory runs out.
pub(crate) fn authority_of(alloc: Global, file: &ImageFile) -> Result<Authority, Memory>
    requires { IsInRange file.now }
    ensures { IfOk result (λ authority. authority ≡ image_authority file.now) }
{
    let grants = file.grants.as_slice();
    let atoms = grant_atoms(alloc, grants)?;
    let firsts = firsts_of(alloc, grants)?;
    let rows = all_rows(alloc, &firsts, file)?;
    Ok(Authority { atoms, rows })
}

/// States that the report of a file in range says of each body what its calls may do. Does nothing at run time.
pub(crate) fn is_reported(file: &ImageFile)
    requires { IsInRange file.now }
    ensures { IsReported file.now }
{
    let _file = file;
}
