//! Authorities as tables hold them.

use std::alloc::Global;
use wy_authority::{Authority, BodyRow, InstanceRow};
use wy_effects::atom::Atom;
use wy_effects::set::EffSet;
use wy_text::fault::AtomName;
use wy_text::list::Items;
use wy_text::text::{Memory, from_bytes};

/// The name of an instance's body, and the numbers of what it may do, each below 512.
pub type Body = (&'static str, &'static [u16]);

/// An instance's name, and its bodies.
pub type Instance = (&'static str, &'static [Body]);

fn set_of(alloc: Global, numbers: &[u16]) -> Result<EffSet, Memory> {
    let mut set = EffSet::empty(alloc);
    for number in numbers {
        if *number < 512 {
            set.insert(Atom(*number))?;
        }
    }
    Ok(set)
}

fn body(alloc: Global, name: &str, numbers: &[u16]) -> Result<BodyRow, Memory> {
    let name = from_bytes(alloc, name.as_bytes())?;
    Ok(BodyRow {
        name,
        set: set_of(alloc, numbers)?,
    })
}

fn bodies_of(alloc: Global, bodies: &[Body]) -> Result<Items<BodyRow>, Memory> {
    let mut list = Items::new(alloc);
    for (name, numbers) in bodies {
        list.push(body(alloc, name, numbers)?)?;
    }
    Ok(list)
}

fn instance(alloc: Global, name: &str, bodies: &[Body]) -> Result<InstanceRow, Memory> {
    let name = from_bytes(alloc, name.as_bytes())?;
    Ok(InstanceRow {
        name,
        bodies: bodies_of(alloc, bodies)?,
    })
}

fn instances_of(alloc: Global, instances: &[Instance]) -> Result<Items<InstanceRow>, Memory> {
    let mut list = Items::new(alloc);
    for (name, bodies) in instances {
        list.push(instance(alloc, name, bodies)?)?;
    }
    Ok(list)
}

fn atom(alloc: Global, owner: &str, member: &str) -> Result<AtomName, Memory> {
    let owner = from_bytes(alloc, owner.as_bytes())?;
    Ok(AtomName {
        owner,
        member: from_bytes(alloc, member.as_bytes())?,
    })
}

fn atoms_of(alloc: Global, atoms: &[(&str, &str)]) -> Result<Items<AtomName>, Memory> {
    let mut list = Items::new(alloc);
    for (owner, member) in atoms {
        list.push(atom(alloc, owner, member)?)?;
    }
    Ok(list)
}

/// The authority of these instances over these atoms.
pub fn authority(
    alloc: Global,
    atoms: &[(&str, &str)],
    instances: &[Instance],
) -> Result<Authority, Memory> {
    let atoms = atoms_of(alloc, atoms)?;
    Ok(Authority {
        atoms,
        rows: instances_of(alloc, instances)?,
    })
}
