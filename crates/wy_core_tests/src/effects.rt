use crate::texts::set_of;
use std::alloc::Global;
use std::test::Fail;
use wy_effects::atom::{Atom, AtomTable, TableRefusal};
use wy_effects::set::EffSet;
use wy_text::limit::LimitName;
use wy_text::text::{Memory, from_bytes};

/// The number that a table gives to a name; `None` where it has no room for it.
fn inserted(
    alloc: Global,
    table: &mut AtomTable,
    owner: &[u8],
    member: &[u8],
) -> Result<Option<u16>, Memory> {
    let owner = from_bytes(alloc, owner)?;
    match table.insert(owner, from_bytes(alloc, member)?) {
        Ok(atom) => Ok(Some(atom.0)),
        Err(TableRefusal::Limit(LimitName::Atoms)) => Ok(None),
        Err(_) => Err(Memory),
    }
}

/// Whether the atom has this name.
fn is_named(table: &AtomTable, atom: Atom, owner: &[u8], member: &[u8]) -> bool {
    match table.name(atom) {
        Some(name) => name.owner.as_bytes() == owner && name.member.as_bytes() == member,
        None => false,
    }
}

/// Names in the order of their insertion, and their numbers.
static NAMES: [(&[u8], &[u8], u16); 4] = [
    (b"disk", b"Read", 0),
    (b"disk", b"Write", 1),
    (b"disk", b"Read", 0),
    (b"Read", b"disk", 2),
];

#[test]
fn tables_number_names_in_order_of_insertion(rt: HostRuntime) -> Result<(), Fail> {
    let mut table = AtomTable::new(rt.alloc());
    for (owner, member, number) in &NAMES {
        assert_eq!(rt;
            inserted(rt.alloc(), &mut table, owner, member)?,
            Some(*number)
        );
    }
    assert_eq!(rt; table.len(), 3);
    assert!(rt; is_named(&table, Atom(1), b"disk", b"Write"));
    assert!(rt; table.name(Atom(3)).is_none());
    Ok(())
}

/// Inserts so many names of one owner, and gives the number of the first one that is not numbered so.
fn first_otherwise(
    alloc: Global,
    table: &mut AtomTable,
    count: u16,
) -> Result<Option<u16>, Memory> {
    for number in 0..count {
        if inserted(alloc, table, b"p", &number.to_be_bytes())? != Some(number) {
            return Ok(Some(number));
        }
    }
    Ok(None)
}

#[test]
fn a_table_takes_512_names(rt: HostRuntime) -> Result<(), Fail> {
    let alloc = rt.alloc();
    let mut table = AtomTable::new(alloc);
    assert_eq!(rt; first_otherwise(alloc, &mut table, 512)?, None);
    assert_eq!(rt; inserted(alloc, &mut table, b"p", &[0, 7])?, Some(7));
    assert_eq!(rt; inserted(alloc, &mut table, b"q", b"E")?, None);
    assert_eq!(rt; table.len(), 512);
    Ok(())
}

/// The sets in one.
fn united(left: &EffSet, right: &EffSet) -> Result<EffSet, Memory> {
    let mut both = right.copy()?;
    left.union_into(&mut both)?;
    Ok(both)
}

#[test]
fn sets_are_finite_sets(rt: HostRuntime) -> Result<(), Fail> {
    let alloc = rt.alloc();
    let left = set_of(alloc, &[7, 3, 511, 3])?;
    let right = set_of(alloc, &[0, 7, 9])?;
    assert_eq!(rt;
        left.atoms()?.as_slice(),
        [Atom(3), Atom(7), Atom(511)].as_slice()
    );
    assert_eq!(rt; left.len(), 3);
    assert!(rt; united(&left, &right)? == set_of(alloc, &[0, 3, 7, 9, 511])?);
    assert!(rt; left.without(&right)? == set_of(alloc, &[3, 511])?);
    Ok(())
}

#[test]
fn a_set_includes_its_subsets(rt: HostRuntime) -> Result<(), Fail> {
    let alloc = rt.alloc();
    let left = set_of(alloc, &[7, 3, 511, 3])?;
    let right = set_of(alloc, &[0, 7, 9])?;
    let both = united(&left, &right)?;
    for (outer, inner, want) in [
        (&both, &left, true),
        (&left, &both, false),
        (&left, &right, false),
        (&left, &left, true),
    ] {
        assert_eq!(rt; outer.includes(inner), want);
    }
    assert!(rt; left.includes(&EffSet::empty(alloc)));
    Ok(())
}

/// Sets for the atoms 0 to 3.
fn sets(alloc: Global) -> Result<Vec<EffSet>, Memory> {
    let mut sets = Vec::new(alloc);
    let rows: [&[u16]; 4] = [&[5], &[1, 2], &[], &[2, 4]];
    for atoms in rows {
        sets.push(set_of(alloc, atoms)?)?;
    }
    Ok(sets)
}

#[test]
fn atoms_are_replaced_by_their_sets(rt: HostRuntime) -> Result<(), Fail> {
    let alloc = rt.alloc();
    let by = sets(alloc)?;
    let set = set_of(alloc, &[1, 2, 3])?;
    assert!(rt; set.substitute(by.as_slice())? == set_of(alloc, &[1, 2, 4])?);
    Ok(())
}
