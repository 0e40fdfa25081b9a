use crate::texts::{core_of, set_of};
use std::alloc::Global;
use std::test::Fail;
use wy_effects::set::{EffSet, SetList};
use wy_text::list::Items;
use wy_text::text::Memory;
use wy_types::key::{key_of_mark, key_of_pair};
use wy_types::methods::methods;
use wy_types::reach::{ReachRefusal, reach};
use wy_types::reading::substitute;
use wy_types::types::{Method, TypeRef};

fn sets_of(alloc: Global, sets: &[&[u16]]) -> Result<SetList, Memory> {
    let mut list = Items::new(alloc);
    for atoms in sets {
        list.push(set_of(alloc, atoms)?)?;
    }
    Ok(list)
}

/// A program that is granted a console.
const PROGRAM: &str = "program\n  grant console: Console\n  run: {}\n    ()\n";

/// A plain module, and a program.
const PLAIN: &str = "type N\nplain module p(): N\nprogram\n  run: {}\n    ()\n";

/// A module that is handed a console and sealed at its type, and a program.
const RESOURCE: &str =
    "resource module m(c: Console): Console\n  effect In = {c.In}\n  effect Out = {c.Out}\nprogram\n  run: {}\n    ()\n";

/// The methods of a type in the first scope of a program.
fn methods_in(alloc: Global, text: &str, t: &TypeRef) -> Result<Vec<Method>, Fail> {
    let core = core_of(alloc, text)?;
    Ok(methods(alloc, &core, 0, t)?)
}

/// A declared type with these sets for its members.
fn named(alloc: Global, decl: u16, sets: &[&[u16]]) -> Result<TypeRef, Memory> {
    let members = sets_of(alloc, sets)?;
    Ok(TypeRef::Named { decl, members })
}

/// A declared type with this bound.
fn bounded(alloc: Global, decl: u16, atoms: &[u16]) -> Result<TypeRef, Memory> {
    let bound = set_of(alloc, atoms)?;
    Ok(TypeRef::At { decl, bound })
}

/// Whether these are `read`, which gives a text, and `write`, which takes something, with these effects.
fn read_and_write(found: &[Method], input: &EffSet, output: &EffSet) -> bool {
    let [read, write] = found else {
        return false;
    };
    read.name.as_bytes() == b"read".as_slice()
        && read.effect == *input
        && read.result == TypeRef::Text
        && write.name.as_bytes() == b"write".as_slice()
        && write.effect == *output
        && write.params.len() == 1
}

/// Whether there are so many methods, the last of them with this effect.
fn end_with(found: &[Method], count: usize, effect: &EffSet) -> bool {
    match found.last() {
        Some(last) => found.len() == count && last.effect == *effect,
        None => false,
    }
}

#[test]
fn primitive_types_have_their_methods(rt: HostRuntime) -> Result<(), Fail> {
    let alloc = rt.alloc();
    let input = set_of(alloc, &[5])?;
    let output = set_of(alloc, &[2, 7])?;
    let console = named(alloc, 0, &[&[5], &[2, 7]])?;
    let found = methods_in(alloc, PROGRAM, &console)?;
    assert!(rt; read_and_write(found.as_slice(), &input, &output));
    Ok(())
}

#[test]
fn bounded_and_base_types_have_their_methods(rt: HostRuntime) -> Result<(), Fail> {
    let alloc = rt.alloc();
    let folder = bounded(alloc, 1, &[3])?;
    let found = methods_in(alloc, PROGRAM, &folder)?;
    assert!(rt; end_with(found.as_slice(), 5, &set_of(alloc, &[3])?));
    assert!(rt; methods_in(alloc, PROGRAM, &TypeRef::Int)?.is_empty());
    Ok(())
}

#[test]
fn plain_modules_see_bare_types(rt: HostRuntime) -> Result<(), Fail> {
    let alloc = rt.alloc();
    let clock = named(alloc, 2, &[])?;
    let found = methods_in(alloc, PLAIN, &clock)?;
    assert!(rt; end_with(found.as_slice(), 1, &EffSet::empty(alloc)));
    Ok(())
}

/// The type with its atoms replaced: the first, the second and the third one by these sets.
fn replaced(alloc: Global, t: &TypeRef) -> Result<TypeRef, Memory> {
    let by = sets_of(alloc, &[&[4], &[], &[1, 9]])?;
    substitute(alloc, t, by.as_slice())
}

#[test]
fn atoms_are_replaced_in_types(rt: HostRuntime) -> Result<(), Fail> {
    let alloc = rt.alloc();
    let found = replaced(alloc, &named(alloc, 0, &[&[0, 2], &[1]])?)?;
    assert!(rt; found == named(alloc, 0, &[&[1, 4, 9], &[]])?);
    let own = TypeRef::Own { literal: 3 };
    assert!(rt; replaced(alloc, &own)? == own);
    Ok(())
}

/// A program that is granted a console, and has an instance of a module that is sealed at the first of so many types, each
/// going on to the next and the last to the first.
fn chained(alloc: Global, number: u32) -> Result<String, Fail> {
    let mut text = String::new(alloc);
    for at in 1..=number {
        let next = at % number + 1;
        text.push_str(format!(in alloc; "type T{at}\n  def f(): {{}} T{next}\n")?.as_str())?;
    }
    text.push_str("resource module m(): T1\nprogram\n  grant console: Console\n")?;
    text.push_str("  instance x = m()\n  run: {}\n    ()\n")?;
    Ok(text)
}

/// How many types a scope reaches; `None` where they pass the limit.
fn reached(alloc: Global, text: &str, scope: u16) -> Result<Option<usize>, Fail> {
    let core = core_of(alloc, text)?;
    match reach(alloc, &core, scope) {
        Ok(types) => Ok(Some(types.len())),
        Err(ReachRefusal::Limit(_limit)) => Ok(None),
        Err(ReachRefusal::Memory) => Err(Memory.into()),
    }
}

#[test]
fn a_scope_reaches_at_most_1024_types(rt: HostRuntime) -> Result<(), Fail> {
    let alloc = rt.alloc();
    assert_eq!(rt; reached(alloc, PROGRAM, 0)?, Some(1));
    assert_eq!(rt; reached(alloc, RESOURCE, 0)?, Some(2));
    for (number, want) in [(3, Some(4)), (1023, Some(1024)), (1024, None)] {
        assert_eq!(rt; reached(alloc, chained(alloc, number)?.as_str(), 1)?, want);
    }
    Ok(())
}

/// Types no two of which are equal.
fn distinct_types(alloc: Global) -> Result<Vec<TypeRef>, Memory> {
    let mut types = Vec::new(alloc);
    types.push(TypeRef::Int)?;
    types.push(TypeRef::Unit)?;
    types.push(TypeRef::Own { literal: 4 })?;
    let members: [&[&[u16]]; 4] = [&[], &[&[1, 2]], &[&[1, 2], &[]], &[&[1], &[2]]];
    for sets in members {
        types.push(named(alloc, 5, sets)?)?;
    }
    types.push(bounded(alloc, 5, &[1, 2])?)?;
    Ok(types)
}

/// Whether two types have one key in both orders.
fn have_one_key(alloc: Global, s: &TypeRef, t: &TypeRef) -> Result<bool, Memory> {
    let one = key_of_pair(alloc, s, t)?;
    Ok(one == key_of_pair(alloc, t, s)?)
}

/// Whether a type has one key with a mark and without.
fn is_mark_lost(alloc: Global, t: &TypeRef) -> Result<bool, Memory> {
    let marked = key_of_mark(alloc, t, true)?;
    Ok(marked == key_of_mark(alloc, t, false)?)
}

#[test]
fn keys_differ_where_types_do(rt: HostRuntime) -> Result<(), Fail> {
    let alloc = rt.alloc();
    let types = distinct_types(alloc)?;
    for (i, s) in types.iter().enumerate() {
        for (j, t) in types.iter().enumerate() {
            assert_eq!(rt; have_one_key(alloc, s, t)?, i == j);
        }
        assert!(rt; !is_mark_lost(alloc, s)?);
    }
    Ok(())
}
