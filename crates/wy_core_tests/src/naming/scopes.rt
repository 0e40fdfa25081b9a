use crate::texts::{core_of, set_of};
use std::test::Fail;
use wy_effects::atom::{Atom, AtomTable};
use wy_effects::set::EffSet;
use wy_types::code::{Binding, Block, Expr, Stmt, Value, Variable};
use wy_types::resolved::Core;

const BOUNDED: &str =
    "type T\n  effect A\n  effect B = {A}\n  effect C <= {B}\nresource module m(x: T, y: T): T\n  effect A = {}\n  effect C = {}\nprogram\n  run: {}\n    ()\n";

/// Whether the second of two bounds is this one, and the first is none.
fn is_second(first: &Option<EffSet>, second: &Option<EffSet>, wanted: &EffSet) -> bool {
    match second {
        Some(bound) => first.is_none() && bound == wanted,
        None => false,
    }
}

/// Whether there are two bounds, none and this one.
fn are_two(bounds: &[Option<EffSet>], wanted: &EffSet) -> bool {
    match bounds {
        [first, second] => is_second(first, second, wanted),
        _ => false,
    }
}

/// Whether there are four bounds, none before each of these.
fn are_four(bounds: &[Option<EffSet>], wanted: &EffSet, last: &EffSet) -> bool {
    match bounds {
        [a, b, c, d] => is_second(a, b, wanted) && is_second(c, d, last),
        _ => false,
    }
}

/// Whether the declared type's second abstract member is bounded by the first, and so are the two atoms of each of the
/// module's parameters; the program has no atoms.
fn are_bounded(core: &Core, first: &EffSet, third: &EffSet) -> bool {
    let Some(declared) = core.declarations.get(5) else {
        return false;
    };
    match core.scopes.as_slice() {
        [module, program] => {
            are_two(declared.bounds.as_slice(), first)
                && are_four(module.bounds.as_slice(), first, third)
                && program.bounds.is_empty()
        }
        _ => false,
    }
}

#[test]
fn atoms_are_bounded_as_the_members_that_they_are_opened_for(rt: HostRuntime) -> Result<(), Fail> {
    let alloc = rt.alloc();
    let first = set_of(alloc, &[0])?;
    let third = set_of(alloc, &[2])?;
    assert!(rt; are_bounded(&core_of(alloc, BOUNDED)?, &first, &third));
    Ok(())
}

const ANNOTATED: &str =
    "type T\n  effect A\n  effect B = {A}\n  effect C\nresource module m(x: T, y: T): T\n  effect A = {x.C}\n  effect C = {y.B}\nprogram\n  run: {}\n    ()\n";

/// Whether the atom of a number has this owner and this member.
fn is_atom(atoms: &AtomTable, number: u16, owner: &str, member: &str) -> bool {
    match atoms.name(Atom(number)) {
        None => false,
        Some(name) => {
            name.owner.as_bytes() == owner.as_bytes() && name.member.as_bytes() == member.as_bytes()
        }
    }
}

/// Whether the atoms are those of the parameters, in the order of the parameters and of the type's abstract members.
fn are_in_order(atoms: &AtomTable) -> bool {
    let first = is_atom(atoms, 0, "x", "A") && is_atom(atoms, 1, "x", "C");
    let second = is_atom(atoms, 2, "y", "A") && is_atom(atoms, 3, "y", "C");
    atoms.len() == 4 && first && second
}

/// Whether the type's members are defined by these sets.
fn are_defined(definitions: &[EffSet], a: &EffSet, c: &EffSet) -> bool {
    match definitions {
        [first, second] => first == a && second == c,
        _ => false,
    }
}

/// Whether the module's atoms are in order, and its type's members are defined by these sets.
fn has_atoms(core: &Core, a: &EffSet, c: &EffSet) -> bool {
    match core.scopes.get(0) {
        Some(module) => {
            are_in_order(&module.atoms) && are_defined(module.definitions.as_slice(), a, c)
        }
        None => false,
    }
}

#[test]
fn atoms_come_in_the_order_of_their_owners(rt: HostRuntime) -> Result<(), Fail> {
    let alloc = rt.alloc();
    // `y.B` is `{y.A}`.
    let second = set_of(alloc, &[1])?;
    let third = set_of(alloc, &[2])?;
    assert!(rt; has_atoms(&core_of(alloc, ANNOTATED)?, &second, &third));
    Ok(())
}

const PLAIN: &str =
    "type T\n  effect A\n  effect B = {A}\n  effect C\nplain module p(k: T): T\n  val a: Int = 1\n  def f(x: Int): Int\n    val y = x\n    a\n    k\n    y\nprogram\n  run: {}\n    ()\n";

/// What a value that is a name stands for.
fn bound(value: &Value) -> Option<Binding> {
    match value {
        Value::Plain(Expr::Name(_, bound)) => Some(*bound),
        _ => None,
    }
}

/// What the name in a statement stands for; behind the others comes the last one.
fn bound_at(block: &Block, number: usize) -> Option<Binding> {
    match block.statements.get(number) {
        Some(Stmt::Val(_, _, _, value)) => bound(value),
        Some(Stmt::Do(value)) => bound(value),
        None => bound(&block.last),
    }
}

/// What the names in the module's one method stand for.
const WANTED: [Binding; 4] = [
    Binding::Variable(Variable::Parameter { body: 0, index: 0 }),
    Binding::Field(0),
    Binding::Own(0),
    Binding::Variable(Variable::Local(0)),
];

/// Whether the statements are names that stand for those, in their order.
fn stand_for(block: &Block) -> bool {
    for (number, want) in WANTED.iter().enumerate() {
        if bound_at(block, number) != Some(*want) {
            return false;
        }
    }
    block.statements.len() + 1 == WANTED.len()
}

/// Whether the first module has one method, whose names stand for those.
fn has_method(core: &Core) -> bool {
    match core.scopes.get(0) {
        Some(module) => match module.bodies.as_slice() {
            [body] => stand_for(&body.block),
            _ => false,
        },
        None => false,
    }
}

#[test]
fn names_stand_for_what_is_in_sight(rt: HostRuntime) -> Result<(), Fail> {
    assert!(rt; has_method(&core_of(rt.alloc(), PLAIN)?));
    Ok(())
}
