use crate::texts::{core_of, set_of};
use std::test::Fail;
use wy_effects::set::EffSet;
use wy_types::code::{Binding, Expr, Value};
use wy_types::resolved::{Core, Origin, OwnName, Scope, Start};
use wy_types::types::TypeRef;

const CLOCK: &str = "program\n  grant c: Clock\n  run: {c.Tick}\n    c.now()\n";

/// Whether it is the type of clocks, with this set for its one member.
fn is_clock_of(typ: &TypeRef, set: &EffSet) -> bool {
    match typ {
        TypeRef::Named { decl: 2, members } => match members.as_slice() {
            [member] => member == set,
            _ => false,
        },
        _ => false,
    }
}

/// Whether it is the grant of a clock `c` with this set for its one member.
fn is_clock(own: &OwnName, set: &EffSet) -> bool {
    matches!(own.origin, Origin::Grant)
        && own.name.as_bytes() == "c".as_bytes()
        && is_clock_of(&own.typ, set)
}

/// Whether it is a call of `now` without arguments on the first own name.
fn asks_first(value: &Value) -> bool {
    match value {
        Value::Plain(Expr::Call(_, receiver, method, arguments)) => {
            method.as_bytes() == "now".as_bytes() && arguments.is_empty() && is_first(receiver)
        }
        _ => false,
    }
}

fn is_first(e: &Expr) -> bool {
    match e {
        Expr::Name(_, bound) => *bound == Binding::Own(0),
        _ => false,
    }
}

/// Whether the program starts with that call alone.
fn starts_so(start: &Start) -> bool {
    match start {
        Start::Run(block) => block.statements.is_empty() && asks_first(&block.last),
        Start::Init(_) => false,
    }
}

/// Whether the one own name is that grant, the declared effect is its atom, and the program makes that call.
fn is_resolved(scope: &Scope, first: &EffSet) -> bool {
    let [own] = scope.names.as_slice() else {
        return false;
    };
    is_clock(own, first)
        && scope.atoms.len() == 1
        && scope.start_effect == *first
        && starts_so(&scope.start)
}

/// Whether the program is all there is besides the primitive types.
fn is_alone(core: &Core, first: &EffSet) -> bool {
    match core.scopes.as_slice() {
        [scope] => core.declarations.len() == 5 && is_resolved(scope, first),
        _ => false,
    }
}

#[test]
fn a_program_is_resolved(rt: HostRuntime) -> Result<(), Fail> {
    let alloc = rt.alloc();
    let first = set_of(alloc, &[0])?;
    assert!(rt; is_alone(&core_of(alloc, CLOCK)?, &first));
    Ok(())
}
