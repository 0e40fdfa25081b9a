//! The bodies of a scope by their owner.

use std::alloc::Global;
use std::test::Fail;
use wy_effects::set::EffSet;
use wy_text::fault::Place;
use wy_text::list::Items;
use wy_text::text::{Memory, from_bytes};
use wy_types::bodies::Bodies;
use wy_types::code::{Block, Expr, Value};
use wy_types::resolved::Body;
use wy_types::types::{Method, TypeRef};

/// A body of an owner, at a line, that gives nothing.
fn body(alloc: Global, owner: u32, line: u32) -> Result<Body, Memory> {
    let place = Place {
        file: 1,
        line,
        column: 1,
    };
    let last = Box::new(alloc, Value::Plain(Expr::Unit(place)))?;
    Ok(Body {
        owner,
        place,
        signature: Method {
            name: from_bytes(alloc, b"m")?,
            params: Items::new(alloc),
            effect: EffSet::empty(alloc),
            result: TypeRef::Unit,
        },
        block: Block {
            statements: Vec::new(alloc),
            last,
        },
    })
}

/// Bodies of these owners, one a line.
fn bodies_of(alloc: Global, owners: &[u32]) -> Result<Bodies, Memory> {
    let mut bodies = Vec::new(alloc);
    let mut line = 0;
    for owner in owners {
        line = u32::wrapping_add(line, 1);
        bodies.push(body(alloc, *owner, line)?)?;
    }
    Bodies::new(alloc, bodies)
}

#[test]
fn bodies_of_an_owner_are_found_from_its_first_to_its_last(rt: HostRuntime) -> Result<(), Fail> {
    let alloc = rt.alloc();
    let bodies = bodies_of(alloc, &[0, 1, 2, 1, 0, 3])?;
    assert_eq!(rt; bodies.len(), 6);
    for (owner, first, count) in [(0, 1, 5), (1, 2, 3), (2, 3, 1), (3, 6, 1)] {
        let found = bodies.around(owner);
        assert_eq!(rt; found.len(), count);
        assert_eq!(rt; found[0].place.line, first);
    }
    assert!(rt; bodies.around(4).is_empty());
    Ok(())
}
