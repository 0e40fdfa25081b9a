//! Paths through the methods of types, step by step.

ghost use Rattle.std.specs.Prelude.{◌≡◌, IfOk, reverse};

use std::alloc::Global;
use wy_text::list::Items;
use wy_text::text::{Memory, Text};

/// A part of a method's signature: a parameter, counted from 0, or the result.
#[derive(Clone, Copy, PartialEq, Eq)]
pub enum Part {
    Parameter(u16),
    Result,
}

/// A step from a type, through a method of it, to a type in the method's signature.
#[derive(Drop, PartialEq, Eq)]
pub struct Step {
    pub method: Text,
    pub part: Part,
}

/// Steps from a type, in order.
pub type Path = Items<Step>;

/// The path of steps that stand in the other order, as they are met on the way back to where it begins.
pub fn reversed(alloc: Global, mut steps: Vec<Step>) -> Result<Path, Memory>
    ensures { IfOk result (λ path. path ≡ reverse steps.items) }
{
    let mut path = Items::new(alloc);
    while let Some(step) = steps.pop() {
        path.push(step)?;
    }
    Ok(path)
}
