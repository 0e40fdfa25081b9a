//! The instructions that are gathered for a body.

ghost use Rattle.std.specs.Prelude.{◌≡◌, [], ℕ, false, length, slice_set, IfOk};
ghost use Rattle.wy_lower.specs.Capped.{capped};
ghost use Rattle.wy_lower.specs.Listing.{one, placed};
ghost use Rattle.wy_lower.specs.Emits.{Becomes, Emits, Finds};

use std::alloc::Global;
use std::marker::Model;
use wy_code::instruction::{Instruction, Placed};
use wy_text::fault::Place;
use wy_text::list::Items;
use wy_text::text::Memory;

/// Instructions that are gathered one after the other. They remember that memory was wanting, and gather no more then.
#[derive(Drop)]
pub(crate) struct Instructions {
    items: Vec<Placed>,
    wanting: bool,
}

impl Model for Instructions {
    ghost use Rattle.wy_code.specs.declared.instruction.Placed.{Placed};
    ghost use Rattle.wy_lower.specs.Collected.{Collected};

    ghost Value = { Collected Placed };

    ghost view = { λ o. record { list = o.items.items; wanting = o.wanting } };

    ghost invariant = { λ o. Unit {0} };
}

impl Instructions {
    /// No instructions. It takes no memory.
    pub(crate) fn new(alloc: Global) -> Instructions
        ensures { result ≡ record { list = []; wanting = false } }
    {
        Instructions {
            items: Vec::new(alloc),
            wanting: false,
        }
    }

    /// How many there are.
    pub(crate) fn len(&self) -> usize
        ensures { result ≡ length self.now.list }
    {
        self.items.len()
    }

    /// Returns a number as the code has it. If the number is too large, memory was wanting.
    pub(crate) fn number(&mut self, number: usize) -> u32
        ensures exact { Finds self.old self.new result number }
        ensures summed { (sum : ℕ) → number ≡ capped sum → Finds self.old self.new result sum }
    {
        match u32::try_from(number) {
            Ok(number) => number,
            Err(_) => {
                self.wanting = true;
                0
            },
        }
    }

    /// Writes an instruction in place of another one, if there is one at this address.
    pub(crate) fn replace(&mut self, address: usize, place: Place, instruction: Instruction)
        ensures { Becomes self.old self.new (slice_set self.old.list address (placed place instruction)) }
    {
        if address < self.items.len() {
            self.items[address] = Placed { instruction, place };
        }
    }

    /// The instructions, if memory sufficed for all of them.
    pub(crate) fn listed(&self, alloc: Global) -> Result<Items<Placed>, Memory>
        ensures { IfOk result (λ l. (self.now.wanting ≡ false) × (l ≡ self.now.list)) }
    {
        if self.wanting {
            return Err(Memory);
        }
        listed(alloc, &self.items)
    }
}

/// Instructions as the code has them.
fn listed(alloc: Global, items: &Vec<Placed>) -> Result<Items<Placed>, Memory>
    ensures { IfOk result (λ l. l ≡ items.now.items) }
{
    let mut list = Items::new(alloc);
    for placed in items {
        list.push(*placed)?;
    }
    Ok(list)
}

/// Adds an instruction at a mark.
pub(crate) fn put(out: &mut Instructions, place: Place, instruction: Instruction)
    ensures { Emits out.old out.new (λ _. one place instruction) }
{
    if !out.wanting && out.items.push(Placed { instruction, place }).is_err() {
        out.wanting = true;
    }
}
