//! The stated targets of a body by their addresses.

ghost use Rattle.std.specs.Prelude.{◌≡◌, ◌<◌, Some, None, length, drop, slice_get, replicate, slice_index_or, slice_set, IfOk};
ghost use Rattle.std.specs.Option.{option_copied};
ghost use Rattle.wy_verified.specs.Walking.{target_in};
ghost use Rattle.wy_verify.specs.Sites.{AreFirst, IsAddressAt};

use std::alloc::Global;
use std::marker::Model;
use wy_image::Bounds;
use wy_text::text::Memory;

/// For each address of a body the number of the first target that is stated for it.
#[derive(Drop)]
pub struct Targets {
    numbers: Vec<Option<usize>>,
}

impl Model for Targets {
    ghost use Rattle.std.specs.Prelude.{ℕ, List, Option};

    ghost Value = { List (Option ℕ) };

    ghost view = { λ t. t.numbers.items };
}

/// The address of the target of a number.
fn address_at(bounds: &Bounds, number: usize) -> usize
    requires { number < length bounds.now.targets }
    ensures { IsAddressAt bounds.now.targets number result }
{
    let Some(target) = bounds.targets.get(number) else {
        unreachable!()
    };
    target.address as usize
}

impl Targets {
    /// A table without targets, of a body of `count` instructions.
    fn none(alloc: Global, count: usize) -> Result<Targets, Memory>
        ensures { IfOk result (λ t. t ≡ replicate count None) }
    {
        Ok(Targets {
            numbers: vec![in alloc; None; count]?,
        })
    }

    /// Notes the number of the target of an address, if that is in the body.
    fn put(&mut self, address: usize, number: usize)
        ensures { self.new ≡ slice_set self.old address (Some number) }
    {
        if address < self.numbers.len() {
            self.numbers[address] = Some(number);
        }
    }

    /// The table of what is stated of a body of `count` instructions.
    pub fn new(alloc: Global, bounds: &Bounds, count: usize) -> Result<Targets, Memory>
        ensures long { IfOk result (λ t. length t ≡ count) }
        ensures first { IfOk result (λ t. AreFirst t bounds.now.targets) }
    {
        let mut targets = Targets::none(alloc, count)?;
        let many = bounds.targets.len();
        for index in 0..many {
            let number = many - 1 - index;
            targets.put(address_at(bounds, number), number);
        }
        Ok(targets)
    }

    /// The number of the first target of an address.
    pub fn number_at(&self, to: usize) -> Option<usize>
        ensures { result ≡ slice_index_or self.now to None }
    {
        match self.numbers.get(to) {
            Some(number) => *number,
            None => None,
        }
    }
}
