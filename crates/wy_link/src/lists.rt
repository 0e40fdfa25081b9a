//! Lists of what stands in a vector.

ghost use Rattle.std.specs.Prelude.{◌≡◌, IfOk};

use std::alloc::Global;
use wy_text::list::Items;
use wy_text::text::Memory;

/// The items of a vector as a list, in their order.
pub(crate) fn listed<X>(alloc: Global, items: Vec<X>) -> Result<Items<X>, Memory>
where
    X: Drop,
    ensures { IfOk result (λ l. l ≡ items.items) }
{
    let mut list = Items::new(alloc);
    for item in items {
        list.push(item)?;
    }
    Ok(list)
}
