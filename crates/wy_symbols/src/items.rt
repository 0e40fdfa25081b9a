//! Items of lists.

ghost use Rattle.std.specs.Prelude.{◌≡◌, [], ◌∷◌, ◌++◌, slice_get, OnOk};
ghost use Rattle.std.specs.Option.{option_copied};

use wy_text::text::Memory;

/// The item of a number; `None` exactly where the number is not below the length. It takes no memory.
pub fn item<X>(list: &[X], number: usize) -> Option<&X>
    ensures { option_copied result ≡ slice_get list.now number }
{
    list.get(number)
}

/// Adds an item at the end.
pub fn add<X: Drop>(list: &mut Vec<X>, item: X) -> Result<(), Memory>
    ensures { OnOk result (list.new.items ≡ list.old.items ++ item ∷ []) }
{
    list.push(item)?;
    Ok(())
}
