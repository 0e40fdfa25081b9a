ghost use Rattle.std.specs.Prelude.{◌≡◌, ◌<◌, Some, length, slice_get};

/// The number of a pair that a question met, and the place of the pair that asked for it. The first
/// was asked for by none, and its parent is read nowhere.
#[derive(Drop)]
pub struct Entry {
    pub node: usize,
    pub parent: usize,
}

/// What stands at a place.
pub fn entry_at(entries: &[Entry], at: usize) -> &Entry
    requires { at < length entries.now }
    ensures { slice_get entries.now at ≡ Some result.now }
{
    &entries[at]
}
