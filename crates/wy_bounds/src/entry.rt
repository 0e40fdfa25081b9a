use wy_types::path::Step;
use wy_types::types::TypeRef;

/// A type that was reached at a polarity, by a step from the entry at an earlier place. The first has
/// no such place, and its step is read nowhere.
#[derive(Drop)]
pub struct Entry {
    pub typ: TypeRef,
    pub positive: bool,
    pub parent: usize,
    pub step: Step,
}
