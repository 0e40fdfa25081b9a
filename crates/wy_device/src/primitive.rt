//! The primitive types of grants.

/// The primitive type of a grant (docs/LANGUAGE.md, "Primitive types"): it says which operations the grant has. Which kind
/// of device they ask is `kind_of_primitive` of specs/Primitives.
#[derive(Clone, Copy, PartialEq, Eq)]
pub enum Primitive {
    Console,
    Folder,
    Clock,
    Random,
    FullFolder,
}
