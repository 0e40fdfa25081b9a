use wy_effects::set::EffSet;
use wy_text::fault::AtomName;
use wy_text::list::Items;
use wy_text::text::Text;

/// A body, by the name that the report gives it, and its ground set: numbers of grant atoms.
#[derive(Drop)]
pub struct BodyRow {
    pub name: Text,
    pub set: EffSet,
}

/// An instance, or the program as `main`, and its bodies: `init` or `run`, then the others by the order of their `def` words.
#[derive(Drop)]
pub struct InstanceRow {
    pub name: Text,
    pub bodies: Items<BodyRow>,
}

/// The authority of a program.
#[derive(Drop)]
pub struct Authority {
    /// The names of the grant atoms, by the order of grants and of their types' members. A set has their numbers.
    pub atoms: Items<AtomName>,
    /// The instances in start order, and `main` last.
    pub rows: Items<InstanceRow>,
}
