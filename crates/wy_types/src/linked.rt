use crate::types::TypeList;
use wy_effects::set::{EffSet, SetList};
use wy_text::list::Items;
use wy_text::text::Text;

/// What an instance is handed.
#[derive(Clone, Copy, PartialEq, Eq)]
pub enum Actual {
    /// The grant of this number.
    Grant(u16),
    /// The instance of this number, which stands before.
    Instance(u16),
}

/// A list of what an instance is handed.
pub type ActualList = Items<Actual>;

/// For each scope the types of its `val` statements.
pub type LocalsList = Items<TypeList>;

/// An instance in start order.
#[derive(Drop)]
pub struct Instance {
    pub name: Text,
    pub scope: u16,
    /// The arguments of its line, and then the hidden ones for the uses and lines of its module.
    pub arguments: ActualList,
    /// The ground import bound of an instance of a plain module.
    pub bound: Option<EffSet>,
    /// For each atom of the scope its set of grant atoms.
    pub ground: SetList,
}

/// The instances in start order.
pub type Linked = Items<Instance>;
