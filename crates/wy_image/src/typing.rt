//! What an image states: listed types, and of each instance the types of its values and of its bodies.

use wy_text::list::Items;
use wy_text::text::Text;

/// A type as it is written for an instance.
#[derive(Clone, Copy)]
pub enum Reference {
    Int,
    Truth,
    Bytes,
    Unit,
    /// A listed type, from 0.
    Listed(u32),
    /// The objects of a literal of the scope, from 0.
    Literal(u32),
    /// A grant, from 0.
    Grant(u32),
    /// The object of an instance, from 0.
    Instance(u32),
}

/// An atom of an effect: a grant, and the number of a member of its primitive type.
#[derive(Clone, Copy)]
pub struct Atom {
    pub grant: u32,
    pub member: u32,
}

/// A method of a listed type: the number of its name, the types of its parameters, its effect, and its result type.
#[derive(Drop)]
pub struct Signature {
    pub method: u32,
    pub parameters: Items<Reference>,
    pub effect: Items<Atom>,
    pub result: Reference,
}

/// A listed type: its methods.
pub type Listed = Items<Signature>;

/// What is known at an address to which a jump leads: the types of the operands, the topmost last, and the slots of
/// `val` statements that are stored.
#[derive(Drop)]
pub struct Target {
    pub address: u32,
    pub operands: Items<Reference>,
    pub stored: Items<u32>,
}

/// What is stated of a body in an instance. `effect` has all that the body may do.
#[derive(Drop)]
pub struct Bounds {
    pub body: u32,
    pub name: Text,
    pub effect: Items<Atom>,
    pub parameters: Items<Reference>,
    pub result: Reference,
    pub vals: Items<Reference>,
    pub targets: Items<Target>,
}

/// The types of the values of an object: those that it captures or is handed, and then its fields.
pub type Values = Items<Reference>;

/// What is stated of an instance or of the program: the types of its own values, those of the values of each literal,
/// and its bodies.
#[derive(Drop)]
pub struct Typing {
    pub values: Values,
    pub literals: Items<Values>,
    pub bodies: Items<Bounds>,
}
