use wy_text::list::Items;

/// A type of the values of a run. Numbers count from 0.
#[derive(Clone, Copy, PartialEq, Eq)]
pub enum Kind {
    Ints,
    Truths,
    Texts,
    Units,
    /// A listed type.
    Named(u32),
    /// The objects of an instance and a literal of its scope. Literal 0 is the instance's own object.
    Own(u32, u32),
    /// A grant.
    Granted(u32),
}

/// What is known at an instruction: the types of the operands, the topmost first, and the stored slots of `val`
/// statements. In an `init` body `set` is the number of set fields.
#[derive(Drop)]
pub struct Known {
    pub operands: Items<Kind>,
    pub stored: Items<u32>,
    pub set: u32,
}

/// A jump to an address, with the number of set fields.
#[derive(Clone, Copy, PartialEq, Eq)]
pub struct Jumped {
    pub address: u32,
    pub set: u32,
}

/// The rules of the verifier, in the order in which they are tried (docs/PROMISES.md, "Images").
#[derive(Clone, Copy, PartialEq, Eq)]
pub enum VerifyRule {
    Range,
    Argument,
    Flow,
    State,
    Depth,
    Types,
    Effect,
}
