use wy_text::fault::Place;

/// What an instruction pushes as it stands (docs/LANGUAGE.md, "Code").
#[derive(Clone, Copy)]
pub enum Constant {
    Int(i64),
    Truth(bool),
    Unit,
    /// The text of this number among the code's texts.
    Text(u32),
    /// The grant of this number.
    Grant(u16),
    /// The object of the instance of this number.
    Instance(u16),
}

/// The operators of values that are there, as `Op` has them.
#[derive(Clone, Copy)]
pub enum Operator {
    Negate,
    Not,
    Add,
    Subtract,
    Multiply,
    Divide,
    Remainder,
    Join,
    Less,
    LessOrEqual,
    Greater,
    GreaterOrEqual,
    Equal,
    NotEqual,
    Size,
    Part,
    Code,
    Byte,
    Show,
}

/// One instruction (docs/LANGUAGE.md, "Code"). Slots and values of an object count from 0, addresses
/// from the body's first instruction.
#[derive(Clone, Copy)]
pub enum Instruction {
    Push(Constant),
    /// Pushes a slot.
    Load(u32),
    /// Pops into a slot.
    Store(u32),
    /// Pushes a value of the current object.
    Get(u32),
    /// Pops into a value of the current object.
    Set(u32),
    Drop,
    Op(Operator),
    /// Goes to an address.
    Jump(u32),
    /// Pops a truth value, and goes to an address where it is false.
    JumpFalse(u32),
    /// Makes an object of the scope's literal of this number.
    New(u32),
    /// Calls the method of this number among the code's method names, with as many arguments.
    Call(u32, u32),
    Return,
    Finish,
}

/// An instruction with the place that its trap names.
#[derive(Clone, Copy)]
pub struct Placed {
    pub instruction: Instruction,
    pub place: Place,
}
