use crate::instruction::Placed;
use wy_device::primitive::Primitive;
use wy_text::list::Items;
use wy_text::text::Text;

/// A grant of the program, with its primitive type.
#[derive(Drop)]
pub struct Grant {
    pub name: Text,
    pub primitive: Primitive,
}

/// What an instance is handed: the grant or the instance of a number.
#[derive(Clone, Copy)]
pub enum Argument {
    Grant(u16),
    Instance(u16),
}

/// The code of a body.
#[derive(Drop)]
pub struct Body {
    /// The name that events print.
    pub name: Text,
    /// How many parameters it has. Its slots begin with the current object and these.
    pub parameters: u32,
    /// How many slots its `val` statements have, which come next: up to the last slot that is stored into.
    pub vals: u32,
    /// How many slots it has in all: those, and the operands that it needs at once.
    pub slots: u32,
    pub instructions: Items<Placed>,
}

/// Where `New` finds a value that an object captures.
#[derive(Clone, Copy)]
pub enum Source {
    /// In a slot.
    Slot(u32),
    /// Among the values of the current object.
    Value(u32),
}

/// A method of a kind of objects: its number among the method names, and its body's number.
#[derive(Clone, Copy)]
pub struct Method {
    pub method: u32,
    pub body: u32,
}

/// A kind of objects: a module's own, or those of an object literal. An object's values are what it
/// captured, or was handed, and then its fields.
#[derive(Drop)]
pub struct Literal {
    pub captures: Items<Source>,
    pub fields: u32,
    pub methods: Items<Method>,
}

/// The code of a module or of the program.
#[derive(Drop)]
pub struct Scope {
    /// How many arguments its instances are handed; the program is handed none.
    pub arguments: u32,
    /// The number of its `init` or `run` body.
    pub start: u32,
    /// The module itself, and then its object literals by their order in the scope.
    pub literals: Items<Literal>,
}

/// An instance, or the program itself.
#[derive(Drop)]
pub struct Instance {
    pub name: Text,
    pub scope: u32,
    pub arguments: Items<Argument>,
}

/// A program's code.
#[derive(Drop)]
pub struct Code {
    pub grants: Items<Grant>,
    /// The names of methods, each once: those of calls in the order of bodies and instructions, and then those that the
    /// methods of kinds of objects have, in the order of scopes and kinds.
    pub methods: Items<Text>,
    /// The texts that the program writes out, each once, in the order of bodies and instructions.
    pub texts: Items<Text>,
    pub bodies: Items<Body>,
    pub scopes: Items<Scope>,
    /// The instances in start order.
    pub instances: Items<Instance>,
    pub main: Instance,
}
