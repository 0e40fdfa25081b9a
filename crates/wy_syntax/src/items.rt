use crate::statements::{Part, Tail};
use crate::types::{Name, NameList, ParamList, SetUse, Signature};
use wy_text::fault::Place;
use wy_text::list::Items;

/// A member of a type declaration: an abstract effect, one with an upper bound, a defined one, or a method.
#[derive(Drop)]
pub enum Member {
    Abstract(Name),
    Bounded(Name, SetUse),
    Defined(Name, SetUse),
    Method(Signature),
}

/// A line: the name that it gives, the module that it names and its arguments; behind an import stands
/// its bound.
#[derive(Drop)]
pub enum Line {
    Instance(Name, Name, NameList),
    Import(Name, Name, NameList, SetUse),
}

/// The definition of an abstract member of the type that a module is sealed at.
#[derive(Drop)]
pub struct Define {
    pub name: Name,
    pub effect: SetUse,
}

/// The line that declares the effect of a module's field initialisers, with the place of its `init`.
#[derive(Drop)]
pub struct Init {
    pub place: Place,
    pub effect: SetUse,
}

/// A grant and its primitive type.
#[derive(Drop)]
pub struct Grant {
    pub name: Name,
    pub kind: Name,
}

/// What stands inside a pure or a resource module.
#[derive(Drop)]
pub struct Inside {
    pub uses: NameList,
    pub lines: Items<Line>,
    pub defines: Items<Define>,
    pub init: Option<Init>,
    pub parts: Vec<Part>,
}

/// `type`, with the place of that word.
#[derive(Drop)]
pub struct TypeDecl {
    pub place: Place,
    pub name: Name,
    pub members: Items<Member>,
}

/// `module`, with the place of that word.
#[derive(Drop)]
pub struct PureModule {
    pub place: Place,
    pub name: Name,
    pub sealed: Name,
    pub inside: Inside,
}

/// `resource module`, with the place of `resource`.
#[derive(Drop)]
pub struct ResourceModule {
    pub place: Place,
    pub name: Name,
    pub params: ParamList,
    pub sealed: Name,
    pub inside: Inside,
}

/// `plain module`, with the place of `plain`.
#[derive(Drop)]
pub struct PlainModule {
    pub place: Place,
    pub name: Name,
    pub params: ParamList,
    pub sealed: Name,
    pub parts: Vec<Part>,
}

/// `program`, with the place of that word, and that of its `run`.
#[derive(Drop)]
pub struct Program {
    pub place: Place,
    pub grants: Items<Grant>,
    pub uses: NameList,
    pub lines: Items<Line>,
    pub run: Place,
    pub effect: SetUse,
    pub body: Tail,
}

/// An item of a file. Its place is that of its first token.
#[derive(Drop)]
pub enum Item {
    Type(TypeDecl),
    Pure(PureModule),
    Resource(ResourceModule),
    Plain(PlainModule),
    Program(Program),
}

/// A file's items, in order (docs/LANGUAGE.md, "Grammar").
#[derive(Drop)]
pub struct Tree {
    pub items: Vec<Item>,
}
