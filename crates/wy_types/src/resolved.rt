use crate::bodies::Bodies;
use crate::code::{Block, Value, Variable};
use crate::types::{Method, TypeRef};
use wy_effects::atom::AtomTable;
use wy_effects::set::{EffSet, SetList};
use wy_text::fault::Place;
use wy_text::list::Items;
use wy_text::text::Text;

/// A member that a type declaration defines, with its set of the declaration's abstract members.
#[derive(Drop)]
pub struct DefinedMember {
    pub name: Text,
    pub effects: EffSet,
}

/// Upper bounds, by the numbers of the members or atoms that they bound: none where there is no bound.
pub type BoundList = Items<Option<EffSet>>;

/// A type declaration. The sets in its signatures are of its abstract members, by their numbers.
#[derive(Drop)]
pub struct TypeDecl {
    pub name: Text,
    /// The names of its abstract members.
    pub members: Items<Text>,
    /// For each of these its upper bound, a set of abstract members before it.
    pub bounds: BoundList,
    pub defined: Items<DefinedMember>,
    pub methods: Items<Method>,
}

/// The kinds of modules, and the program (docs/LANGUAGE.md, "Modules").
#[derive(Clone, Copy, PartialEq, Eq)]
pub enum ScopeKind {
    Pure,
    Resource,
    Plain,
    Program,
}

/// How a scope comes by one of its own names. Arguments are numbers of earlier own names.
#[derive(Drop)]
pub enum Origin {
    /// A parameter of a module; a bare one opens an atom for each abstract member of its type.
    Parameter {
        bare: bool,
    },
    Grant,
    /// A `use` of the pure module of this number among the scopes.
    Use {
        module: u16,
    },
    Instance {
        module: u16,
        arguments: Items<u32>,
    },
    Import {
        module: u16,
        arguments: Items<u32>,
        bound: EffSet,
    },
}

/// One of a scope's own names, with its type in the scope.
#[derive(Drop)]
pub struct OwnName {
    pub name: Text,
    pub place: Place,
    pub typ: TypeRef,
    pub origin: Origin,
}

/// A field of a module or of an object literal.
#[derive(Drop)]
pub struct Field {
    pub name: Text,
    pub place: Place,
    /// Whether it is a `var`.
    pub mutable: bool,
    pub typ: TypeRef,
}

/// A kind of objects: the module's own, or those of an object literal.
#[derive(Drop)]
pub struct Literal {
    /// The variables of the bodies round the literal that its methods use.
    pub captures: Items<Variable>,
    pub fields: Items<Field>,
}

/// A method of a module or of an object literal.
#[derive(Drop)]
pub struct Body {
    /// Whose method it is: 0 for the module, else the literal's number.
    pub owner: u32,
    pub place: Place,
    pub signature: Method,
    pub block: Block,
}

/// What a scope does when it starts.
#[derive(Drop)]
pub enum Start {
    /// The initialisers of a module's fields.
    Init(Vec<Value>),
    /// The program's own block.
    Run(Block),
}

/// A module or the program.
#[derive(Drop)]
pub struct Scope {
    pub kind: ScopeKind,
    pub name: Text,
    pub place: Place,
    pub atoms: AtomTable,
    /// For each atom its upper bound, a set of atoms before it.
    pub bounds: BoundList,
    /// The scope's own names: parameters or grants, then used modules, then lines.
    pub names: Items<OwnName>,
    /// The number of the declared type that a module is sealed at; none for the program.
    pub ascribed: Option<u16>,
    /// What an annotated module defines for each abstract member of that type, in their order.
    pub definitions: SetList,
    /// The module itself, and then its object literals by their order in the scope.
    pub literals: Items<Literal>,
    /// The mark and the declared effect of `init` or `run`.
    pub start_place: Place,
    pub start_effect: EffSet,
    pub start: Start,
    /// The methods of the module and its literals, by the order of their `def` words.
    pub bodies: Bodies,
}

/// A program whose names are resolved.
#[derive(Drop)]
pub struct Core {
    /// The primitive types in the order of their table, and then the declared ones in file order.
    pub declarations: Items<TypeDecl>,
    /// The modules in file order, and then the program.
    pub scopes: Items<Scope>,
}
