use wy_text::fault::Place;
use wy_text::list::Items;
use wy_text::text::Text;

/// A name where it is written, with the place of its word.
#[derive(Drop)]
pub struct Name {
    pub text: Text,
    pub place: Place,
}

/// Names with commas between, as the arguments of a line.
pub type NameList = Items<Name>;

/// An atom in a set: a member by itself, or an owner and its member, as `E` and `x.E`.
#[derive(Drop)]
pub struct AtomUse {
    pub owner: Option<Name>,
    pub member: Name,
}

/// A set in braces, as it is written (docs/LANGUAGE.md, "Grammar").
pub type SetUse = Items<AtomUse>;

/// A member and the set that is put in its place, as `E = {x.F}` in `N[E = {x.F}]`.
#[derive(Drop)]
pub struct MemberSet {
    pub name: Name,
    pub effect: SetUse,
}

/// A type where it is written: a base type with the place of its word, a declared type by itself, one
/// with sets for its members, or one with a set for all of them (docs/LANGUAGE.md, "Grammar"). In a
/// plain module only base types and bare names are written.
#[derive(Drop)]
pub enum TypeUse {
    Int(Place),
    Bool(Place),
    Text(Place),
    Unit(Place),
    Bare(Name),
    With(Name, Items<MemberSet>),
    At(Name, SetUse),
}

/// A parameter and its type.
#[derive(Drop)]
pub struct Param {
    pub name: Name,
    pub type_use: TypeUse,
}

/// Parameters with commas between.
pub type ParamList = Items<Param>;

/// What stands before a method's body, or alone in a type declaration: the place of its `def`, the
/// method's name, its parameters, its effect and its result. In a plain module, and there alone, no
/// effect is written.
#[derive(Drop)]
pub struct Signature {
    pub place: Place,
    pub name: Name,
    pub params: ParamList,
    pub effect: Option<SetUse>,
    pub result: TypeUse,
}
