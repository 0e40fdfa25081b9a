use wy_text::list::Items;

/// The rule of a node (docs/LANGUAGE.md, "Typing of bodies").
#[derive(Clone, Copy, PartialEq, Eq)]
pub enum Rule {
    Lit,
    Var,
    This,
    Call,
    New,
    If,
    Seq,
    Val,
    Set,
    Op,
    Asc,
    Body,
    Sub,
}

/// A list of numbers. As a set it has the numbers of atoms.
pub type NumberList = Items<u32>;

/// A type as it is listed. Its numbers may be any: whether they name something is for a test to say.
#[derive(Drop)]
pub enum CertType {
    Int,
    Bool,
    Text,
    Unit,
    /// The declared type of a number, with a set for each abstract member.
    Named {
        decl: u32,
        members: Items<NumberList>,
    },
    /// The declared type of a number, at one set.
    At {
        decl: u32,
        bound: NumberList,
    },
    /// The type of the scope's module itself, by 0, or of its literal of this number.
    Own {
        literal: u32,
    },
}

/// A pair of types that the left one is to be a subtype of the right one, by their numbers in the scope's list of types, from 0.
#[derive(Clone, Copy)]
pub struct CertPair {
    pub left: u32,
    pub right: u32,
}

/// A node of a derivation: its rule, its place, how many parts it has, its type by the number, and its effect.
#[derive(Drop)]
pub struct CertNode {
    pub rule: Rule,
    pub file: u32,
    pub line: u32,
    pub column: u32,
    pub parts: u32,
    /// 0 where the rule gives no type.
    pub typ: u32,
    pub effect: NumberList,
}

/// What is said of a scope: types, annotated pairs, plain pairs, the types of its `val`s by their numbers, and the nodes of its
/// bodies' derivations, parts before the whole.
#[derive(Drop)]
pub struct CertScope {
    pub types: Items<CertType>,
    pub pairs: Items<CertPair>,
    pub plain: Items<CertPair>,
    pub locals: NumberList,
    pub nodes: Items<CertNode>,
}

/// A certificate: what is said of each scope, in the order of the program's scopes.
pub type Certificate = Items<CertScope>;
