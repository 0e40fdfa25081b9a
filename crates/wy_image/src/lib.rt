//! Image files: code, and what each instance states of it, as data and as bytes (docs/PROMISES.md, "Images").
#![tactic(auto)]

mod arguments;
mod atoms;
mod bodies;
mod bounds;
mod captures;
mod constants;
mod decoding;
mod encoding;
mod entries;
mod file;
mod grants;
mod images;
mod instances;
mod instructions;
pub mod laws;
mod literals;
mod mains;
mod operators;
mod primitives;
mod references;
mod rows;
mod scopes;
mod signatures;
mod targets;
mod typing;
mod typings;

pub use decoding::{DecodeRefusal, decode};
pub use encoding::encode;
pub use file::{
    Argument, Body, Capture, Constant, Entry, Grant, ImageFile, Instance, Instruction, Literal,
    Main, Row, Scope,
};
pub use typing::{Atom, Bounds, Listed, Reference, Signature, Target, Typing, Values};
pub use wy_spelling::WriteRefusal;
