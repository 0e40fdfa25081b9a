//! Layout and tokens: the words of a file's lines, and the tokens that stand for them and for the
//! lines' widths (docs/LANGUAGE.md, "Layout", "Tokens").
#![tactic(auto)]

pub mod count;
mod escape;
mod file;
mod identifiers;
mod kinds;
pub mod laws;
mod line;
mod lines;
mod names;
pub mod refusal;
pub mod row;
mod widths;
mod words;

pub use file::lex;
pub use identifiers::is_identifier;
pub use refusal::LexRefusal;
pub use wy_text::token::{Token, TokenKind};
