//! What tests build: programs from their texts, and sets of atoms.

use std::alloc::Global;
use std::test::Fail;
use wy_effects::atom::Atom;
use wy_effects::set::EffSet;
use wy_layout::lex;
use wy_names::{NameRefusal, resolve};
use wy_parser::parse;
use wy_syntax::items::Tree;
use wy_text::text::Memory;
use wy_types::resolved::Core;

/// The tree of a file of this number.
fn tree_of(alloc: Global, file: u16, text: &str) -> Result<Tree, Fail> {
    let Ok(tokens) = lex(alloc, file, text.as_bytes()) else {
        return Err(Fail::new(format_args!("a text has no tokens")));
    };
    match parse(alloc, tokens.as_slice()) {
        Ok(tree) => Ok(tree),
        Err(_) => Err(Fail::new(format_args!("a text has no tree"))),
    }
}

/// The trees of these files.
fn trees_of(alloc: Global, texts: &[&str]) -> Result<Vec<Tree>, Fail> {
    let mut trees = Vec::new(alloc);
    let mut file = 0;
    for text in texts {
        file = u16::wrapping_add(file, 1);
        trees.push(tree_of(alloc, file, text)?)?;
    }
    Ok(trees)
}

/// A program of one file, whose names are resolved.
pub fn core_of(alloc: Global, text: &str) -> Result<Core, Fail> {
    let trees = trees_of(alloc, &[text])?;
    match resolve(alloc, trees.as_slice()) {
        Ok(core) => Ok(core),
        Err(_) => Err("its names are refused".into()),
    }
}

/// Why the names of a program of these files are not resolved; `None` where they are.
pub fn refusal_of(alloc: Global, texts: &[&str]) -> Result<Option<NameRefusal>, Fail> {
    let trees = trees_of(alloc, texts)?;
    match resolve(alloc, trees.as_slice()) {
        Ok(_) => Ok(None),
        Err(refusal) => Ok(Some(refusal)),
    }
}

/// The set of these atoms, of which there are 512.
pub fn set_of(alloc: Global, atoms: &[u16]) -> Result<EffSet, Memory> {
    let mut set = EffSet::empty(alloc);
    for atom in atoms {
        if *atom < 512 {
            set.insert(Atom(*atom))?;
        }
    }
    Ok(set)
}
