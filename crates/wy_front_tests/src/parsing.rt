ghost use Rattle.std.specs.Prelude.{IfOk};
ghost use Rattle.wy_layout.specs.Counts.{IsWhole};

use std::alloc::Global;
use std::test::Fail;
use wy_layout::lex;
use wy_parser::{ParseRefusal, parse};
use wy_syntax::items::{Item, Member, Tree};
use wy_text::token::{Token, TokenKind};

fn tokens_of(alloc: Global, text: &str) -> Result<Vec<Token>, Fail>
    ensures { IfOk result (λ v. IsWhole v.items) }
{
    match lex(alloc, 1, text.as_bytes()) {
        Ok(tokens) => Ok(tokens),
        Err(_) => Err(Fail::new(format_args!("a text has no tokens"))),
    }
}

fn parsed(alloc: Global, text: &str) -> Result<Result<Tree, ParseRefusal>, Fail> {
    let tokens = tokens_of(alloc, text)?;
    Ok(parse(alloc, tokens.as_slice()))
}

#[test]
fn the_empty_file_has_no_item(rt: HostRuntime) -> Result<(), Fail> {
    let alloc = rt.alloc();
    match parsed(alloc, "")? {
        Ok(tree) => assert_eq!(rt; tree.items.len(), 0),
        Err(_) => panic!(rt; "refused"),
    }
    Ok(())
}

/// Whether a file is a type with the method `m` alone.
fn has_method(tree: &Tree) -> bool {
    let [Item::Type(decl)] = tree.items.as_slice() else {
        return false;
    };
    match decl.members.as_slice() {
        [Member::Method(signature)] => signature.name.text.as_bytes() == b"m".as_slice(),
        _ => false,
    }
}

#[test]
fn a_type_has_its_method(rt: HostRuntime) -> Result<(), Fail> {
    match parsed(rt.alloc(), "type T\n  def m(): {} Unit\n")? {
        Ok(tree) => assert!(rt; has_method(&tree)),
        Err(_) => panic!(rt; "refused"),
    }
    Ok(())
}

/// Whether it is the end of a line, at the place.
fn is_line_end(refusal: &ParseRefusal, at: (u32, u32)) -> bool {
    match refusal {
        ParseRefusal::Unexpected {
            place,
            token: TokenKind::Nl,
        } => (place.line, place.column) == at,
        _ => false,
    }
}

#[test]
fn the_first_token_that_fits_nothing_is_named(rt: HostRuntime) -> Result<(), Fail> {
    match parsed(rt.alloc(), "type\ntype")? {
        Err(refusal) => assert!(rt; is_line_end(&refusal, (1, 5))),
        Ok(_) => panic!(rt; "accepted"),
    }
    Ok(())
}
