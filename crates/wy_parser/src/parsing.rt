//! The parser's one call.
ghost use Rattle.std.specs.Prelude.{◌≡◌, List, IfOk, IfErr};
ghost use Rattle.wy_text.specs.TokenLists.{EndsOnce, IndentsWithin, MarksWithin};
ghost use Rattle.wy_syntax.specs.Tokens.{toks};
ghost use Rattle.wy_syntax.specs.Trees.{ItemTree};
ghost use Rattle.wy_syntax.specs.Views.{file_tree};
ghost use Rattle.wy_syntax.specs.Grammar.{Spells};
ghost use Rattle.wy_parser.specs.Refused.{IsRefused};

use crate::copying::copy_kind;
use crate::items::file;
use crate::stop::Stop;
use std::alloc::Global;
use wy_syntax::items::Tree;
use wy_text::fault::Place;
use wy_text::text::Memory;
use wy_text::token::{Token, TokenKind};

/// Why there is no tree: the first token that fits nothing, or want of memory.
#[derive(Drop)]
pub enum ParseRefusal {
    Unexpected { place: Place, token: TokenKind },
    Memory,
}

impl From<Memory> for ParseRefusal {
    ghost use Rattle.wy_parser.specs.declared.parsing.ParseRefusal.TheVariants.{Memory as NoMemory};

    ghost from_gives = { λ _ error. error ≡ NoMemory };

    fn from(_memory: Memory) -> ParseRefusal {
        ParseRefusal::Memory
    }
}

/// The tree that a file's tokens spell. The last token and no other is `End`, and they pass no limit on indents and
/// marks, which bound how deep trees are nested. No other tree is spelled by them. `Unexpected` comes exactly where
/// no tree is: its token is the first one such that no token list that spells a tree begins with the tokens up to it
/// and with it (docs/LANGUAGE.md, "Grammar").
pub fn parse(alloc: Global, tokens: &[Token]) -> Result<Tree, ParseRefusal>
    requires ends { EndsOnce tokens.now }
    requires indents { IndentsWithin 0 tokens.now }
    requires marks { MarksWithin 0 0 tokens.now }
    ensures tree { IfOk result (λ t. Spells (toks tokens.now) (file_tree t)) }
    ensures only { IfOk result (λ t. (other : List ItemTree) → Spells (toks tokens.now) other → other ≡ file_tree t) }
    ensures refused { IfErr result (λ e. IsRefused (toks tokens.now) e) }
{
    match file(alloc, tokens, tokens.len() + 2) {
        Ok((items, _)) => Ok(Tree { items }),
        Err(Stop::At([first, ..])) => {
            let token = copy_kind(&first.kind)?;
            Err(ParseRefusal::Unexpected {
                place: first.place,
                token,
            })
        }
        Err(Stop::At([])) => unreachable!(),
        Err(Stop::Deep) => unreachable!(),
        Err(Stop::Memory) => Err(ParseRefusal::Memory),
    }
}
