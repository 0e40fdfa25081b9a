ghost use Rattle.std.specs.Prelude.{◌≡◌, ◌≤◌, ◌+◌, length, map, IfOk, IfErr, OnOk};
ghost use Rattle.wy_syntax.specs.Views.{file_tree};
ghost use Rattle.wy_canonical.specs.HasTree.{HasTree};
ghost use Rattle.wy_engine.specs.FileTrees.{FirstNoTree, HasNoTree, HaveTrees};
ghost use Rattle.wy_engine.specs.Parsed.{AddsTrees, IfNotMemory, lexical_status};

use crate::status::{Status, SyntaxKind};
use std::alloc::Global;
use wy_layout::lex;
use wy_layout::refusal::LexRefusal;
use wy_parser::{ParseRefusal, parse};
use wy_syntax::items::Tree;
use wy_text::fault::Place;
use wy_text::text::Text;

fn syntax(place: Place, kind: SyntaxKind) -> Status
    ensures { result ≡ Status.Syntax place kind }
{
    Status::Syntax { place, kind }
}

/// Returns the status of a call that stops at a file without tokens.
fn lexical(refusal: LexRefusal) -> Status
    ensures { result ≡ lexical_status refusal }
{
    match refusal {
        LexRefusal::NotUtf8(place) => syntax(place, SyntaxKind::NotUtf8),
        LexRefusal::TabIndent(place) => syntax(place, SyntaxKind::TabIndent),
        LexRefusal::BadDedent(place) => syntax(place, SyntaxKind::BadDedent),
        LexRefusal::BadCharacter(place) => syntax(place, SyntaxKind::BadCharacter),
        LexRefusal::OpenText(place) => syntax(place, SyntaxKind::OpenText),
        LexRefusal::BadEscape(place) => syntax(place, SyntaxKind::BadEscape),
        LexRefusal::NumberTooLarge(place) => syntax(place, SyntaxKind::NumberTooLarge),
        LexRefusal::Limit(name) => Status::Limit(name),
        LexRefusal::Memory => Status::Memory,
    }
}

/// Returns the tree of a file's bytes. The error is the status of a call that stops at this file.
fn parse_file(alloc: Global, file: u16, bytes: &[u8]) -> Result<Tree, Status>
    ensures tree { IfOk result (λ tree. HasTree file bytes.now (file_tree tree)) }
    ensures none { IfErr result (λ end. IfNotMemory end (HasNoTree file bytes.now end)) }
{
    let tokens = match lex(alloc, file, bytes) {
        Ok(tokens) => tokens,
        Err(refusal) => return Err(lexical(refusal)),
    };
    match parse(alloc, tokens.as_slice()) {
        Ok(tree) => Ok(tree),
        Err(ParseRefusal::Unexpected { place, .. }) => Err(syntax(place, SyntaxKind::Unexpected)),
        Err(ParseRefusal::Memory) => Err(Status::Memory),
    }
}

/// Adds the trees of texts in order. The first text is the file of this number. The error is the status of a call that stops at the
/// first text without a tree.
fn parse_from(alloc: Global, file: u16, texts: &[Text], trees: &mut Vec<Tree>) -> Result<(), Status>
    requires { file + length texts.now ≤ 65 }
    ensures trees { OnOk result (AddsTrees file texts.now (map file_tree trees.old.items) (map file_tree trees.new.items)) }
    ensures none { IfErr result (λ end. IfNotMemory end (FirstNoTree file texts.now end)) }
{
    let Some((text, rest)) = texts.split_first() else {
        return Ok(());
    };
    let tree = parse_file(alloc, file, text.as_bytes())?;
    if trees.push(tree).is_err() {
        return Err(Status::Memory);
    }
    parse_from(alloc, file + 1, rest, trees)
}

/// Returns the trees of texts, whose files are numbered from 1. The error is the status of a call that stops at the first text without
/// a tree.
pub fn parse_all(alloc: Global, texts: &[Text]) -> Result<Vec<Tree>, Status>
    requires { length texts.now ≤ 64 }
    ensures trees { IfOk result (λ trees. HaveTrees 1 texts.now (map file_tree trees.items)) }
    ensures none { IfErr result (λ end. IfNotMemory end (FirstNoTree 1 texts.now end)) }
{
    let mut trees = Vec::new(alloc);
    parse_from(alloc, 1, texts, &mut trees)?;
    Ok(trees)
}
