//! The laws on printed texts (docs/LANGUAGE.md, "Canonical form"), and one on the words of files. No function here does
//! anything: what each says is its clause.
#![tactic(auto)]

ghost use Rattle.wy_canonical.specs.OwnWords.{TreesHaveWords};
ghost use Rattle.wy_canonical.specs.Printed.{PrintedAgain, PrintedOrLimited, PrintedTrees, TokensWithinLimits};

/// The canonical form of a file's tree has tokens that spell the same tree but for places, or a limit of layout comes
/// first in it.
pub fn printed_or_limited()
    ensures { PrintedOrLimited }
{}

/// The canonical form of a file's tree, where it passes no limit of layout, has tokens, and they spell the same tree
/// but for places.
pub fn printed_trees()
    ensures { PrintedTrees }
{}

/// The canonical form reads no place: trees that are the same but for places have one canonical form.
pub fn printed_again()
    ensures { PrintedAgain }
{}

/// A text that has tokens passes no limit of layout.
pub fn tokens_within_limits()
    ensures { TokensWithinLimits }
{}

/// Each item of a file is spelled by tokens whose names have no space and no full stop in them and are none of `main`,
/// `init` and `run`, and which are no more than a file may have.
pub fn trees_have_words()
    ensures { TreesHaveWords }
{}
