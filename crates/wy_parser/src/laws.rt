//! Laws of the definition of grammar. No function here does anything: what it says is its clause.

ghost use Rattle.wy_parser.specs.Laws.{MarksOfTokens, NoTreeWithBadToken, OneFirstBadToken, OneTree, TreeOrFirstBadToken};

/// No list of tokens spells two trees.
pub fn one_tree()
    ensures { OneTree }
{}

/// Tokens of which the last one and no other is `End` spell a tree, or one of them is the first that is bad.
pub fn tree_or_first_bad_token()
    ensures { TreeOrFirstBadToken }
{}

/// Where a token is the first that is bad, the tokens spell no tree.
pub fn no_tree_with_bad_token()
    ensures { NoTreeWithBadToken }
{}

/// One token is the first that is bad.
pub fn one_first_bad_token()
    ensures { OneFirstBadToken }
{}

/// The marks of trees are places of the tokens that spell them: a test that the place of each token passes is passed by each mark
/// of the trees.
pub fn marks_are_of_the_tokens()
    ensures { MarksOfTokens }
{}
