use wy_text::fault::Place;
use wy_text::limit::LimitName;

/// Why a file has no tokens (docs/LANGUAGE.md, "What is refused in a file").
#[derive(Drop)]
pub enum LexRefusal {
    /// A byte begins no well-formed character.
    NotUtf8(Place),
    /// A tab stands among the leading spaces of a line.
    TabIndent(Place),
    /// A line is narrower than the last one, and no open width is its own. The place is its first word's.
    BadDedent(Place),
    /// A character begins no word, or a control character stands in a text.
    BadCharacter(Place),
    /// A line ends inside a text. The place is the line's end.
    OpenText(Place),
    /// An escape in a text does not go on with the character.
    BadEscape(Place),
    /// A number is greater than 9223372036854775808. The place is its first digit's.
    NumberTooLarge(Place),
    /// A limit is passed: `FileBytes`, `NameBytes`, `Tokens`, `Indents` or `Marks`.
    Limit(LimitName),
    /// Memory was wanting.
    Memory,
}

/// What can be wrong at a place, in the order in which it comes where several things are.
#[derive(Clone, Copy)]
pub enum Fault {
    NameBytes,
    Tokens,
    Indents,
    Marks,
    NotUtf8,
    TabIndent,
    BadDedent,
    BadCharacter,
    OpenText,
    BadEscape,
    NumberTooLarge,
}
