//! Laws of the definition of layout and tokens. No function here does anything: what it says is its clause.

ghost use Rattle.wy_layout.specs.Printed.{PrintedWords, QuotedTexts, SpelledKinds};
ghost use Rattle.wy_layout.specs.Characters.{NamesByCharacters};
ghost use Rattle.wy_layout.specs.Spans.{SpansInOrder};
ghost use Rattle.wy_layout.specs.Laws.{Decided, NothingWrong, OneFault, OneList, OneOutForEach, OpenByLines, OpenDescend, PlacesOfOffsets, StepByLines, TokensNameTheirFile};

/// A file has at most one list of tokens.
pub fn one_list()
    ensures { OneList }
{}

/// In a file with tokens nothing is wrong.
pub fn nothing_wrong()
    ensures { NothingWrong }
{}

/// A file within the limit on bytes has tokens, or something wrong in it comes first.
pub fn decided()
    ensures { Decided }
{}

/// Of what is wrong in a file one thing comes first.
pub fn one_fault()
    ensures { OneFault }
{}

/// Each token has the place of its offset in the file.
pub fn places_of_offsets()
    ensures { PlacesOfOffsets }
{}

/// The place of each token of a file has the number of the file.
pub fn tokens_name_their_file()
    ensures { TokensNameTheirFile }
{}

/// The open widths before a line are 0 and the widths of earlier lines, where no line between is narrower.
pub fn open_by_lines()
    ensures { OpenByLines }
{}

/// The open widths descend, so none of them is there twice.
pub fn open_descend()
    ensures { OpenDescend }
{}

/// The Outs before a line are one for each open width that is greater than its own.
pub fn one_out_for_each()
    ensures { OneOutForEach }
{}

/// What stands before a line is as its width and the open widths say.
pub fn step_by_lines()
    ensures { StepByLines }
{}

/// A printed word is read as itself, where nothing behind it goes on with it.
pub fn printed_words()
    ensures { PrintedWords }
{}

/// The quoted form of bytes is a text that stands for them.
pub fn quoted_texts()
    ensures { QuotedTexts }
{}

/// A reserved word or a symbol is of the kind that is spelled so.
pub fn spelled_kinds()
    ensures { SpelledKinds }
{}

/// Bytes that are text are a name exactly where their first character begins one and the others go on in it.
pub fn names_by_characters()
    ensures { NamesByCharacters }
{}

/// The spans of a file's tokens stand in order, within its bytes.
pub fn spans_in_order()
    ensures { SpansInOrder }
{}
