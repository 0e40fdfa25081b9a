//! Whether bytes are a name that may be given to a thing (docs/LANGUAGE.md, "Tokens").
ghost use Rattle.std.specs.Prelude.{◌≡◌};
ghost use Rattle.std.specs.List.{list_all};
ghost use Rattle.std.specs.Str.{chars};
ghost use Rattle.unicode_ident.specs.Ident.{is_xid_continue};
ghost use Rattle.wy_layout.specs.Characters.{is_name_of};
ghost use Rattle.wy_layout.specs.Identifiers.{is_identifier};
ghost use Rattle.wy_layout.specs.Words.{among, reserved};

use crate::kinds::reserved_kind;
use crate::names::first_char;
use unicode_ident::{is_xid_continue, is_xid_start};

/// Whether all characters of a text go on with a name.
fn all_continue(text: &str) -> bool
    ensures { result ≡ list_all is_xid_continue (chars text.now) }
{
    text.chars().all(is_xid_continue)
}

/// Whether the characters of a text are a name's.
fn has_name_characters(text: &str) -> bool
    ensures { result ≡ is_name_of (chars text.now) }
{
    let Some((first, rest)) = first_char(text) else {
        return false;
    };
    (is_xid_start(first) || first == '_') && all_continue(rest)
}

/// Whether bytes are a reserved word.
fn is_reserved(word: &[u8]) -> bool
    ensures { result ≡ among word.now reserved }
{
    reserved_kind(word).is_some()
}

/// Whether bytes are a name of the language, and no reserved word: well-formed UTF-8 whose first character begins a name or
/// is `_`, and whose others go on in one. Their number is not limited here (docs/LANGUAGE.md, "Tokens").
pub fn is_identifier(word: &[u8]) -> bool
    ensures { result ≡ is_identifier word.now }
{
    match std::str::from_utf8(word) {
        Ok(text) => has_name_characters(text) && !is_reserved(word),
        Err(_) => false,
    }
}
