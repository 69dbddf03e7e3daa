//! The next place of a character in a text.

ghost use Rattle.std.specs.Prelude.{◌≡◌, ◌==◌};
ghost use Rattle.std.specs.Str.{chars};
ghost use Rattle.tcl_glob.specs.Seek.{to_separator};

/// What the text has left at the first place of the character, and nothing where it has no such place.
pub(crate) fn to_character(text: &str, wanted: char) -> &str
    ensures { chars result.now ≡ to_separator (λ c. c == wanted) (chars text.now) }
{
    match text.find(wanted) {
        Some(place) => &text[place..],
        None => "",
    }
}
