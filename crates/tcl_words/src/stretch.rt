//! Stretches of a text, and the escapes in it.

ghost use Rattle.std.specs.Prelude.{◌≡◌, true, drop};
ghost use Rattle.std.specs.Str.{chars};
ghost use Rattle.tcl_chars.specs.Characters as character;
ghost use Rattle.tcl_chars.specs.Escape.{escape};
ghost use Rattle.tcl_chars.specs.Place.{EndsWith, begins};
ghost use Rattle.tcl_words.specs.Parts.{stretch_of};
ghost use Rattle.tcl_words.specs.Words as spec;

use crate::word::Span;
use tcl_chars::{backslash, before, place};

/// What stands between two places of a text of `size` bytes.
pub(crate) fn stretch<'a>(size: usize, from: &'a str, to: &str) -> Span<'a>
    requires { EndsWith (chars from.now) (chars to.now) }
    ensures { stretch_of result ≡ spec.stretch size (chars from.now) (chars to.now) }
{
    Span {
        start: place(size, from),
        text: before(from, to),
    }
}

/// What the backslash form that begins a text stands for, and what follows it.
pub(crate) fn escaped(text: &str) -> (char, &str)
    requires { begins character.backslash (chars text.now) ≡ true }
    ensures meant { result.0 ≡ (escape (chars text.now)).0 }
    ensures rest { chars result.1.now ≡ drop (escape (chars text.now)).1 (chars text.now) }
{
    let (meant, taken) = backslash(text);
    (meant, &text[taken..])
}
