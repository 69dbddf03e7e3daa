//! Words that commands of channels share.
ghost use Rattle.std.specs.Prelude.{◌≡◌};
ghost use Rattle.std.specs.Str.{chars};
ghost use Rattle.tcl_meaning.specs.Channels as spec;

use tcl_chars::is_text;

/// Is the word the option that leaves the newline out?
pub(crate) fn is_nonewline(word: &str) -> bool
    ensures { result ≡ spec.is_nonewline (chars word.now) }
{
    is_text(word, "-nonewline")
}
