//! What stands between words and between commands.

ghost use Rattle.std.specs.Prelude.{◌≡◌};
ghost use Rattle.std.specs.Str.{chars};
ghost use Rattle.tcl_words.specs.declared.blanks.Gap.TheVariants.{Between};
ghost use Rattle.tcl_words.specs.Words as spec;

use tcl_chars::{begins, is_word_space, split_first};

/// Where a reader of separators stands.
#[derive(Clone, Copy, Debug, PartialEq, Eq)]
pub(crate) enum Gap {
    /// Between commands.
    Between,
    /// In a comment. Does a backslash hide the next character?
    Comment(bool),
}

/// What follows the word space and the backslash-newlines at the front. Tcl(n), rule 3.
#[tactic(auto, unfolding(crate::specs::Words::after_blanks))]
pub(crate) fn after_blanks(text: &str) -> &str
    ensures { chars result.now ≡ spec.after_blanks (chars text.now) }
{
    let mut rest = text;
    while let Some((c, after)) = split_first(rest) {
        if is_word_space(c) {
            rest = after;
        } else if c == '\\' {
            match split_first(after) {
                Some(('\n', next)) => rest = next,
                _ => break,
            }
        } else {
            break;
        }
    }
    rest
}

/// Does a word end here: at the end of the text, before a separator, or inside brackets before `]`?
pub(crate) fn ends_word(nested: bool, text: &str) -> bool
    ensures { result ≡ spec.ends_word nested (chars text.now) }
{
    match split_first(text) {
        None => true,
        Some((c, rest)) => {
            is_word_space(c)
                || c == '\n'
                || c == ';'
                || (nested && c == ']')
                || (c == '\\' && begins('\n', rest))
        }
    }
}

/// What follows the separators and the comments at the front. Tcl(n), rules 1 and 10.
#[tactic(auto, unfolding(crate::specs::Words::after_gaps))]
pub(crate) fn after_gaps(text: &str) -> &str
    ensures { chars result.now ≡ spec.after_gaps Between (chars text.now) }
{
    let mut rest = text;
    let mut gap = Gap::Between;
    while let Some((c, after)) = split_first(rest) {
        gap = match gap {
            Gap::Between => {
                if is_word_space(c) || c == '\n' || c == ';' || (c == '\\' && begins('\n', after)) {
                    Gap::Between
                } else if c == '#' {
                    Gap::Comment(false)
                } else {
                    break;
                }
            }
            Gap::Comment(true) => Gap::Comment(false),
            Gap::Comment(false) => {
                if c == '\n' {
                    Gap::Between
                } else {
                    Gap::Comment(c == '\\')
                }
            }
        };
        rest = after;
    }
    rest
}
