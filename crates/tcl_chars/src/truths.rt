//! Truth texts.
ghost use Rattle.std.specs.Prelude.{◌≡◌, map};
ghost use Rattle.std.specs.Str.{chars};
ghost use Rattle.std.specs.Char.{to_ascii_lowercase};
ghost use Rattle.tcl_chars.specs.Truth.{is_beginning, begins_yes, begins_no, word_truth, truth_of};

use crate::numbers::{Dialect, Whole, read_whole};
use crate::texts::split_first;

/// What a text says as a truth value.
#[derive(Clone, Copy, Debug, PartialEq, Eq)]
pub enum Truth {
    Yes,
    No,
    TooLarge,
    Not,
}

/// Is the text a beginning of the word, in any ASCII case?
fn begins(text: &str, word: &str) -> bool
    ensures { result ≡ is_beginning (map to_ascii_lowercase (chars text.now)) (chars word.now) }
{
    let mut left = text;
    let mut wanted = word;
    while let Some((c, after)) = split_first(left) {
        let Some((w, behind)) = split_first(wanted) else {
            return false;
        };
        if c.to_ascii_lowercase() != w {
            return false;
        }
        left = after;
        wanted = behind;
    }
    true
}

/// Is the text a beginning of a word that says yes?
fn begins_yes(text: &str) -> bool
    ensures { result ≡ begins_yes (map to_ascii_lowercase (chars text.now)) }
{
    begins(text, "true") || begins(text, "yes") || begins(text, "on")
}

/// Is the text a beginning of a word that says no?
fn begins_no(text: &str) -> bool
    ensures { result ≡ begins_no (map to_ascii_lowercase (chars text.now)) }
{
    begins(text, "false") || begins(text, "no") || begins(text, "off")
}

/// What a text says as a truth value (expr(n), Operands; string(n), `is boolean`): a number, yes unless it is 0, or an
/// unambiguous beginning of `true`, `yes`, `on`, `false`, `no` or `off` in any ASCII case.
pub fn read_truth(text: &str, dialect: Dialect) -> Truth
    ensures { result ≡ truth_of dialect (chars text.now) }
{
    match read_whole(text, dialect) {
        Whole::Number(number) => { if number == 0 { Truth::No } else { Truth::Yes } }
        Whole::TooLarge => Truth::TooLarge,
        Whole::Not => {
            let yes = begins_yes(text);
            let no = begins_no(text);
            match (yes, no) {
                (true, false) => Truth::Yes,
                (false, true) => Truth::No,
                _ => Truth::Not,
            }
        }
    }
}
