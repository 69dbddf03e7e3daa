//! Words that are numbers, and what is said of words.
ghost use Rattle.std.specs.Prelude.{◌≡◌, [], IfOk};
ghost use Rattle.std.specs.Str.{chars};
ghost use Rattle.tcl_chars.specs.Answers.{Answers};
ghost use Rattle.tcl_chars.specs.Messages.{about, whole_or};
ghost use Rattle.tcl_chars.specs.Texts.{text_of};
ghost use Rattle.tcl_chars.specs.Whole.{whole_of};

use std::alloc::{AllocError, Global};
use std::rc::RcStr;
use tcl_chars::{Dialect, Fault, Whole, about, message};
use tcl_values::Value;

/// What is said of a word: `before "word"`.
pub(crate) fn said_of(alloc: Global, before: &str, word: &str) -> Result<RcStr, AllocError>
    ensures { IfOk result (λ said. text_of said ≡ about (chars before.now) (chars word.now) []) }
{
    about(alloc, before, word, "")
}

/// The number that a word is, or what is said of a word that is none: `before "word"after`.
///
/// # Errors
///
/// `Fault::Error` where the word is no number, or one of more than 64 bits, `Fault::Memory`.
pub(crate) fn whole_or(
    alloc: Global,
    dialect: Dialect,
    word: &mut Value,
    before: &str,
    after: &str,
) -> Result<i64, Fault>
    ensures number { Answers (λ z. z) result (whole_or (about (chars before.now) word.old (chars after.now)) (whole_of dialect word.old)) }
    ensures same { word.new ≡ word.old }
{
    match word.whole(alloc, dialect)? {
        Whole::Number(number) => Ok(number),
        Whole::TooLarge => Err(Fault::Error(message(
            alloc,
            "integer value too large to represent",
        )?)),
        Whole::Not => {
            let text = word.text(alloc)?;
            Err(Fault::Error(about(alloc, before, text.as_str(), after)?))
        }
    }
}
