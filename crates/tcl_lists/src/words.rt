//! The words behind a command's name, read as texts, lists and places. A reading leaves them as they were.

ghost use Rattle.std.specs.Prelude.{◌≡◌, ◌<◌, ◌+ℤ◌, pos, [], length, IfOk};
ghost use Rattle.tcl_chars.specs.Answers.{Answers, Stops};
ghost use Rattle.tcl_chars.specs.Index.{clamp};
ghost use Rattle.tcl_chars.specs.Texts.{text_of};
ghost use Rattle.tcl_list.specs.Elements.{elements_of};
ghost use Rattle.tcl_lists.specs.WordAt.{word, fault_in_front};
ghost use Rattle.tcl_pages.specs.Lists as spec;

use std::alloc::{AllocError, Global};
use std::rc::RcStr;
use tcl_arguments::position_at;
use tcl_chars::{Dialect, Fault, message, place_of};
use tcl_values::{Row, Value};

/// The text of the word at a place.
pub(crate) fn text_at(alloc: Global, words: &mut [Value], place: usize) -> Result<RcStr, AllocError>
    requires { place < length words.old }
    ensures text { IfOk result (λ t. text_of t ≡ word words.old place) }
    ensures same { words.new ≡ words.old }
{
    words[place].text(alloc)
}

/// The elements of the word at a place.
pub(crate) fn row_at(alloc: Global, words: &mut [Value], place: usize) -> Result<Row, Fault>
    requires { place < length words.old }
    ensures row { Answers (λ r. r) result (elements_of (word words.old place)) }
    ensures same { words.new ≡ words.old }
{
    words[place].row(alloc)
}

/// A value of the same text as the word at a place.
pub(crate) fn copy_at(words: &[Value], place: usize) -> Result<Value, AllocError>
    requires { place < length words.now }
    ensures { IfOk result (λ v. v ≡ word words.now place) }
{
    words[place].copy()
}

/// The elements of the word at a place, as values.
pub(crate) fn list_at(alloc: Global, words: &mut [Value], place: usize) -> Result<Vec<Value>, Fault>
    requires { place < length words.old }
    ensures list { Answers (λ v. v.items) result (elements_of (word words.old place)) }
    ensures same { words.new ≡ words.old }
{
    words[place].list(alloc)
}

/// The fault of a word that is to be a list, and where it has none this message.
pub(crate) fn fault_in_front(
    alloc: Global,
    words: &mut [Value],
    place: usize,
    message: RcStr,
) -> Fault
    requires { place < length words.old }
    ensures fault { Stops result (fault_in_front (word words.old place) (text_of message)) }
    ensures same { words.new ≡ words.old }
{
    match row_at(alloc, words, place) {
        Ok(_) => Fault::Error(message),
        Err(fault) => fault,
    }
}

/// The empty text.
pub(crate) fn empty(alloc: Global) -> Result<Value, AllocError>
    ensures { IfOk result (λ v. v ≡ []) }
{
    Value::of_str(alloc, "")
}

/// The place among `count` elements that the word at a place says.
pub(crate) fn index_at(
    alloc: Global,
    words: &mut [Value],
    place: usize,
    count: usize,
    dialect: Dialect,
) -> Result<i128, Fault>
    requires { place < length words.old }
    ensures index { Answers (λ z. z) result (spec.index dialect (word words.old place) count) }
    ensures same { words.new ≡ words.old }
{
    let position = position_at(alloc, words, place, dialect)?;
    Ok(place_of(position, count))
}

/// The place from 0 to `count` that is nearest to the one behind a place.
pub(crate) fn behind(place: i128, count: usize) -> usize
    ensures { result ≡ clamp (place +ℤ pos 1) count }
{
    if place < 0 {
        return 0;
    }
    if place >= i128::from(count as u64) {
        return count;
    }
    place as usize + 1
}
