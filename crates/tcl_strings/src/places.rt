//! Characters by their places: string(n), length, index, range, replace.

ghost use Rattle.std.specs.Prelude.{◌≡◌, ◌++◌, length, take, [], option_map, slice_get, unwrap_or, IfOk};
ghost use Rattle.std.specs.Str.{chars};
ghost use Rattle.std.specs.String.{string_bytes};
ghost use Rattle.tcl_chars.specs.Answers.{Answers};
ghost use Rattle.tcl_chars.specs.Texts.{text_of};
ghost use Rattle.tcl_pages.specs.Strings as spec;

use std::alloc::{AllocError, Global};
use std::rc::RcStr;
use tcl_arguments::{
    behind, index_of, index_of_word, one_text, text_at, three_or_four_texts, three_texts, two_texts,
};
use tcl_chars::{Dialect, Fault, clamp, push_text};
use tcl_values::{Places, Value};

/// How many characters the text has.
pub(crate) fn count(text: &str) -> usize
    ensures { result ≡ length (chars text.now) }
{
    Places::of(text).len()
}

/// An empty text with room for `size` bytes.
#[tactic(auto, using(crate::proofs::Empty::no_chars))]
pub(crate) fn room(alloc: Global, size: usize) -> Result<String, AllocError>
    ensures { IfOk result (λ s. chars (string_bytes s) ≡ []) }
{
    String::with_capacity(alloc, size)
}

/// The first `count` characters of the text, or all of them where there are fewer.
pub(crate) fn front(text: &str, count: usize) -> &str
    ensures { chars result.now ≡ take count (chars text.now) }
{
    Places::of(text).front(count)
}

/// The character at a place, and nothing where the text has no such place.
#[tactic(auto, using(crate::proofs::Empty::no_chars, crate::proofs::Empty::nothing_behind, crate::proofs::Bytes::one_between))]
fn at_place<'a>(places: &Places<'a>, place: i128) -> &'a str
    ensures { chars result.now ≡ spec.at_place places.now place }
{
    if place < 0 {
        return "";
    }
    if place >= i128::from(places.len() as u64) {
        return "";
    }
    let place = place as usize;
    places.part(place, place + 1)
}

/// Is first above last or past the end, or last below 0?
fn replaces_nothing(count: usize, first: i128, last: i128) -> bool
    ensures { result ≡ spec.replaces_nothing count first last }
{
    last < first || first >= i128::from(count as u64) || last < 0
}

/// The text with `new` in place of the characters from the first place to the last one.
fn replaced(
    alloc: Global,
    places: &Places<'_>,
    first: i128,
    last: i128,
    new: &str,
) -> Result<String, AllocError>
    ensures { IfOk result (λ s. chars (string_bytes s) ≡ spec.replaced_text places.now first last (chars new.now)) }
{
    let text = places.text();
    let count = places.len();
    if replaces_nothing(count, first, last) {
        return String::from_str(alloc, text);
    }
    let mut changed = room(alloc, text.len())?;
    push_text(&mut changed, places.front(clamp(first, count)))?;
    push_text(&mut changed, new)?;
    push_text(&mut changed, places.rest(behind(last, count)))?;
    Ok(changed)
}

/// The text of the word at a place, if there is such a word.
pub(crate) fn text_if(
    alloc: Global,
    words: &mut [Value],
    place: usize,
) -> Result<Option<RcStr>, AllocError>
    ensures text { IfOk result (λ t. option_map text_of t ≡ slice_get words.old place) }
    ensures same { words.new ≡ words.old }
{
    if place < words.len() {
        Ok(Some(text_at(alloc, words, place)?))
    } else {
        Ok(None)
    }
}

/// The value that is a text.
pub(crate) fn value_of(alloc: Global, text: &str) -> Result<Value, AllocError>
    ensures { IfOk result (λ v. v ≡ chars text.now) }
{
    Value::of_str(alloc, text)
}

/// `string length string`: how many characters the text has.
///
/// # Errors
///
/// `Fault::Error` with the usage, `Fault::Memory`.
#[tactic(auto, using(tcl_arguments::proofs::Arguments::is_one))]
pub fn string_length(alloc: Global, words: &mut [Value]) -> Result<Value, Fault>
    ensures answer { Answers (λ v. v) result (spec.string_length words.old) }
    ensures same { words.new ≡ words.old }
{
    if words.len() == 1 {
        if let Some(places) = words[0].places() {
            return Ok(Value::of_count(alloc, places.len() as u64)?);
        }
    }
    let text = one_text(alloc, words, "string length string")?;
    Ok(Value::of_count(alloc, count(text.as_str()) as u64)?)
}

/// `string index string charIndex`: the character at the place, or nothing.
///
/// # Errors
///
/// `Fault::Error` with the usage or the bad index, `Fault::Memory`.
#[tactic(auto, using(tcl_arguments::proofs::Arguments::are_two))]
pub fn string_index(alloc: Global, words: &mut [Value], dialect: Dialect) -> Result<Value, Fault>
    ensures answer { Answers (λ v. v) result (spec.string_index dialect words.old) }
    ensures same { words.new ≡ words.old }
{
    if words.len() == 2 {
        if let Some(places) = words[0].places() {
            let place = index_of_word(alloc, &words[1], places.len(), dialect)?;
            return Ok(value_of(alloc, at_place(&places, place))?);
        }
    }
    let (text, index) = two_texts(alloc, words, "string index string charIndex")?;
    let places = Places::of(text.as_str());
    let place = index_of(alloc, index.as_str(), places.len(), dialect)?;
    Ok(value_of(alloc, at_place(&places, place))?)
}

/// `string range string first last`: the characters from the first place to the last one.
///
/// # Errors
///
/// `Fault::Error` with the usage or the first bad index, `Fault::Memory`.
#[tactic(auto, using(tcl_arguments::proofs::Arguments::are_three))]
pub fn string_range(alloc: Global, words: &mut [Value], dialect: Dialect) -> Result<Value, Fault>
    ensures answer { Answers (λ v. v) result (spec.string_range dialect words.old) }
    ensures same { words.new ≡ words.old }
{
    if words.len() == 3 {
        if let Some(places) = words[0].places() {
            let count = places.len();
            let first = index_of_word(alloc, &words[1], count, dialect)?;
            let last = index_of_word(alloc, &words[2], count, dialect)?;
            let part = places.part(clamp(first, count), behind(last, count));
            return Ok(value_of(alloc, part)?);
        }
    }
    let (text, first, last) = three_texts(alloc, words, "string range string first last")?;
    let places = Places::of(text.as_str());
    let count = places.len();
    let first = index_of(alloc, first.as_str(), count, dialect)?;
    let last = index_of(alloc, last.as_str(), count, dialect)?;
    let part = places.part(clamp(first, count), behind(last, count));
    Ok(value_of(alloc, part)?)
}

/// The text, or an empty one where there is none.
#[tactic(auto, using(crate::proofs::Empty::no_chars))]
fn or_empty(text: &Option<RcStr>) -> &str
    ensures { chars result.now ≡ unwrap_or (option_map text_of text.now) [] }
{
    match text {
        Some(text) => text.as_str(),
        None => "",
    }
}

/// `string replace string first last ?string?`: the text with another in place of the characters from the first place to the
/// last one.
///
/// # Errors
///
/// `Fault::Error` with the usage or the first bad index, `Fault::Memory`.
#[tactic(auto, using(tcl_arguments::proofs::Arguments::three_and_maybe))]
pub fn string_replace(alloc: Global, words: &mut [Value], dialect: Dialect) -> Result<Value, Fault>
    ensures answer { Answers (λ v. v) result (spec.string_replace dialect words.old) }
    ensures same { words.new ≡ words.old }
{
    if words.len() == 3 || words.len() == 4 {
        let new = text_if(alloc, words, 3)?;
        if let Some(places) = words[0].places() {
            let count = places.len();
            let first = index_of_word(alloc, &words[1], count, dialect)?;
            let last = index_of_word(alloc, &words[2], count, dialect)?;
            let changed = replaced(alloc, &places, first, last, or_empty(&new))?;
            return Ok(Value::of_string(alloc, changed)?);
        }
    }
    let (text, first, last, new) = three_or_four_texts(
        alloc,
        words,
        "string replace string first last ?string?",
    )?;
    let places = Places::of(text.as_str());
    let count = places.len();
    let first = index_of(alloc, first.as_str(), count, dialect)?;
    let last = index_of(alloc, last.as_str(), count, dialect)?;
    let changed = replaced(alloc, &places, first, last, or_empty(&new))?;
    Ok(Value::of_string(alloc, changed)?)
}
