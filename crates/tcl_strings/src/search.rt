//! Texts compared and sought in one another: string(n), compare, equal, match, first, last.

ghost use Rattle.std.specs.Prelude.{◌≡◌, true, false, length, drop, reverse, option_map, MatchOption, IfOk, IfSome};
ghost use Rattle.std.specs.Str.{chars};
ghost use Rattle.tcl_chars.specs.Answers.{Answers};
ghost use Rattle.tcl_chars.specs.Texts.{text_of};
ghost use Rattle.tcl_chars.specs.Truth.{is_beginning};
ghost use Rattle.tcl_pages.specs.Strings as spec;

use crate::ascii::{first_in_bytes, last_in_bytes};
use crate::places::{count, text_if, value_of};
use std::alloc::{AllocError, Global};
use std::cmp::Ordering;
use std::rc::RcStr;
use tcl_arguments::{behind, index_of, two_or_three_texts, two_texts};
use tcl_chars::{Dialect, Fault, clamp, compare, is_text, split_first, split_last};
use tcl_glob::glob_match;
use tcl_values::{Places, Value};

/// What an order is called.
fn order_text(order: Ordering) -> &'static str
    ensures { chars result.now ≡ spec.order_text order }
{
    match order {
        Ordering::Less => "-1",
        Ordering::Equal => "0",
        Ordering::Greater => "1",
    }
}

/// What the text has left behind a front, if it begins with it.
pub(crate) fn behind_front<'a>(front: &str, text: &'a str) -> Option<&'a str>
    ensures begins { MatchOption result (is_beginning (chars front.now) (chars text.now) ≡ false)
        (λ rest. is_beginning (chars front.now) (chars text.now) ≡ true) }
    ensures rest { IfSome result (λ rest. chars rest.now ≡ drop (length (chars front.now)) (chars text.now)) }
{
    let mut wanted = front;
    let mut rest = text;
    while let Some((c, more)) = split_first(wanted) {
        let (d, after) = split_first(rest)?;
        if c != d {
            return None;
        }
        wanted = more;
        rest = after;
    }
    Some(rest)
}

/// Is the place before another?
fn is_before(place: usize, start: i128) -> bool
    ensures { result ≡ spec.is_before place start }
{
    i128::from(place as u64) < start
}

/// The first place, not before the start, where the needle stands.
#[tactic(auto, using(crate::proofs::Finder::from_start, crate::proofs::Finder::left_from_start))]
fn first_place(needle: &str, places: &Places<'_>, start: i128) -> Option<usize>
    ensures { result ≡ spec.first_from start (spec.found_at (chars needle.now) places.now) }
{
    split_first(needle)?;
    let count = places.len();
    let mut place = clamp(start, count);
    let mut rest = places.rest(place);
    while let Some((_, after)) = split_first(rest) {
        if !is_before(place, start) && behind_front(needle, rest).is_some() {
            return Some(place);
        }
        place += 1;
        rest = after;
    }
    None
}

/// Does the text end with this one?
fn ends_with(text: &str, end: &str) -> bool
    ensures { result ≡ is_beginning (reverse (chars end.now)) (reverse (chars text.now)) }
{
    let mut wanted = end;
    let mut rest = text;
    while let Some((before, c)) = split_last(wanted) {
        let Some((front, d)) = split_last(rest) else {
            return false;
        };
        if c != d {
            return false;
        }
        wanted = before;
        rest = front;
    }
    true
}

/// The last place where the needle stands and ends at `end` at the latest. It is sought from there backwards.
#[tactic(auto, using(crate::proofs::Backwards::ended))]
fn last_place(needle: &str, places: &Places<'_>, end: i128) -> Option<usize>
    ensures { result ≡ spec.last_until (length (chars needle.now)) end None (spec.found_at (chars needle.now) places.now) }
{
    split_first(needle)?;
    let size = count(needle);
    let mut place = behind(end, places.len());
    let mut rest = places.front(place);
    while let Some((front, _)) = split_last(rest) {
        if ends_with(rest, needle) {
            return Some(place - size);
        }
        place -= 1;
        rest = front;
    }
    None
}

/// The value that is a place in decimal, or -1 where there is none.
fn place_value(alloc: Global, place: Option<usize>) -> Result<Value, AllocError>
    ensures { IfOk result (λ v. v ≡ spec.place_text place) }
{
    match place {
        Some(place) => Value::of_count(alloc, place as u64),
        None => value_of(alloc, "-1"),
    }
}

/// Where a search begins among `count` characters: at the first one where no index is given.
fn start_of(
    alloc: Global,
    index: &Option<RcStr>,
    count: usize,
    dialect: Dialect,
) -> Result<i128, Fault>
    ensures { Answers (λ z. z) result (spec.start_of dialect (option_map text_of index.now) count) }
{
    match index {
        Some(index) => index_of(alloc, index.as_str(), count, dialect),
        None => Ok(0),
    }
}

/// Where, among `count` characters, what is found must end at the latest: at the last one where no index is given.
fn end_of(
    alloc: Global,
    index: &Option<RcStr>,
    count: usize,
    dialect: Dialect,
) -> Result<i128, Fault>
    ensures { Answers (λ z. z) result (spec.end_of dialect (option_map text_of index.now) count) }
{
    match index {
        Some(index) => index_of(alloc, index.as_str(), count, dialect),
        None => Ok(i128::from(count as u64)),
    }
}

/// `string compare string1 string2`: -1, 0 or 1, as the first comes before, is or comes behind the second by code points.
///
/// # Errors
///
/// `Fault::Error` with the usage, `Fault::Memory`.
pub fn string_compare(alloc: Global, words: &mut [Value]) -> Result<Value, Fault>
    ensures answer { Answers (λ v. v) result (spec.string_compare words.old) }
    ensures same { words.new ≡ words.old }
{
    if words.len() == 2 {
        if let (Some(a), Some(b)) = (words[0].shown(), words[1].shown()) {
            return Ok(value_of(alloc, order_text(compare(a, b)))?);
        }
    }
    let (a, b) = two_texts(alloc, words, "string compare string1 string2")?;
    Ok(value_of(alloc, order_text(compare(a.as_str(), b.as_str())))?)
}

/// `string equal string1 string2`: 1 where the texts are the same, else 0.
///
/// # Errors
///
/// `Fault::Error` with the usage, `Fault::Memory`.
pub fn string_equal(alloc: Global, words: &mut [Value]) -> Result<Value, Fault>
    ensures answer { Answers (λ v. v) result (spec.string_equal words.old) }
    ensures same { words.new ≡ words.old }
{
    if words.len() == 2 {
        if let (Some(a), Some(b)) = (words[0].shown(), words[1].shown()) {
            return Ok(Value::of_truth(is_text(a, b)));
        }
    }
    let (a, b) = two_texts(alloc, words, "string equal string1 string2")?;
    Ok(Value::of_truth(is_text(a.as_str(), b.as_str())))
}

/// `string match pattern string`: 1 where the text matches the pattern, else 0.
///
/// # Errors
///
/// `Fault::Error` with the usage, `Fault::Memory`.
pub fn string_match(alloc: Global, words: &mut [Value]) -> Result<Value, Fault>
    ensures answer { Answers (λ v. v) result (spec.string_match words.old) }
    ensures same { words.new ≡ words.old }
{
    let (pattern, text) = two_texts(alloc, words, "string match pattern string")?;
    Ok(Value::of_truth(glob_match(pattern.as_str(), text.as_str())))
}

/// `string first needleString haystackString ?startIndex?`: the first place of the needle that isn't before the start, or -1.
///
/// # Errors
///
/// `Fault::Error` with the usage or the bad index, `Fault::Memory`.
#[tactic(auto, using(tcl_arguments::proofs::Arguments::two_and_maybe))]
pub fn string_first(alloc: Global, words: &mut [Value], dialect: Dialect) -> Result<Value, Fault>
    ensures answer { Answers (λ v. v) result (spec.string_first dialect words.old) }
    ensures same { words.new ≡ words.old }
{
    if words.len() == 2 || words.len() == 3 {
        let index = text_if(alloc, words, 2)?;
        if let (Some(needle), Some(text)) = (words[0].ascii(), words[1].ascii()) {
            let start = start_of(alloc, &index, text.len(), dialect)?;
            return Ok(place_value(alloc, first_in_bytes(needle, text, start))?);
        }
        if let (Some(needle), Some(places)) = (words[0].shown(), words[1].places()) {
            let start = start_of(alloc, &index, places.len(), dialect)?;
            return Ok(place_value(alloc, first_place(needle, &places, start))?);
        }
    }
    let (needle, text, index) = two_or_three_texts(
        alloc,
        words,
        "string first needleString haystackString ?startIndex?",
    )?;
    let places = Places::of(text.as_str());
    let start = start_of(alloc, &index, places.len(), dialect)?;
    let place = first_place(needle.as_str(), &places, start);
    Ok(place_value(alloc, place)?)
}

/// `string last needleString haystackString ?lastIndex?`: the last place of the needle at which it doesn't end behind the last
/// index, or -1.
///
/// # Errors
///
/// `Fault::Error` with the usage or the bad index, `Fault::Memory`.
#[tactic(auto, using(tcl_arguments::proofs::Arguments::two_and_maybe))]
pub fn string_last(alloc: Global, words: &mut [Value], dialect: Dialect) -> Result<Value, Fault>
    ensures answer { Answers (λ v. v) result (spec.string_last dialect words.old) }
    ensures same { words.new ≡ words.old }
{
    if words.len() == 2 || words.len() == 3 {
        let index = text_if(alloc, words, 2)?;
        if let (Some(needle), Some(text)) = (words[0].ascii(), words[1].ascii()) {
            let end = end_of(alloc, &index, text.len(), dialect)?;
            return Ok(place_value(alloc, last_in_bytes(needle, text, end))?);
        }
        if let (Some(needle), Some(places)) = (words[0].shown(), words[1].places()) {
            let end = end_of(alloc, &index, places.len(), dialect)?;
            return Ok(place_value(alloc, last_place(needle, &places, end))?);
        }
    }
    let (needle, text, index) = two_or_three_texts(
        alloc,
        words,
        "string last needleString haystackString ?lastIndex?",
    )?;
    let places = Places::of(text.as_str());
    let end = end_of(alloc, &index, places.len(), dialect)?;
    let place = last_place(needle.as_str(), &places, end);
    Ok(place_value(alloc, place)?)
}
