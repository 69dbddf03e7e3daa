//! Texts of a class: string(n), is.

ghost use Rattle.std.specs.Prelude.{◌≡◌, Ok, option_map, unwrap_or};
ghost use Rattle.std.specs.Str.{chars};
ghost use Rattle.tcl_chars.specs.Answers.{Answers};
ghost use Rattle.tcl_chars.specs.Texts.{text_of};
ghost use Rattle.tcl_chars.specs.Whole.{whole_of};
ghost use Rattle.tcl_list.specs.Elements.{elements_of};
ghost use Rattle.tcl_pages.specs.StringClasses as spec;

use std::alloc::Global;
use std::rc::RcStr;
use tcl_arguments::two_or_three_texts;
use tcl_chars::{
    Dialect, Fault, Truth, Whole, about, is_list_space, is_text, read_truth, read_whole,
    split_first,
};
use tcl_pages::{CharacterClass, StringClass};
use tcl_values::Value;

/// Is the character of the class?
fn character_is(class: CharacterClass, c: char) -> bool
    ensures { result ≡ spec.character_is class c }
{
    match class {
        CharacterClass::Alnum => c.is_ascii_alphanumeric(),
        CharacterClass::Alpha => c.is_ascii_alphabetic(),
        CharacterClass::Ascii => c.is_ascii(),
        CharacterClass::Digit => c.is_ascii_digit(),
        CharacterClass::Lower => c.is_ascii_lowercase(),
        CharacterClass::Space => is_list_space(c),
        CharacterClass::Upper => c.is_ascii_uppercase(),
        CharacterClass::Xdigit => c.is_ascii_hexdigit(),
    }
}

/// Is each character of the class?
fn every(class: CharacterClass, text: &str) -> bool
    ensures { result ≡ spec.every (spec.character_is class) (chars text.now) }
{
    let mut rest = text;
    while let Some((c, after)) = split_first(rest) {
        if !character_is(class, c) {
            return false;
        }
        rest = after;
    }
    true
}

/// The class of characters that a word names.
fn characters_named(word: &str) -> Option<CharacterClass>
    ensures { result ≡ spec.characters_named (chars word.now) }
{
    if is_text(word, "alnum") {
        return Some(CharacterClass::Alnum);
    }
    if is_text(word, "alpha") {
        return Some(CharacterClass::Alpha);
    }
    if is_text(word, "ascii") {
        return Some(CharacterClass::Ascii);
    }
    if is_text(word, "digit") {
        return Some(CharacterClass::Digit);
    }
    if is_text(word, "lower") {
        return Some(CharacterClass::Lower);
    }
    if is_text(word, "space") {
        return Some(CharacterClass::Space);
    }
    if is_text(word, "upper") {
        return Some(CharacterClass::Upper);
    }
    if is_text(word, "xdigit") {
        return Some(CharacterClass::Xdigit);
    }
    None
}

/// The class that a word names.
fn class_named(word: &str) -> Option<StringClass>
    ensures { result ≡ spec.class_named (chars word.now) }
{
    if is_text(word, "boolean") {
        return Some(StringClass::Boolean);
    }
    if is_text(word, "false") {
        return Some(StringClass::False);
    }
    if is_text(word, "integer") {
        return Some(StringClass::Integer);
    }
    if is_text(word, "list") {
        return Some(StringClass::List);
    }
    if is_text(word, "true") {
        return Some(StringClass::True);
    }
    if is_text(word, "wideinteger") {
        return Some(StringClass::Wideinteger);
    }
    let characters = characters_named(word)?;
    Some(StringClass::Characters(characters))
}

/// The class that a word names, or the error of one that names none.
fn class_of(alloc: Global, word: &str) -> Result<StringClass, Fault>
    ensures { Answers (λ c. c) result (spec.class_or (chars word.now) (spec.class_named (chars word.now))) }
{
    match class_named(word) {
        Some(class) => Ok(class),
        None => Err(Fault::Error(about(
            alloc,
            "bad class",
            word,
            ": must be alnum, alpha, ascii, boolean, digit, false, integer, list, lower, space, true, upper, wideinteger, or xdigit",
        )?)),
    }
}

/// Is the word in front of the text `-strict`? The text may stand alone.
fn is_strict(alloc: Global, word: &str, text: &Option<RcStr>) -> Result<bool, Fault>
    ensures { Answers (λ b. b) result (spec.is_strict (chars word.now) (option_map text_of text.now)) }
{
    if text.is_none() {
        return Ok(false);
    }
    if is_text(word, "-strict") {
        return Ok(true);
    }
    Err(Fault::Error(about(alloc, "bad option", word, ": must be -strict")?))
}

/// Does the text read as a list?
fn is_list(alloc: Global, text: &str) -> Result<bool, Fault>
    ensures { Answers (λ b. b) result (Ok (spec.is_read (elements_of (chars text.now)))) }
{
    match tcl_list::split(alloc, text) {
        Ok(_) => Ok(true),
        Err(Fault::Error(_)) => Ok(false),
        Err(Fault::Memory) => Err(Fault::Memory),
    }
}

/// Is the text a number of 64 bits?
fn is_number(text: &str, dialect: Dialect) -> bool
    ensures { result ≡ spec.is_number (whole_of dialect (chars text.now)) }
{
    matches!(read_whole(text, dialect), Whole::Number(_))
}

/// Is the text of the class?
fn text_is(alloc: Global, class: StringClass, text: &str, dialect: Dialect) -> Result<bool, Fault>
    ensures { Answers (λ b. b) result (Ok (spec.text_is dialect class (chars text.now))) }
{
    match class {
        StringClass::Characters(characters) => Ok(every(characters, text)),
        StringClass::Boolean => Ok(matches!(read_truth(text, dialect), Truth::Yes | Truth::No)),
        StringClass::False => Ok(matches!(read_truth(text, dialect), Truth::No)),
        StringClass::Integer => Ok(is_number(text, dialect)),
        StringClass::List => is_list(alloc, text),
        StringClass::True => Ok(matches!(read_truth(text, dialect), Truth::Yes)),
        StringClass::Wideinteger => Ok(is_number(text, dialect)),
    }
}

/// Is the text of the class, where an empty one is, unless the class is asked for strictly?
fn belongs(
    alloc: Global,
    strict: bool,
    class: StringClass,
    text: &str,
    dialect: Dialect,
) -> Result<bool, Fault>
    ensures { Answers (λ b. b) result (Ok (spec.belongs strict (spec.text_is dialect class) (chars text.now))) }
{
    if split_first(text).is_none() {
        return Ok(!strict);
    }
    text_is(alloc, class, text, dialect)
}

/// The text, or the other one where there is none.
fn text_or<'a>(text: &'a Option<RcStr>, other: &'a str) -> &'a str
    ensures { chars result.now ≡ unwrap_or (option_map text_of text.now) (chars other.now) }
{
    match text {
        Some(text) => text.as_str(),
        None => other,
    }
}

/// `string is class ?-strict? str`: 1 where the text is of the class, else 0.
///
/// # Errors
///
/// `Fault::Error` with the usage, or where the class or the option isn't known, `Fault::Memory`.
pub fn string_is(alloc: Global, words: &mut [Value], dialect: Dialect) -> Result<Value, Fault>
    ensures answer { Answers (λ v. v) result (spec.string_is dialect words.old) }
    ensures same { words.new ≡ words.old }
{
    if let [word, text] = &*words {
        let word = word.spelled(alloc)?;
        let class = class_of(alloc, word.as_str())?;
        let text = text.spelled(alloc)?;
        let truth = belongs(alloc, false, class, text.as_str(), dialect)?;
        return Ok(Value::of_truth(truth));
    }
    let (word, first, second) = two_or_three_texts(alloc, words, "string is class ?-strict? str")?;
    let class = class_of(alloc, word.as_str())?;
    let strict = is_strict(alloc, first.as_str(), &second)?;
    let text = text_or(&second, first.as_str());
    let truth = belongs(alloc, strict, class, text, dialect)?;
    Ok(Value::of_truth(truth))
}
