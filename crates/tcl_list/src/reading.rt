//! A text read as a list.

ghost use Rattle.std.specs.Prelude.{◌≡◌, ◌∷◌, Ok, IfOk, map, option_map};
ghost use Rattle.std.specs.Str.{chars};
ghost use Rattle.std.specs.String.{string_bytes};
ghost use Rattle.tcl_chars.specs.Place.{IsFirst};
ghost use Rattle.tcl_chars.specs.Reading.{Gives};
ghost use Rattle.tcl_list.specs.Elements.{ends, letter, letters, followed, quoted, braced, element, next_element, elements_of};
ghost use Rattle.tcl_list.specs.Texts.{text_of, worded, Answers};

use crate::braces::to_close;
use crate::faults::{followed_by, unmatched_brace, unmatched_quote};
use std::alloc::{AllocError, Global};
use std::rc::RcStr;
use tcl_chars::{
    Fault, ReadFault, backslash, before, is_list_space, push, skip_space, split_first, tail,
};

/// What ends an element that is read character by character.
#[derive(Clone, Copy)]
enum End {
    Space,
    Quote,
}

/// What closes an element.
#[derive(Clone, Copy)]
pub(crate) enum Closed {
    Brace,
    Quote,
}

/// Does the character end the element?
fn ends(end: End, c: char) -> bool
    ensures { result ≡ ends end c }
{
    match end {
        End::Space => is_list_space(c),
        End::Quote => c == '"',
    }
}

/// The next character that an element says, and the text behind it; none where the element ends.
fn letter(end: End, text: &str) -> (Option<char>, &str)
    ensures { letter end (chars text.now) ≡ Ok (result.0, chars result.1.now) }
{
    let Some((c, after)) = split_first(text) else {
        return (None, text);
    };
    if ends(end, c) {
        return (None, text);
    }
    if c == '\\' {
        let (meant, taken) = backslash(text);
        return (Some(meant), &text[taken..]);
    }
    (Some(c), after)
}

/// The characters that an element says, and the text from its end on.
fn letters(alloc: Global, end: End, text: &str) -> Result<(RcStr, &str), AllocError>
    ensures { IfOk result (λ x. letters end (chars text.now) ≡ Ok (text_of x.0, chars x.1.now)) }
{
    let mut said = String::new(alloc);
    let mut rest = text;
    'letters: loop {
        let (next, after) = letter(end, rest);
        match next {
            None => return Ok((RcStr::from_string(said)?, after)),
            Some(c) => push(&mut said, c)?,
        }
        rest = after;
    }
}

/// An element behind which list space or the end must follow.
fn followed(
    alloc: Global,
    closed: Closed,
    element: RcStr,
    text: &str,
) -> Result<(RcStr, &str), ReadFault<RcStr>>
    ensures { Gives (λ x. (text_of x.0, chars x.1.now)) (worded result)
        (followed closed (text_of element) (chars text.now)) }
{
    let Some((c, _)) = split_first(text) else {
        return Ok((element, text));
    };
    if is_list_space(c) {
        return Ok((element, text));
    }
    Err(ReadFault::Bad(followed_by(alloc, closed, text)?))
}

/// The element behind an opening quote.
fn quoted(alloc: Global, text: &str) -> Result<(RcStr, &str), ReadFault<RcStr>>
    ensures { Gives (λ x. (text_of x.0, chars x.1.now)) (worded result) (quoted (chars text.now)) }
{
    let (said, rest) = letters(alloc, End::Quote, text)?;
    let Some((_, after)) = split_first(rest) else {
        return Err(ReadFault::Bad(unmatched_quote(alloc)?));
    };
    followed(alloc, Closed::Quote, said, after)
}

/// The element behind an opening brace: what stands before the brace that matches, as it is.
fn braced(alloc: Global, text: &str) -> Result<(RcStr, &str), ReadFault<RcStr>>
    ensures { Gives (λ x. (text_of x.0, chars x.1.now)) (worded result) (braced (chars text.now)) }
{
    let Some(rest) = to_close(text) else {
        return Err(ReadFault::Bad(unmatched_brace(alloc)?));
    };
    let inner = RcStr::from_str(alloc, before(text, rest))?;
    followed(alloc, Closed::Brace, inner, tail(rest))
}

/// The element that a text begins with, by its first character.
fn element<'a>(
    alloc: Global,
    first: char,
    text: &'a str,
    behind: &'a str,
) -> Result<(RcStr, &'a str), ReadFault<RcStr>>
    requires { chars text.now ≡ first ∷ chars behind.now }
    ensures { Gives (λ x. (text_of x.0, chars x.1.now)) (worded result) (element first (chars behind.now)) }
{
    match first {
        '{' => braced(alloc, behind),
        '"' => quoted(alloc, behind),
        _ => Ok(letters(alloc, End::Space, text)?),
    }
}

/// The next element, if there is one, and the text behind it.
fn next_element(alloc: Global, text: &str) -> Result<(Option<RcStr>, &str), ReadFault<RcStr>>
    ensures { Gives (λ x. (option_map text_of x.0, chars x.1.now)) (worded result) (next_element (chars text.now)) }
{
    let start = skip_space(text);
    let Some((c, after)) = split_first(start) else {
        return Ok((None, start));
    };
    let (element, rest) = element(alloc, c, start, after)?;
    Ok((Some(element), rest))
}

/// The elements of a text, or what is wrong with it.
fn elements(alloc: Global, text: &str) -> Result<Vec<RcStr>, ReadFault<RcStr>>
    ensures { Gives (λ v. map text_of v.items) (worded result) (elements_of (chars text.now)) }
{
    let mut elements = Vec::new(alloc);
    let mut rest = text;
    'elements: loop {
        let (element, after) = next_element(alloc, rest)?;
        match element {
            None => return Ok(elements),
            Some(element) => elements.push(element)?,
        }
        rest = after;
    }
}

/// The elements of a text that is read as a list.
///
/// List space separates elements. An element that begins with a brace goes up to the brace that matches and is taken as it
/// is, one that begins with a quote goes up to the next quote, and any other up to list space; in these two backslashes are
/// substituted (list(n), lindex(n), Tcl(n) rules 6 and 9).
///
/// # Errors
///
/// `Fault::Error` with the first fault from the left: a brace or quote that is never closed, or something else than list
/// space behind one that closes an element. `Fault::Memory` where a growth was refused.
pub fn split(alloc: Global, text: &str) -> Result<Vec<RcStr>, Fault>
    ensures { Answers (λ v. map text_of v.items) result (elements_of (chars text.now)) }
{
    match elements(alloc, text) {
        Ok(elements) => Ok(elements),
        Err(ReadFault::Bad(message)) => Err(Fault::Error(message)),
        Err(ReadFault::Memory) => Err(Fault::Memory),
    }
}
