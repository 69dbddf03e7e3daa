//! Elements written as a list.

ghost use Rattle.std.specs.Prelude.{◌≡◌, ◌++◌, map, IfOk, OnOk, OnErr};
ghost use Rattle.std.specs.Str.{chars};
ghost use Rattle.std.specs.String.{string_bytes};
ghost use Rattle.tcl_list.specs.Texts.{text_of, WritesBehind};
ghost use Rattle.tcl_list.specs.Written.{is_special, needs_no_backslash, is_continued, is_comment, element_form, behind_backslash, all_escaped, spelled, appended, written};

use crate::braces::is_balanced;
use std::alloc::{AllocError, Global};
use std::rc::RcStr;
use tcl_chars::{begins, is_list_space, push, push_text, split_first};

/// How an element is written.
#[derive(Clone, Copy)]
enum Form {
    /// The empty text: an open and a close brace.
    Empty,
    /// As it is.
    Bare,
    /// As it is, in braces.
    Braces,
    /// With backslashes.
    Backslashes,
}

/// Does a command or a list give the character a meaning?
fn is_special(c: char) -> bool
    ensures { result ≡ is_special c }
{
    matches!(c, '{' | '}' | '[' | ']' | '$' | '"' | ';' | '\\')
}

/// Does no character of the text need a backslash?
fn needs_no_backslash(text: &str) -> bool
    ensures { result ≡ needs_no_backslash (chars text.now) }
{
    let mut rest = text;
    while let Some((c, after)) = split_first(rest) {
        if is_list_space(c) || is_special(c) {
            return false;
        }
        rest = after;
    }
    true
}

/// Does a backslash stand directly before a newline?
fn is_continued(text: &str) -> bool
    ensures { result ≡ is_continued (chars text.now) }
{
    let mut rest = text;
    while let Some((c, after)) = split_first(rest) {
        if c == '\\' && begins('\n', after) {
            return true;
        }
        rest = after;
    }
    false
}

/// Would the element begin a comment, as the first of a command?
fn is_comment(element: &str, first: bool) -> bool
    ensures { result ≡ is_comment first (chars element.now) }
{
    first && begins('#', element)
}

/// The first form that applies to an element.
fn element_form(element: &str, first: bool) -> Form
    ensures { result ≡ element_form first (chars element.now) }
{
    let Some(_) = split_first(element) else {
        return Form::Empty;
    };
    if needs_no_backslash(element) && !is_comment(element, first) {
        return Form::Bare;
    }
    if is_balanced(element) && !is_continued(element) {
        return Form::Braces;
    }
    Form::Backslashes
}

/// What stands behind the backslash of a character, if it needs one.
fn behind_backslash(c: char) -> Option<char>
    ensures { result ≡ behind_backslash c }
{
    match c {
        '\t' => Some('t'),
        '\n' => Some('n'),
        '\u{b}' => Some('v'),
        '\u{c}' => Some('f'),
        '\r' => Some('r'),
        ' ' => Some(' '),
        _ => if is_special(c) { Some(c) } else { None },
    }
}

/// Writes the characters of an element, behind backslashes where they need them.
fn push_escaped(text: &mut String, element: &str) -> Result<(), AllocError>
    ensures { WritesBehind (chars (string_bytes text.old)) (chars (string_bytes text.new))
        (all_escaped (chars element.now)) result }
{
    let mut rest = element;
    while let Some((c, after)) = split_first(rest) {
        match behind_backslash(c) {
            Some(behind) => {
                push(text, '\\')?;
                push(text, behind)?;
            }
            None => push(text, c)?,
        }
        rest = after;
    }
    Ok(())
}

/// Writes an element in its form.
#[tactic(auto, using(tcl_chars::proofs::Literals::literal_chars))]
fn push_form(text: &mut String, element: &str, form: Form, first: bool) -> Result<(), AllocError>
    ensures { WritesBehind (chars (string_bytes text.old)) (chars (string_bytes text.new))
        (spelled form first (chars element.now)) result }
{
    match form {
        Form::Empty => push_text(text, "{}"),
        Form::Bare => push_text(text, element),
        Form::Braces => {
            push(text, '{')?;
            push_text(text, element)?;
            push(text, '}')
        }
        Form::Backslashes => {
            if is_comment(element, first) {
                push(text, '\\')?;
            }
            push_escaped(text, element)
        }
    }
}

/// Writes an element, behind a space unless it is the first.
fn push_element(text: &mut String, element: &str, first: bool) -> Result<(), AllocError>
    ensures { WritesBehind (chars (string_bytes text.old)) (chars (string_bytes text.new))
        (appended first (chars element.now)) result }
{
    if first {
        return push_form(text, element, element_form(element, true), true);
    }
    push(text, ' ')?;
    push_form(text, element, element_form(element, false), false)
}

/// Writes one more element at the end of a list's text, behind a space unless it is the first.
///
/// It takes the first form that reads back: `{}` for the empty text, bare, in braces, or with backslashes (list(n)).
///
/// # Errors
///
/// `AllocError` where a growth was refused; the text is then as it was.
pub fn append_element(text: &mut String, element: &str, first: bool) -> Result<(), AllocError>
    ensures written { OnOk result (chars (string_bytes text.new)
        ≡ chars (string_bytes text.old) ++ appended first (chars element.now)) }
    ensures same { OnErr result (string_bytes text.new ≡ string_bytes text.old) }
{
    let size = text.len();
    match push_element(text, element, first) {
        Ok(()) => Ok(()),
        Err(refused) => {
            text.truncate(size);
            Err(refused)
        }
    }
}

/// The elements written as a list (list(n)).
///
/// # Errors
///
/// `AllocError` where a growth was refused.
pub fn write(alloc: Global, elements: &[RcStr]) -> Result<String, AllocError>
    ensures { IfOk result (λ s. chars (string_bytes s) ≡ written (map text_of elements.now)) }
{
    let mut text = String::new(alloc);
    let mut first = true;
    for element in elements {
        append_element(&mut text, element.as_str(), first)?;
        first = false;
    }
    Ok(text)
}
