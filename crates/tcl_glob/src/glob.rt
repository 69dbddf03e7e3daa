//! Patterns: string(n), string match.

ghost use Rattle.std.specs.Prelude.{◌≡◌, false, MatchOption, option_map};
ghost use Rattle.std.specs.Str.{chars};
ghost use Rattle.tcl_pages.specs.Glob as spec;
ghost use Rattle.tcl_glob.specs.Glob.{one_of_part, range_end, is_plain, to_fit, Fit, FirstFit};

use crate::seek::to_character;
use tcl_chars::{before, split_first, tail};

/// What a part of a pattern takes of a text: one character, of these.
#[derive(Clone, Copy)]
enum Part<'a> {
    Any,
    Just(char),
    OneOf(&'a str),
}

/// Is the character between the two, in whichever order they stand?
fn is_between(x: char, y: char, c: char) -> bool
    ensures { result ≡ spec.is_between x y c }
{
    (x <= c && c <= y) || (y <= c && c <= x)
}

/// The last character of a range, and what follows it; the text begins behind the first character. None where there is no range.
fn range_end(text: &str) -> Option<(char, &str)>
    ensures { option_map (λ r. (r.0, chars r.1.now)) result ≡ range_end (chars text.now) }
{
    let (dash, behind) = split_first(text)?;
    let (last, after) = split_first(behind)?;
    if dash == '-' {
        Some((last, after))
    } else {
        None
    }
}

/// Is the character in a set?
fn in_set(set: &str, c: char) -> bool
    ensures { result ≡ spec.in_set (chars set.now) c }
{
    let mut rest = set;
    while let Some((first, behind)) = split_first(rest) {
        match range_end(behind) {
            Some((last, after)) => {
                if is_between(first, last, c) {
                    return true;
                }
                rest = after;
            }
            None => {
                if first == c {
                    return true;
                }
                rest = behind;
            }
        }
    }
    false
}

/// Does the part take the character?
fn takes(part: Part<'_>, c: char) -> bool
    ensures { result ≡ spec.takes (one_of_part part.entry) c }
{
    match part {
        Part::Any => true,
        Part::Just(only) => only == c,
        Part::OneOf(set) => in_set(set, c),
    }
}

/// What a pattern has left at its next `]`.
fn to_bracket(pattern: &str) -> &str
    ensures { chars result.now ≡ spec.to_bracket (chars pattern.now) }
{
    let mut rest = pattern;
    while let Some((c, after)) = split_first(rest) {
        if c == ']' {
            return rest;
        }
        rest = after;
    }
    rest
}

/// The part that begins with the character, which is no `*`, and the pattern behind it.
fn first_part(first: char, behind: &str) -> (Part<'_>, &str)
    ensures { (one_of_part result.0, chars result.1.now) ≡ spec.first_part first (chars behind.now) }
{
    match first {
        '?' => (Part::Any, behind),
        '[' => {
            let rest = to_bracket(behind);
            (Part::OneOf(before(behind, rest)), tail(rest))
        }
        '\\' => match split_first(behind) {
            Some((c, after)) => (Part::Just(c), after),
            None => (Part::Just('\\'), behind),
        },
        _ => (Part::Just(first), behind),
    }
}

/// What is left of a pattern and of a text behind the parts up to the pattern's next `*`, or up to the end of both; none
/// where the text isn't so.
fn fit<'p, 't>(pattern: &'p str, text: &'t str) -> Option<(&'p str, &'t str)>
    ensures { MatchOption result (spec.glob (chars pattern.now) (chars text.now) ≡ false)
        (λ r. Fit (chars pattern.now) (chars text.now) (chars r.0.now) (chars r.1.now)) }
{
    let mut pattern = pattern;
    let mut text = text;
    while let Some((first, behind)) = split_first(pattern) {
        if first == '*' {
            return Some((pattern, text));
        }
        let (part, next) = first_part(first, behind);
        let Some((c, after)) = split_first(text) else {
            return None;
        };
        if !takes(part, c) {
            return None;
        }
        pattern = next;
        text = after;
    }
    match split_first(text) {
        Some(_) => None,
        None => Some((pattern, text)),
    }
}

/// Does the character stand for itself at the beginning of a part of a pattern?
fn is_plain(c: char) -> bool
    ensures { result ≡ is_plain c }
{
    !matches!(c, '*' | '?' | '[' | '\\')
}

/// What a text has left at the next place where a pattern may fit it: at the character that the pattern begins with, where
/// this stands for itself, and at the end where the pattern is empty.
fn to_fit<'t>(pattern: &str, text: &'t str) -> &'t str
    ensures { chars result.now ≡ to_fit (chars pattern.now) (chars text.now) }
{
    match split_first(pattern) {
        Some((first, _)) => {
            if is_plain(first) {
                to_character(text, first)
            } else {
                text
            }
        }
        None => "",
    }
}

/// What is left where a pattern first fits a text or the rest of it behind some characters.
fn first_fit<'p, 't>(pattern: &'p str, text: &'t str) -> Option<(&'p str, &'t str)>
    ensures { MatchOption result (spec.some_rest (spec.glob (chars pattern.now)) (chars text.now) ≡ false)
        (λ r. FirstFit (chars pattern.now) (chars text.now) (chars r.0.now) (chars r.1.now)) }
{
    let mut rest = text;
    'places: loop {
        let place = to_fit(pattern, rest);
        if let Some((next, left)) = fit(pattern, place) {
            return Some((next, left));
        }
        let Some((_, after)) = split_first(place) else {
            return None;
        };
        rest = after;
    }
}

/// Does the text match the pattern? `*` is any text, `?` one character, `\c` the character c, `[..]` one character of a set,
/// and any other character itself. string(n), string match.
pub fn glob_match(pattern: &str, text: &str) -> bool
    ensures { result ≡ spec.glob (chars pattern.now) (chars text.now) }
{
    let Some((at_star, left)) = fit(pattern, text) else {
        return false;
    };
    let mut pattern = at_star;
    let mut text = left;
    while let Some((_, behind)) = split_first(pattern) {
        let Some((next, rest)) = first_fit(behind, text) else {
            return false;
        };
        pattern = next;
        text = rest;
    }
    true
}
