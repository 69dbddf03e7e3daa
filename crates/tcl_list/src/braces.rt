//! Braces that match.

ghost use Rattle.std.specs.Prelude.{◌≡◌, ◌<◌, false, None, Some, MatchOption};
ghost use Rattle.std.specs.Str.{chars};
ghost use Rattle.tcl_list.specs.Braces.{mark_of, hides, counted, is_balanced, to_close};

use tcl_chars::split_first;

/// What a character does to the count of open braces.
#[derive(Clone, Copy)]
pub(crate) enum Mark {
    /// A backslash: the next character does not count.
    Hides,
    Opens,
    Closes,
    Plain,
}

/// What a character does to the count, where `hidden` says that a backslash hides it.
fn mark_of(hidden: bool, c: char) -> Mark
    ensures { result ≡ mark_of hidden c }
{
    if hidden {
        return Mark::Plain;
    }
    match c {
        '\\' => Mark::Hides,
        '{' => Mark::Opens,
        '}' => Mark::Closes,
        _ => Mark::Plain,
    }
}

/// Does the mark hide the next character?
fn hides(mark: Mark) -> bool
    ensures { result ≡ hides mark }
{
    matches!(mark, Mark::Hides)
}

/// How many braces are open behind a mark; none where it closes one that was never opened.
fn counted(mark: Mark, depth: u64) -> Option<u64>
    requires { depth < 0xffff_ffff_ffff_ffff }
    ensures { result ≡ counted mark depth }
{
    match mark {
        Mark::Opens => Some(depth + 1),
        Mark::Closes => depth.checked_sub(1),
        Mark::Hides | Mark::Plain => Some(depth),
    }
}

/// Does a text close each brace that it opens and no other, and end with no backslash that hides nothing?
pub(crate) fn is_balanced(text: &str) -> bool
    ensures { result ≡ is_balanced (chars text.now) }
{
    let mut rest = text;
    let mut hidden = false;
    let mut depth = 0;
    while let Some((c, after)) = split_first(rest) {
        let mark = mark_of(hidden, c);
        let Some(count) = counted(mark, depth) else {
            return false;
        };
        hidden = hides(mark);
        depth = count;
        rest = after;
    }
    !hidden && depth == 0
}

/// What a text behind an opening brace has left at the brace that matches.
pub(crate) fn to_close(text: &str) -> Option<&str>
    ensures { MatchOption result (to_close false 0 (chars text.now) ≡ None)
        (λ t. to_close false 0 (chars text.now) ≡ Some (chars t.now)) }
{
    let mut rest = text;
    let mut hidden = false;
    let mut depth = 0;
    while let Some((c, after)) = split_first(rest) {
        let mark = mark_of(hidden, c);
        let Some(count) = counted(mark, depth) else {
            return Some(rest);
        };
        hidden = hides(mark);
        depth = count;
        rest = after;
    }
    None
}
