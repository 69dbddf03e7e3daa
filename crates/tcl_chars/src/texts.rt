//! The primitives that read, cut and write texts. A text is seen as the list of its characters.

ghost use Rattle.std.specs.Prelude.{◌≡◌, ◌<◌, ◌∷◌, [], ◌++◌, length, MatchOption, IfSome, OnOk, OnErr};
ghost use Rattle.std.specs.Str.{chars};
ghost use Rattle.std.specs.String.{string_bytes};
ghost use Rattle.tcl_chars.specs.Place.{IsFirst, IsLast, EndsWith};
ghost use Rattle.tcl_chars.specs.Place as spec;
ghost use Rattle.tcl_chars.specs.Texts.{same_text, by_code_point};

use std::alloc::AllocError;
use std::cmp::Ordering;

/// The first character of a text, and the text after it.
pub fn split_first(text: &str) -> Option<(char, &str)>
    ensures parts { MatchOption result (chars text.now ≡ []) (λ p. IsFirst text.now p.0 p.1.now) }
    ensures shorter { IfSome result (λ p. length p.1.now < length text.now) }
{
    let mut rest = text.chars();
    let first = rest.next()?;
    Some((first, rest.as_str()))
}

/// The last character of a text, and the text before it.
pub fn split_last(text: &str) -> Option<(&str, char)>
    ensures parts { MatchOption result (chars text.now ≡ []) (λ p. IsLast text.now p.0.now p.1) }
    ensures shorter { IfSome result (λ p. length p.0.now < length text.now) }
{
    let mut front = text.chars();
    let last = front.next_back()?;
    Some((front.as_str(), last))
}

/// Is this the first character of the text?
pub fn begins(wanted: char, text: &str) -> bool
    ensures { result ≡ spec.begins wanted (chars text.now) }
{
    match split_first(text) {
        Some((c, _)) => c == wanted,
        None => false,
    }
}

/// The text without its first character; an empty text as it is.
pub fn tail(text: &str) -> &str
    ensures { chars result.now ≡ spec.tail (chars text.now) }
{
    match split_first(text) {
        Some((_, rest)) => rest,
        None => text,
    }
}

/// Are the texts the same?
#[tactic(auto, using(crate::proofs::Same::eq_by_chars))]
pub fn is_text(text: &str, other: &str) -> bool
    ensures { result ≡ same_text (chars text.now) (chars other.now) }
{
    text == other
}

/// How two texts stand in the order of code points.
#[tactic(auto, using(crate::proofs::Order::chars_order))]
pub fn compare(a: &str, b: &str) -> Ordering
    ensures { result ≡ by_code_point (chars a.now) (chars b.now) }
{
    a.cmp(b)
}

/// What stands in a text before the rest with which it ends.
pub fn before<'a>(text: &'a str, rest: &str) -> &'a str
    requires { EndsWith (chars text.now) (chars rest.now) }
    ensures { chars result.now ≡ spec.before (chars text.now) (chars rest.now) }
{
    &text[..text.len() - rest.len()]
}

/// Where a rest begins, in bytes, in a text of `size` bytes.
pub fn place(size: usize, rest: &str) -> usize
    ensures { result ≡ spec.place size (chars rest.now) }
{
    size.saturating_sub(rest.len())
}

/// Writes a character at the end of a text. A refused growth leaves the text as it is.
pub fn push(text: &mut String, c: char) -> Result<(), AllocError>
    ensures ok { OnOk result (chars (string_bytes text.new) ≡ chars (string_bytes text.old) ++ c ∷ []) }
    ensures same { OnErr result (string_bytes text.new ≡ string_bytes text.old) }
{
    text.push(c)?;
    Ok(())
}

/// Writes a text at the end of a text. A refused growth leaves the text as it is.
pub fn push_text(text: &mut String, more: &str) -> Result<(), AllocError>
    ensures ok { OnOk result (chars (string_bytes text.new) ≡ chars (string_bytes text.old) ++ chars more.now) }
    ensures same { OnErr result (string_bytes text.new ≡ string_bytes text.old) }
{
    text.push_str(more)?;
    Ok(())
}
