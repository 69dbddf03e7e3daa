//! Backslash escapes.
ghost use Rattle.std.specs.Prelude.{◌≡◌, ◌+◌, ◌≤◌, ◌<◌, ◌∷◌, [], ◌++◌, ◌≢◌, ◌^◌, length, take, drop, MatchOption, IfSome, slice_index};
ghost use Rattle.std.specs.Str.{chars, IsCharBoundary};
ghost use Rattle.std.specs.Char.{encode_utf8, IsScalar};
ghost use Rattle.std.specs.Str.Parse.{digits_value};
ghost use Rattle.tcl_chars.specs.Escape.{longest_run, blanks, escape, as_scalar, control_of, code_form, coded};
ghost use Rattle.tcl_chars.specs.Place.{IsFirst, IsPlace};

use crate::classes::is_blank;
use crate::texts::split_first;

/// The longest front of a text that writes a number of at most `limit` in the digits of a radix, of
/// at most `most` digits: the number, and how many digits there are.
fn digit_run(text: &str, radix: u32, limit: u32, most: usize) -> (u32, usize)
    requires radix_low { 2 ≤ radix }
    requires radix_high { radix ≤ 16 }
    requires limit_fits { limit ≤ 0x10ffff }
    ensures count { result.1 ≡ longest_run radix limit (chars text.now) most }
    ensures value { result.0 ≡ digits_value radix (take result.1 (chars text.now)) }
    ensures small { result.0 ≤ limit }
    ensures place { IsPlace text.now result.1 result.1 }
{
    let mut rest = text;
    let mut value = 0;
    let mut taken = 0;
    while taken < most {
        let Some((c, after)) = split_first(rest) else {
            return (value, taken);
        };
        let Some(digit) = c.to_digit(radix) else {
            return (value, taken);
        };
        let next = value * radix + digit;
        if next > limit {
            return (value, taken);
        }
        value = next;
        taken += 1;
        rest = after;
    }
    (value, taken)
}

/// How many spaces and tabs a text begins with.
fn blank_run(text: &str) -> usize
    ensures count { result ≡ blanks (chars text.now) }
    ensures place { IsPlace text.now result result }
{
    let mut rest = text;
    let mut taken = 0;
    while let Some((c, after)) = split_first(rest) {
        if !is_blank(c) {
            return taken;
        }
        taken += 1;
        rest = after;
    }
    taken
}

/// The character of a code, or the replacement character where the code is a surrogate's.
fn scalar_of(code: u32) -> char
    requires { code ≤ 0x10ffff }
    ensures { result ≡ as_scalar code }
{
    char::from_u32(code).unwrap_or('\u{fffd}')
}

/// The character that a letter behind a backslash stands for.
fn control(letter: char) -> Option<char>
    ensures { result ≡ control_of letter }
{
    match letter {
        'a' => Some('\u{7}'),
        'b' => Some('\u{8}'),
        'f' => Some('\u{c}'),
        'n' => Some('\n'),
        'r' => Some('\r'),
        't' => Some('\t'),
        'v' => Some('\u{b}'),
        _ => None,
    }
}

/// How many hexadecimal digits may follow a letter, and the greatest number that they may write.
fn digits_behind(letter: char) -> Option<(usize, u32)>
    ensures form { result ≡ code_form letter }
    ensures limit { IfSome result (λ f. f.1 ≤ 0x10ffff) }
{
    match letter {
        'x' => Some((2, 0xff)),
        'u' => Some((4, 0xffff)),
        'U' => Some((8, 0x10ffff)),
        _ => None,
    }
}

/// The character that a backslash and the characters behind it stand for, and how many bytes they take (Tcl(n), rule 9).
///
/// The form is the longest that the text allows. A surrogate's code gives U+FFFD, and a backslash at the end of a text
/// stands for itself: both are the profile's.
pub fn backslash(text: &str) -> (char, usize)
    requires { slice_index (chars text.now) 0 ≡ 92 }
    ensures stands_for { result.0 ≡ (escape (chars text.now)).0 }
    ensures some { 1 ≤ result.1 }
    ensures place { IsPlace text.now result.1 (escape (chars text.now)).1 }
{
    let Some((_, behind)) = split_first(text) else {
        unreachable!()
    };
    let Some((c, rest)) = split_first(behind) else {
        return ('\\', 1);
    };
    if let Some(meant) = control(c) {
        return (meant, 2);
    }
    if let Some((most, limit)) = digits_behind(c) {
        let (code, taken) = digit_run(rest, 16, limit, most);
        return (if taken == 0 { c } else { scalar_of(code) }, taken + 2);
    }
    if c == '\n' {
        return (' ', blank_run(rest) + 2);
    }
    let (code, taken) = digit_run(behind, 8, 255, 3);
    if taken == 0 {
        return (c, c.len_utf8() + 1);
    }
    (scalar_of(code), taken + 1)
}
