//! Decimal texts of numbers: nothing is allocated for them.

ghost use Rattle.std.specs.Prelude.{◌≡◌, true, IfSome};
ghost use Rattle.std.specs.Fmt.{signed_decimal};
ghost use Rattle.std.specs.Str.{chars};
ghost use Rattle.tcl_values.specs.Numerals.{digits, AreDigits};

use itoa::Buffer;
use std::str;

/// The most characters of a number's text.
const ROOM: usize = 20;

/// The decimal text of a number, with its sign.
#[derive(Clone, Copy, Drop)]
pub(crate) struct Digits {
    pub(crate) count: u8,
    pub(crate) bytes: [u8; 20],
}

impl Digits {
    /// The text of a number.
    pub(crate) fn new(n: i64) -> Option<Digits>
        ensures digits { IfSome result (λ d. AreDigits d) }
        ensures text { IfSome result (λ d. digits d ≡ signed_decimal n) }
    {
        let mut buffer = Buffer::new();
        let text = buffer.format(n).as_bytes();
        if ROOM < text.len() {
            return None;
        }
        let mut bytes = [0; 20];
        bytes[..text.len()].copy_from_slice(text);
        Some(Digits {
            count: text.len() as u8,
            bytes,
        })
    }

    /// The text.
    pub(crate) fn text(&self) -> &str
        requires { AreDigits self.now }
        ensures { result.now ≡ digits self.now }
    {
        // Digits and a sign are UTF-8.
        unsafe { str::from_utf8_unchecked(&self.bytes[..self.count as usize]) }
    }
}

/// Is the text the number's decimal text?
pub(crate) fn is_decimal(n: i64, text: &str) -> bool
    ensures { result ≡ true → chars text.now ≡ signed_decimal n }
{
    let mut buffer = Buffer::new();
    buffer.format(n) == text
}

/// The number whose decimal text this is.
pub(crate) fn decimal_number(text: &str) -> Option<i64>
    ensures { IfSome result (λ n. chars text.now ≡ signed_decimal n) }
{
    match text.parse::<i64>() {
        Ok(n) => if is_decimal(n, text) { Some(n) } else { None },
        Err(_) => None,
    }
}
