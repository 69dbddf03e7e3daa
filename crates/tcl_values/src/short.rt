//! Short texts, which stand in the value itself: nothing is allocated for them.

ghost use Rattle.std.specs.Prelude.{◌≡◌, ◌++◌, ◌∷◌, [], IfSome, IsTrue};
ghost use Rattle.std.specs.Str.{chars, IsAscii};
ghost use Rattle.tcl_values.specs.Short.{short_text, IsShort};

use std::str;

/// The most characters of a short text.
const ROOM: usize = 7;

/// A text of at most 7 characters, all of which are ASCII. It lies where a number would lie, so that a value moves as two numbers do.
#[derive(Clone, Copy, Drop)]
pub(crate) struct Short {
    count: u8,
    bytes: [u8; ROOM],
    /// Nothing, as a number lies.
    aligned: [u64; 0],
}

impl Short {
    /// The empty text.
    pub(crate) fn new() -> Short
        ensures text { short_text result ≡ [] }
        ensures known { IsShort result }
    {
        Short {
            count: 0,
            bytes: [0; ROOM],
            aligned: [],
        }
    }

    /// The text, where it is short and ASCII.
    pub(crate) fn of(text: &str) -> Option<Short>
        ensures text { IfSome result (λ s. short_text s ≡ chars text.now) }
        ensures known { IfSome result (λ s. IsShort s) }
    {
        Short::new().joined(text)
    }

    // Puts one more character behind the text, where both together are short and ASCII: tells whether it did.
    #[inline(always)]
    fn put(&mut self, byte: u8) -> bool
        requires { IsShort self.old }
        ensures text { IsTrue result → short_text self.new ≡ short_text self.old ++ byte ∷ [] }
        ensures known { IsTrue result → IsShort self.new }
    {
        let count = self.count as usize;
        if count >= ROOM || !byte.is_ascii() {
            return false;
        }
        self.bytes[count] = byte;
        self.count = (count + 1) as u8;
        true
    }

    /// The text with another one behind it, where both together are short and ASCII. The few characters are put one by one.
    #[inline(always)]
    pub(crate) fn joined(&self, more: &str) -> Option<Short>
        requires { IsShort self.now }
        ensures text { IfSome result (λ s. short_text s ≡ short_text self.now ++ chars more.now) }
        ensures known { IfSome result (λ s. IsShort s) }
    {
        let mut whole = *self;
        for byte in more.as_bytes() {
            if !whole.put(*byte) {
                return None;
            }
        }
        Some(whole)
    }

    /// The text.
    #[inline(always)]
    pub(crate) fn as_str(&self) -> &str
        requires { IsShort self.now }
        ensures text { chars result.now ≡ short_text self.now }
        ensures bytes { result.now ≡ short_text self.now }
        ensures ascii { IsAscii result.now }
    {
        // ASCII is UTF-8.
        unsafe { str::from_utf8_unchecked(&self.bytes[..self.count as usize]) }
    }
}
