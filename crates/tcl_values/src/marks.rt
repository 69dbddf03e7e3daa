//! How many characters of a text begin in front of places in it, so that a character is found by its place without a walk.

ghost use Rattle.std.specs.Prelude.{◌≡◌, ◌≤◌, ◌<◌, ◌+◌, ◌*◌, ◌-◌, ◌∷◌, [], length, take, slice_index, IfOk, true};
ghost use Rattle.std.specs.Bool.{OnTrue};
ghost use Rattle.std.specs.Str.{IsAscii};
ghost use Rattle.tcl_values.specs.Marks.{starts, AreMarks, BeginsAt};

use std::alloc::{AllocError, Global};

/// The bytes of a block.
pub(crate) const BLOCK: usize = 64;

/// The least bytes of a text that has marks.
const LONG: usize = 256;

/// Of the first blocks of a text, how many characters begin up to the end of each.
#[derive(Drop)]
pub(crate) struct Marks {
    pub(crate) before: Vec<usize>,
}

/// Is a text still ASCII, as far as it was, with this one behind it?
pub(crate) fn stays_ascii(ascii: bool, more: &str) -> bool
    ensures was { result ≡ true → ascii ≡ true }
    ensures more { OnTrue result (IsAscii more.now) }
{
    ascii && more.is_ascii()
}

/// 1 where a character begins with the byte, and else 0.
fn begun(byte: u8) -> u8
    ensures { result ≡ starts (byte ∷ []) }
{
    if byte < 128 || byte > 191 { 1 } else { 0 }
}

/// How many characters begin among the bytes of a block. They are counted in a byte, so that many are counted at once.
#[tactic(auto, using(crate::proofs::Beginnings::starts_more, crate::proofs::Beginnings::one_byte, crate::proofs::Beginnings::starts_front_le))]
fn starts_in_block(block: &[u8]) -> u8
    requires { length block.now ≤ 64 }
    ensures { result ≡ starts block.now }
{
    let mut count = 0;
    for byte in block {
        count += begun(*byte);
    }
    count
}

/// How many characters begin among the bytes.
#[tactic(auto, using(crate::proofs::Beginnings::counted_block, crate::proofs::Beginnings::whole_counted, crate::proofs::Beginnings::starts_front_le, crate::proofs::Beginnings::starts_le, crate::proofs::Beginnings::block_short, crate::proofs::Beginnings::rest_short))]
pub(crate) fn starts(bytes: &[u8]) -> usize
    ensures { result ≡ starts bytes.now }
{
    let mut count = 0;
    let mut place = 0;
    while bytes.len() - place > BLOCK {
        count += usize::from(starts_in_block(&bytes[place..place + BLOCK]));
        place += BLOCK;
    }
    count + usize::from(starts_in_block(&bytes[place..]))
}

/// Passes over blocks from the byte `start` on while no more than `count` characters begin in them together. Answers where the next
/// one begins, and how many characters are left of `count`.
#[tactic(auto, using(crate::proofs::Beginnings::block_short))]
pub(crate) fn over_blocks(bytes: &[u8], start: usize, count: usize) -> (usize, usize)
    requires { start ≤ length bytes.now }
    ensures within { result.0 ≤ length bytes.now }
    ensures passed { starts (take result.0 bytes.now) + result.1 ≡ starts (take start bytes.now) + count }
{
    let mut place = start;
    let mut left = count;
    while bytes.len() - place >= BLOCK {
        let more = usize::from(starts_in_block(&bytes[place..place + BLOCK]));
        if left < more {
            return (place, left);
        }
        left -= more;
        place += BLOCK;
    }
    (place, left)
}

/// How many characters begin in the first `count` blocks, by the marks of a text.
#[tactic(auto, using(crate::proofs::Beginnings::starts_none))]
pub(crate) fn begun_in(before: &[usize], count: usize, text: &str) -> usize
    requires marks { AreMarks before.now text.now }
    requires within { count ≤ length before.now }
    ensures { result ≡ starts (take (64 * count) text.now) }
{
    if count == 0 { 0 } else { before[count - 1] }
}

/// Where the first character begins at the byte `place` or behind it, or the end of the text.
#[tactic(auto, using(crate::proofs::Beginnings::begins_there, crate::proofs::Beginnings::passed_over, crate::proofs::Beginnings::at_end))]
pub(crate) fn next_begin(text: &str, place: usize) -> usize
    requires { place ≤ length text.now }
    ensures { BeginsAt place result text.now }
{
    let bytes = text.as_bytes();
    let mut next = place;
    while next < bytes.len() {
        if begun(bytes[next]) != 0 {
            return next;
        }
        next += 1;
    }
    next
}

/// How many of the marks count at most `most` characters.
pub(crate) fn marks_below(before: &[usize], most: usize) -> usize
    ensures within { result ≤ length before.now }
    ensures below { 0 < result → slice_index before.now (result - 1) ≤ most }
{
    let mut low = 0;
    let mut high = before.len();
    while low < high {
        let middle = low + (high - low) / 2;
        if before[middle] <= most {
            low = middle + 1;
        } else {
            high = middle;
        }
    }
    low
}

impl Marks {
    /// None.
    pub(crate) fn new(alloc: Global) -> Marks
        ensures { result.before.items ≡ [] }
    {
        Marks {
            before: Vec::new(alloc),
        }
    }

    /// Those of a text, if it is a long one past ASCII.
    #[tactic(auto, using(crate::proofs::Beginnings::no_marks_of))]
    pub(crate) fn of(alloc: Global, text: &str, ascii: bool) -> Marks
        ensures { AreMarks result.before.items text.now }
    {
        let mut marks = Marks::new(alloc);
        marks.follow(text, ascii);
        marks
    }

    /// Marks what came to the text, if it is a long one past ASCII.
    pub(crate) fn follow(&mut self, text: &str, ascii: bool)
        requires { AreMarks self.old.before.items text.now }
        ensures { AreMarks self.new.before.items text.now }
    {
        if !ascii && LONG <= text.len() {
            self.extend(text);
        }
    }

    /// The same marks.
    pub(crate) fn copy(&self) -> Result<Marks, AllocError>
        ensures { IfOk result (λ m. m.before.items ≡ self.now.before.items) }
    {
        Ok(Marks {
            before: self.before.clone()?,
        })
    }

    /// Marks the blocks of the text that have no mark yet. Where memory is refused they stay without.
    #[tactic(auto, using(crate::proofs::Beginnings::counted_block, crate::proofs::Beginnings::starts_front_le, crate::proofs::Beginnings::mark_more, crate::proofs::Beginnings::block_short))]
    fn extend(&mut self, text: &str)
        requires { AreMarks self.old.before.items text.now }
        ensures { AreMarks self.new.before.items text.now }
    {
        let bytes = text.as_bytes();
        let mut count = begun_in(&self.before, self.before.len(), text);
        let mut place = BLOCK * self.before.len();
        while bytes.len() - place >= BLOCK {
            count += usize::from(starts_in_block(&bytes[place..place + BLOCK]));
            place += BLOCK;
            if self.before.push(count).is_err() {
                return;
            }
        }
    }
}
