//! Texts of a code that are rarely asked for. They stand one behind the other, so that none takes a block of its own.

ghost use Rattle.std.specs.Prelude.{◌≡◌, ◌++◌, ◌∷◌, [], IfOk, IfSome, OnErr, OnOk, length, option_map, slice_get, true};
ghost use Rattle.std.specs.Str.{chars};
ghost use Rattle.std.specs.String.{string_bytes};
ghost use Rattle.tcl_code.specs.Rare.{IsStretchOf};

use crate::builder::{narrow, push_item};
use crate::numbers::get_item;
use std::alloc::{AllocError, Global};
use std::marker::Model;

/// A stretch of bytes.
#[derive(Clone, Copy)]
pub(crate) struct Stretch {
    pub(crate) start: u32,
    pub(crate) end: u32,
}

/// How far a text is sought inside of those that stand there.
const REACH: u32 = 256;

/// A text of fewer bytes isn't sought: its stretch takes more than its characters.
const SHORT: usize = 8;

/// Texts, each a stretch of one text.
#[derive(Drop)]
pub(crate) struct RareTexts {
    text: String,
    stretches: Vec<Stretch>,
    // inside of which text those that come now may stand, and how far
    from: u32,
    until: u32,
}

impl Model for RareTexts {
    ghost use Rattle.std.specs.Prelude.{List};
    ghost use Rattle.std.specs.String.{string_bytes};
    ghost use Rattle.tcl_pages.specs.Texts.{Text};
    ghost use Rattle.tcl_code.specs.Rare.{AllCut, cut};

    ghost Value = { List Text };

    ghost view = { λ r. cut (string_bytes r.text) r.stretches.items };

    ghost invariant = { λ r. AllCut (string_bytes r.text) r.stretches.items };
}

/// Is a stretch of a text this one?
fn is_stretch(whole: &str, stretch: Stretch, text: &str) -> bool
    ensures { result ≡ true → IsStretchOf whole.now text.now stretch }
{
    let (start, end) = (stretch.start as usize, stretch.end as usize);
    start <= end
        && whole.is_char_boundary(start)
        && whole.is_char_boundary(end)
        && &whole[start..end] == text
}

/// Does a text have this byte at a place?
fn has_byte(whole: &str, place: u32, byte: Option<u8>) -> bool {
    whole.as_bytes().get(place as usize).copied() == byte
}

/// The stretch of a text inside of another, of which some places are looked at.
fn seek(whole: &str, from: u32, until: u32, text: &str) -> Option<Stretch>
    ensures { IfSome result (λ s. IsStretchOf whole.now text.now s) }
{
    if text.len() < SHORT {
        return None;
    }
    let length = u32::try_from(text.len()).ok()?;
    let first = text.as_bytes().first().copied();
    let past = until.saturating_add(1).saturating_sub(length);
    for start in from..past.min(from.saturating_add(REACH)) {
        let end = start.saturating_add(length);
        let stretch = Stretch { start, end };
        if has_byte(whole, start, first) && is_stretch(whole, stretch, text) {
            return Some(stretch);
        }
    }
    None
}

/// How far texts may stand inside, where this one was sought and not found.
fn closed(from: u32, until: u32, text: &str) -> u32 {
    if text.len() < SHORT { until } else { from }
}

/// Writes a text at the end of one.
fn write(text: &mut String, more: &str) -> Result<(), AllocError>
    ensures done { OnOk result (string_bytes text.new ≡ string_bytes text.old ++ more.now) }
    ensures same { OnErr result (string_bytes text.new ≡ string_bytes text.old) }
{
    text.push_str(more)?;
    Ok(())
}

impl RareTexts {
    /// None yet.
    pub(crate) fn new(alloc: Global) -> RareTexts
        ensures { result ≡ [] }
    {
        RareTexts {
            text: String::new(alloc),
            stretches: Vec::new(alloc),
            from: 0,
            until: 0,
        }
    }

    /// The text of a number, if there is one.
    pub(crate) fn get(&self, number: u32) -> Option<&str>
        ensures { option_map (λ t. chars t.now) result ≡ slice_get self.now number }
    {
        let stretch = get_item(self.stretches.as_slice(), number as usize)?;
        Some(&self.text.as_str()[stretch.start as usize..stretch.end as usize])
    }

    /// From now on texts may stand inside of the one of a number.
    pub(crate) fn open(&mut self, number: u32)
        ensures { self.new ≡ self.old }
    {
        if let Some(stretch) = get_item(self.stretches.as_slice(), number as usize) {
            self.from = stretch.start;
            self.until = self.until.max(stretch.end);
        }
    }

    /// Puts a text at the end, and tells its number. Its characters are those that stand inside of another one, or else come behind all.
    pub(crate) fn push(&mut self, text: &str) -> Result<u32, AllocError>
        ensures done { OnOk result (self.new ≡ self.old ++ chars text.now ∷ []) }
        ensures number { IfOk result (λ n. n ≡ length self.old) }
        ensures same { OnErr result (self.new ≡ self.old) }
    {
        let number = narrow(self.stretches.len())?;
        if let Some(stretch) = seek(self.text.as_str(), self.from, self.until, text) {
            self.from = stretch.start;
            push_item(&mut self.stretches, stretch)?;
            return Ok(number);
        }
        self.until = closed(self.from, self.until, text);
        let start = narrow(self.text.as_str().len())?;
        write(&mut self.text, text)?;
        let end = narrow(self.text.as_str().len())?;
        push_item(&mut self.stretches, Stretch { start, end })?;
        Ok(number)
    }

    /// The same texts, without room for more.
    pub(crate) fn trimmed(self) -> RareTexts
        ensures { result ≡ self }
    {
        let mut rare = self;
        rare.text.shrink_to_fit();
        rare.stretches.shrink_to_fit();
        rare
    }
}
