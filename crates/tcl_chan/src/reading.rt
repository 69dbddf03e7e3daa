//! Reading an input ahead of the characters that are taken.
ghost use Rattle.std.specs.Prelude.{[], ◌≡◌, ◌≤◌, ◌<◌, ◌+◌, ◌^◌, true, false, Some, None, length, drop, IsNone, Err, ℕ, List, Option, option_map, IfSome, IfOk, IfErr, OnOk, OnErr};
ghost use Rattle.memchr.specs.Find.{IsFirstByte, is_byte};
ghost use Rattle.std.specs.Rc.{rc_str_bytes};
ghost use Rattle.std.specs.String.{string_bytes};
ghost use Rattle.tcl_chan.specs.Devices.{unread_bytes, StaysLeft};
ghost use Rattle.tcl_chan.specs.Faults.{IsInputFault, read_failures};
ghost use Rattle.tcl_chan.specs.declared.fault.ChanFault.TheVariants.{Memory};
ghost use Rattle.tcl_chan.specs.Ahead.{Grew, Decides, TakesCount};
ghost use Rattle.tcl_chan.specs.Sources.{TakesLine, TakesText};

use crate::characters::{first_char, line_text, lossy_text};
use crate::device::Input;
use crate::fault::ChanFault;
use crate::held::Held;
use memchr::memchr;
use std::alloc::Global;
use std::rc::RcStr;
use std::string::String;

/// Where the reading of an input stands: the bytes that were read from it and not taken yet, whether it has ended, and
/// whether a call met its end.
#[derive(Drop)]
pub struct Reader {
    held: Held,
    ended: bool,
    met_end: bool,
}

impl Reader {
    ghost use Rattle.tcl_chan.specs.Readers.{left_of};

    /// Nothing was read yet.
    pub(crate) fn new(alloc: Global) -> Reader
        ensures held { result.held ≡ [] }
        ensures ended { result.ended ≡ false }
        ensures met_end { result.met_end ≡ false }
    {
        Reader {
            held: Held::new(alloc),
            ended: false,
            met_end: false,
        }
    }

    /// Whether a call met the end.
    pub(crate) fn eof(&self) -> bool
        ensures { result ≡ self.now.met_end }
    {
        self.met_end
    }

    // Reads more bytes, or meets the input's end.
    fn fill<R: Input>(&mut self, input: &mut R) -> Result<(), ChanFault>
        requires { self.old.ended ≡ false }
        ensures fault { IfErr result IsInputFault }
        ensures failures { R.failed_calls input.new ≡ read_failures (R.failed_calls input.old) result }
        ensures met_end { self.new.met_end ≡ self.old.met_end }
        ensures unread { StaysLeft (left_of R.to_come self.old input.old) (left_of R.to_come self.new input.new) }
        ensures grew { OnOk result (Grew self.old.held self.new.held self.new.ended) }
        ensures kept { OnErr result (self.new.held ≡ self.old.held) }
        ensures small { OnOk result (length self.new.held < 2 ^ 63) }
        ensures goes_on { OnErr result (self.new.ended ≡ false) }
    {
        self.ended = self.held.fill(input)?;
        Ok(())
    }

    // The place of the first line feed among the bytes that are held, which are read on until there is one, or to the
    // input's end.
    fn line_end<R: Input>(&mut self, input: &mut R) -> Result<Option<usize>, ChanFault>
        ensures fault { IfErr result IsInputFault }
        ensures failures { R.failed_calls input.new ≡ read_failures (R.failed_calls input.old) result }
        ensures met_end { self.new.met_end ≡ self.old.met_end }
        ensures unread { StaysLeft (left_of R.to_come self.old input.old) (left_of R.to_come self.new input.new) }
        ensures found { IfOk result (λ end. IsFirstByte (is_byte 10) self.new.held end) }
        ensures whole { IfOk result (λ end. IsNone end → self.new.ended ≡ true) }
    {
        let mut searched = 0;
        'search: loop {
            let held = self.held.bytes();
            if let Some(place) = memchr(b'\n', &held[searched..]) {
                return Ok(Some(searched + place));
            }
            if self.ended {
                return Ok(None);
            }
            searched = held.len();
            self.fill(input)?;
        }
    }

    // The first character from a place among the held bytes on, or that more bytes are needed to tell it.
    fn char_at(&self, place: usize) -> Option<(Option<char>, usize)>
        requires within { place ≤ length self.now.held }
        requires some { self.now.ended ≡ true → place < length self.now.held }
        ensures first { Decides (drop place self.now.held) self.now.ended result }
        ensures within { IfSome result (λ first. place + first.1 < 2 ^ 63) }
    {
        let rest = &self.held.bytes()[place..];
        if rest.is_empty() {
            return None;
        }
        first_char(rest, self.ended)
    }

    // The text of the next `count` characters, or of all that are left where there are fewer; how many of the held bytes it takes;
    // and whether there were fewer.
    fn chars_ahead<R: Input>(
        &mut self,
        alloc: Global,
        input: &mut R,
        count: u64,
    ) -> Result<(String, usize, bool), ChanFault>
        ensures fault { IfErr result IsInputFault }
        ensures failures { R.failed_calls input.new ≡ read_failures (R.failed_calls input.old) result }
        ensures met_end { self.new.met_end ≡ self.old.met_end }
        ensures unread { StaysLeft (left_of R.to_come self.old input.old) (left_of R.to_come self.new input.new) }
        ensures within { IfOk result (λ taken. taken.1 ≤ length self.new.held) }
        ensures taken { IfSome (left_of R.to_come self.old input.old)
            (λ bytes. IfOk result (λ taken. TakesCount count bytes (string_bytes taken.0) taken.1 taken.2)) }
        ensures ended { IfOk result (λ taken. taken.2 ≡ true → self.new.ended ≡ true) }
        ensures all { IfOk result (λ taken. taken.2 ≡ true → taken.1 ≡ length self.new.held) }
    {
        let mut text = String::new(alloc);
        let mut size = 0;
        let mut left = count;
        'chars: while left > 0 {
            if self.ended && size == self.held.bytes().len() {
                return Ok((text, size, true));
            }
            match self.char_at(size) {
                None => self.fill(input)?,
                Some((char, bytes)) => {
                    size += bytes;
                    if let Some(c) = char {
                        text.push(c)?;
                        left -= 1;
                    }
                }
            }
        }
        Ok((text, size, false))
    }

    /// Takes a line and its line feed, or the rest; nothing where nothing is left.
    pub(crate) fn gets<R: Input>(
        &mut self,
        alloc: Global,
        input: &mut R,
    ) -> Result<Option<RcStr<Global>>, ChanFault>
        ensures fault { IfErr result IsInputFault }
        ensures failures { R.failed_calls input.new ≡ read_failures (R.failed_calls input.old) result }
        ensures line { IfSome (left_of R.to_come self.old input.old) (λ bytes. IfOk result (λ line.
            TakesLine bytes self.old.met_end (option_map rc_str_bytes line) (left_of R.to_come self.new input.new) self.new.met_end)) }
        ensures kept { OnErr result (StaysLeft (left_of R.to_come self.old input.old) (left_of R.to_come self.new input.new)) }
        ensures kept_end { OnErr result (self.new.met_end ≡ self.old.met_end) }

        // A call that meets the end leaves nothing, also where the device tells nothing.
        ensures end { self.old.met_end ≡ false → self.new.met_end ≡ true → left_of R.to_come self.new input.new ≡ Some [] }
    {
        match self.line_end(input)? {
            Some(place) => self.whole_line(alloc, place),
            None => self.last_line(alloc),
        }
    }

    // Takes the line that ends at a place, and its line feed.
    fn whole_line(
        &mut self,
        alloc: Global,
        place: usize,
    ) -> Result<Option<RcStr<Global>>, ChanFault>
        requires { IsFirstByte (is_byte 10) self.old.held (Some place) }
        ensures line { IfOk result (λ line. (device : Option (List ℕ)) → IfSome (unread_bytes self.old.held self.old.ended device)
            (λ bytes. TakesLine bytes self.old.met_end (option_map rc_str_bytes line)
            (unread_bytes self.new.held self.new.ended device) self.new.met_end)) }
        ensures met_end { self.new.met_end ≡ self.old.met_end }
        ensures memory { OnErr result (result ≡ Err Memory) }
        ensures kept { OnErr result (self.new ≡ self.old) }
    {
        let text = line_text(alloc, &self.held.bytes()[..place])?;
        self.held.pass(place + 1);
        Ok(Some(text))
    }

    // Takes all that is held of an input that has ended, without a line feed; nothing where nothing is held.
    fn last_line(&mut self, alloc: Global) -> Result<Option<RcStr<Global>>, ChanFault>
        requires ended { self.old.ended ≡ true }
        requires one { IsFirstByte (is_byte 10) self.old.held None }
        ensures line { IfOk result (λ line. (device : Option (List ℕ)) → IfSome (unread_bytes self.old.held self.old.ended device)
            (λ bytes. TakesLine bytes self.old.met_end (option_map rc_str_bytes line)
            (unread_bytes self.new.held self.new.ended device) self.new.met_end)) }
        ensures all { OnOk result (self.new.held ≡ []) }
        ensures ended { self.new.ended ≡ true }
        ensures memory { OnErr result (result ≡ Err Memory) }
        ensures kept { OnErr result (self.new ≡ self.old) }
    {
        let size = self.held.bytes().len();
        if size == 0 {
            self.met_end = true;
            return Ok(None);
        }
        let text = lossy_text(alloc, self.held.bytes())?;
        self.held.pass(size);
        self.met_end = true;
        Ok(Some(text))
    }

    /// Takes `count` characters, or all that are left where there are fewer or no count is given.
    pub(crate) fn read<R: Input>(
        &mut self,
        alloc: Global,
        input: &mut R,
        count: Option<u64>,
    ) -> Result<RcStr<Global>, ChanFault>
        ensures fault { IfErr result IsInputFault }
        ensures failures { R.failed_calls input.new ≡ read_failures (R.failed_calls input.old) result }
        ensures text { IfSome (left_of R.to_come self.old input.old) (λ bytes. IfOk result (λ text.
            TakesText count bytes self.old.met_end (rc_str_bytes text) (left_of R.to_come self.new input.new) self.new.met_end)) }
        ensures kept { OnErr result (StaysLeft (left_of R.to_come self.old input.old) (left_of R.to_come self.new input.new)) }
        ensures kept_end { OnErr result (self.new.met_end ≡ self.old.met_end) }

        // A call that meets the end leaves nothing, also where the device tells nothing.
        ensures end { self.old.met_end ≡ false → self.new.met_end ≡ true → left_of R.to_come self.new input.new ≡ Some [] }
    {
        let (text, size, fewer) = self.chars_ahead(alloc, input, count.unwrap_or(u64::MAX))?;
        let text = RcStr::from_string(text)?;
        self.held.pass(size);
        if fewer {
            self.met_end = true;
        }
        Ok(text)
    }
}
