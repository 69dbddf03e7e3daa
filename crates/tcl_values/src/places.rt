//! The characters of a text by their places.

ghost use Rattle.std.specs.Prelude.{◌≡◌, length, take, drop, IfSome};
ghost use Rattle.std.specs.Bool.{OnTrue};
ghost use Rattle.std.specs.Str.{chars, IsAscii};
ghost use Rattle.std.specs.String.{string_bytes};
ghost use Rattle.tcl_values.specs.Marks.{AreMarks};
ghost use Rattle.tcl_values.specs.Shape.{IsGrown};

use crate::marks::{BLOCK, begun_in, marks_below, next_begin, over_blocks, starts};
use crate::value::{Growing, Held, Value};
use std::marker::Model;
use tcl_chars::{before, split_first};

/// A text, which contracts see as the list of its characters, read by their places.
#[derive(Drop)]
pub struct Places<'a> {
    text: &'a str,
    /// Is it known to be ASCII?
    ascii: bool,
    /// Of its first blocks, how many characters begin up to the end of each.
    marks: &'a [usize],
}

impl<'a> Model for Places<'a> {
    ghost use Rattle.std.specs.Prelude.{List, ℕ};

    ghost Value = { List ℕ };

    ghost use Rattle.tcl_values.specs.Marks.{placed, ArePlaces};

    ghost view = { placed };

    ghost invariant = { ArePlaces };
}

/// The text without its first `count` characters, or without all of them where there are fewer.
fn behind_first(text: &str, count: usize) -> &str
    ensures { chars result.now ≡ drop count (chars text.now) }
{
    let mut rest = text;
    let mut left = count;
    while left > 0 {
        let Some((_, after)) = split_first(rest) else {
            return rest;
        };
        rest = after;
        left -= 1;
    }
    rest
}

/// The characters of a text from a place on, by its marks.
fn marked_from<'a>(text: &'a str, marks: &[usize], place: usize) -> &'a str
    requires { AreMarks marks.now text.now }
    ensures { chars result.now ≡ drop place (chars text.now) }
{
    let blocks = marks_below(marks, place);
    let passed = begun_in(marks, blocks, text);
    let (start, left) = over_blocks(text.as_bytes(), BLOCK * blocks, place - passed);
    let next = next_begin(text, start);
    behind_first(&text[next..], left)
}

impl<'a> Places<'a> {
    /// Those of a text of which nothing is known.
    pub fn of(text: &'a str) -> Places<'a>
        ensures { result ≡ chars text.now }
    {
        Places {
            text,
            ascii: false,
            marks: &[],
        }
    }

    /// Those of a text by its marks, or of one that is known to be ASCII.
    pub(crate) fn known(text: &'a str, ascii: bool, marks: &'a [usize]) -> Places<'a>
        requires ascii { OnTrue ascii (IsAscii text.now) }
        requires marks { AreMarks marks.now text.now }
        ensures { result ≡ chars text.now }
    {
        Places { text, ascii, marks }
    }

    /// The whole text.
    pub fn text(&self) -> &'a str
        ensures { chars result.now ≡ self.now }
    {
        self.text
    }

    /// How many characters it has.
    #[tactic(auto, using(crate::proofs::Beginnings::counted, crate::proofs::Beginnings::starts_front_le, crate::proofs::Beginnings::starts_le))]
    pub fn len(&self) -> usize
        ensures { result ≡ length self.now }
    {
        if self.ascii {
            return self.text.len();
        }
        let blocks = self.marks.len();
        begun_in(self.marks, blocks, self.text) + starts(&self.text.as_bytes()[BLOCK * blocks..])
    }

    /// The characters from a place on.
    pub fn rest(&self, place: usize) -> &'a str
        ensures { chars result.now ≡ drop place self.now }
    {
        if !self.ascii {
            return marked_from(self.text, self.marks, place);
        }
        if place >= self.text.len() {
            return "";
        }
        &self.text[place..]
    }

    /// The characters in front of a place.
    pub fn front(&self, place: usize) -> &'a str
        ensures { chars result.now ≡ take place self.now }
    {
        before(self.text, self.rest(place))
    }

    /// The characters from the place `first` on, in front of the place `behind`.
    pub fn part(&self, first: usize, behind: usize) -> &'a str
        ensures { chars result.now ≡ drop first (take behind self.now) }
    {
        if behind <= first {
            return "";
        }
        if self.ascii && behind <= self.text.len() {
            return &self.text[first..behind];
        }
        before(self.rest(first), self.rest(behind))
    }
}

impl Growing {
    /// Its characters by their places.
    pub(crate) fn places(&self) -> Places<'_>
        requires { IsGrown self.now }
        ensures { result ≡ chars (string_bytes self.now.text) }
    {
        Places::known(self.text.as_str(), self.ascii, &self.marks.before)
    }
}

impl Value {
    /// The characters of its text by their places, where the text stands ready as `shown` answers it. In a text that is known to be
    /// ASCII, and in a long one that was made by `of_shared`, `of_literal`, `of_string` or `append`, nothing is looked at to come to a
    /// place but a block of 64 bytes or two. In another text what begins in all blocks in front of the place is counted.
    #[tactic(auto, using(crate::proofs::Beginnings::no_marks))]
    pub fn places(&self) -> Option<Places<'_>>
        ensures { IfSome result (λ p. p ≡ self.now) }
    {
        match &self.held {
            Held::Number(_) => None,
            Held::Short(short) => Some(Places::known(short.as_str(), true, &[])),
            Held::Text(text) => Some(Places::of(text.as_str())),
            Held::Ascii(text) => Some(Places::known(text.as_str(), true, &[])),
            Held::Name(name) => Some(name.places()),
            Held::Grown(grown) => Some(grown.places()),
            Held::Composed(composed) => Some(composed.growing.places()),
            Held::Literal(literal) => Some(literal.places()),
            Held::Row(row) => match &row.text {
                Some(text) => Some(Places::of(text.as_str())),
                None => None,
            },
            Held::Dict(pairs) => match &pairs.text {
                Some(text) => Some(Places::of(text.as_str())),
                None => None,
            },
        }
    }
}
