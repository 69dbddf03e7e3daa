//! Lists that stand many deep in a text. Read one level at a time, each level would be copied and looked at again for the next one. So
//! all levels are guessed in one walk, and the guess counts only where the list is written as the text.

ghost use Rattle.std.specs.Prelude.{◌≡◌, ◌<◌, ◌≤◌, IfOk, IfSome};
ghost use Rattle.std.specs.Str.{chars};
ghost use Rattle.tcl_list.specs.Texts.{text_of};
ghost use Rattle.tcl_values.specs.Shape.{items_text, AreKept, AreRead};

use crate::digits::decimal_number;
use crate::element::{Element, Items};
use crate::items::{gathered, keep_text, push_element, row_shown};
use crate::list::row_element;
use crate::row::Row;
use crate::short::Short;
use std::alloc::{AllocError, Global};
use std::mem::replace;
use std::rc::{Rc, RcStr};

/// The most levels of lists that are guessed. What stands deeper is a text to the list around it.
const MOST: usize = 62;

/// The part of a text in front of some place, as it was guessed: the list that is open there, and those around it.
#[derive(Drop)]
struct Guess<'a> {
    text: &'a str,
    /// Where the word begins that is open.
    word: Option<usize>,
    /// How many braces are open in the word.
    braces: usize,
    list: Row,
    around: Vec<Row>,
}

/// A list of no elements.
fn empty_list(alloc: Global) -> Result<Row, AllocError> {
    Ok(Row {
        items: gathered(alloc, Vec::new(alloc))?,
    })
}

/// A word as an element, and a number where it is its decimal text.
fn guessed_word(alloc: Global, word: &str) -> Result<Element, AllocError>
    ensures { IfOk result (λ e. e.depth < 64) }
{
    if let Some(n) = decimal_number(word) {
        return Ok(Element::of_number(n));
    }
    match Short::of(word) {
        Some(short) => Ok(Element::of_short(short)),
        None => Ok(Element::of_text(RcStr::from_str(alloc, word)?)),
    }
}

/// A list in braces as an element.
fn list_element(alloc: Global, list: Row) -> Result<Element, AllocError>
    ensures { IfOk result (λ e. e.depth < 64) }
{
    if list.len() == 0 {
        return Ok(Element::empty());
    }
    row_element(list.items, alloc)
}

impl Guess<'_> {
    /// Nothing of a text yet.
    fn new(alloc: Global, text: &str) -> Result<Guess<'_>, AllocError> {
        Ok(Guess {
            text,
            word: None,
            braces: 0,
            list: empty_list(alloc)?,
            around: Vec::new(alloc),
        })
    }

    /// The word that is open, if one is, ends in front of a place. Answers whether it could be guessed.
    fn end_word(&mut self, alloc: Global, end: usize) -> Result<bool, AllocError> {
        let Some(start) = self.word.take() else {
            return Ok(true);
        };
        let Some(word) = self.text.get(start..end) else {
            return Ok(false);
        };
        let element = guessed_word(alloc, word)?;
        push_element(&mut self.list.items, element)?;
        Ok(true)
    }

    /// A brace opens a list, or a text where lists stand too deep. Answers whether it could be guessed.
    fn open(&mut self, alloc: Global, place: usize) -> Result<bool, AllocError> {
        if self.word.is_some() {
            return Ok(false);
        }
        if MOST <= self.around.len() {
            self.word = Some(place.saturating_add(1));
            self.braces = 1;
            return Ok(true);
        }
        let outer = replace(&mut self.list, empty_list(alloc)?);
        self.around.push(outer)?;
        Ok(true)
    }

    /// A brace closes a list. Answers whether it could be guessed.
    fn close(&mut self, alloc: Global, place: usize) -> Result<bool, AllocError> {
        if !self.end_word(alloc, place)? {
            return Ok(false);
        }
        let Some(outer) = self.around.pop() else {
            return Ok(false);
        };
        let inner = replace(&mut self.list, outer);
        let element = list_element(alloc, inner)?;
        push_element(&mut self.list.items, element)?;
        Ok(true)
    }

    /// A byte of a text that stands too deep, up to the brace that closes it. Answers whether it could be guessed.
    fn pass(&mut self, alloc: Global, place: usize, byte: u8) -> Result<bool, AllocError>
        requires { 1 ≤ self.old.braces }
    {
        match byte {
            b'{' => self.braces = self.braces.saturating_add(1),
            b'}' => self.braces -= 1,
            b'\\' => return Ok(false),
            _ => {}
        }
        if self.braces == 0 {
            return self.end_word(alloc, place);
        }
        Ok(true)
    }

    /// The next byte, which stands at a place. Answers whether it could be guessed.
    fn take(&mut self, alloc: Global, place: usize, byte: u8) -> Result<bool, AllocError> {
        if 0 < self.braces {
            return self.pass(alloc, place, byte);
        }
        match byte {
            b' ' => self.end_word(alloc, place),
            b'{' => self.open(alloc, place),
            b'}' => self.close(alloc, place),
            b'"' | b'$' | b';' | b'[' | b']' | b'\\' | b'\t'..=b'\r' => Ok(false),
            _ => {
                if self.word.is_none() {
                    self.word = Some(place);
                }
                Ok(true)
            }
        }
    }
}

/// The list that a text may be read as, as far as its braces, spaces and words tell.
fn guessed(alloc: Global, text: &str) -> Result<Option<Row>, AllocError> {
    let mut guess = Guess::new(alloc, text)?;
    for (place, byte) in text.as_bytes().iter().enumerate() {
        if !guess.take(alloc, place, *byte)? {
            return Ok(None);
        }
    }
    if !guess.end_word(alloc, text.len())? || !guess.around.is_empty() {
        return Ok(None);
    }
    Ok(Some(guess.list))
}

/// A list with the text beside it, where it is written as this text.
fn written_as(
    alloc: Global,
    mut row: Rc<Items>,
    text: &RcStr,
) -> Result<Option<Rc<Items>>, AllocError>
    requires { AreKept row.value }
    ensures { IfOk result (λ o. IfSome o (λ r. AreRead r.value (text_of text.now))) }
{
    if row_shown(&row, alloc)?.as_str() != text.as_str() {
        return Ok(None);
    }
    keep_text(&mut row, text.clone()?);
    Ok(Some(row))
}

/// Do lists stand four deep where the text begins, or where it ends?
fn is_deep(text: &str) -> bool {
    text.starts_with("{{{{") || text.ends_with("}}}}")
}

/// The list that a text is read as, with the text beside it, where lists stand many deep in it and are spelled as they are written.
pub(crate) fn read_deep(alloc: Global, text: &RcStr) -> Result<Option<Rc<Items>>, AllocError>
    ensures { IfOk result (λ o. IfSome o (λ r. AreRead r.value (text_of text.now))) }
{
    if !is_deep(text.as_str()) {
        return Ok(None);
    }
    match guessed(alloc, text.as_str())? {
        Some(list) => written_as(alloc, list.items, text),
        None => Ok(None),
    }
}
