//! Lists that stand in a script. Their elements are read with them, so that a row of a table is read once, however often a script takes it.

ghost use Rattle.std.specs.Prelude.{◌≡◌, ◌<◌, ◌≤◌, map, IfOk};
ghost use Rattle.tcl_list.specs.Elements.{elements_of};
ghost use Rattle.tcl_list.specs.Texts.{text_of, Answers};
ghost use Rattle.tcl_values.specs.Kept.{texts, depth_over};
ghost use Rattle.tcl_values.specs.Shape.{elements, items_text, AreKept};

use crate::element::{Element, Entry, Items};
use crate::items::deepest;
use crate::list_reading::{list_of, word_element, words};
use crate::single::is_word;
use crate::value::Held;
use std::alloc::{AllocError, Global};
use std::rc::{Rc, RcStr};
use tcl_chars::Fault;

/// The most bytes of an element that is read with its list: what is longer is mostly code.
const MOST: usize = 256;

impl Held {
    /// Does its text stand in a script?
    pub(crate) fn is_written(&self) -> bool {
        match self {
            Held::Literal(literal) => literal.is_written,
            _ => false,
        }
    }
}

/// Is a text not worth reading as a list: one word, or a long text?
fn is_plain(text: &str) -> bool {
    text.is_empty() || MOST < text.len() || is_word(text)
}

/// A text as an element, which is read as a list where it is one.
fn read_element(alloc: Global, text: RcStr) -> Result<Element, AllocError>
    ensures text { IfOk result (λ e. e.text ≡ text_of text) }
    ensures depth { IfOk result (λ e. e.depth < 64) }
{
    if is_plain(text.as_str()) {
        return Ok(word_element(text));
    }
    match list_of(alloc, &text)? {
        Some(row) => Ok(Element {
            entry: Entry::Row(row),
        }),
        None => Ok(word_element(text)),
    }
}

/// Texts as elements, each of which is read as a list where it is one.
fn read_elements(alloc: Global, words: Vec<RcStr>) -> Result<Vec<Element>, AllocError>
    ensures texts { IfOk result (λ v. texts v.items ≡ map text_of words.items) }
    ensures depth { IfOk result (λ v. depth_over v.items ≤ 64) }
{
    let mut elements = Vec::with_capacity(alloc, words.len())?;
    for text in words {
        elements.push(read_element(alloc, text)?)?;
    }
    Ok(elements)
}

/// The list that a text of a script is read as, with the text beside it.
pub(crate) fn read_written(alloc: Global, text: RcStr) -> Result<Rc<Items>, Fault>
    ensures read { Answers (λ r. texts (elements r.value)) result (elements_of (text_of text)) }
    ensures same { IfOk result (λ r. items_text r.value ≡ text_of text) }
    ensures kept { IfOk result (λ r. AreKept r.value) }
{
    let words = words(alloc, &text)?;
    let items = read_elements(alloc, words)?;
    let depth = deepest(&items);
    let row = Items {
        text: Some(text),
        depth,
        items,
        pairs: None,
    };
    Ok(Rc::new(alloc, row)?)
}
