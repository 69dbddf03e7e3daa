//! Values that are lists of one element, the value itself: numbers and plain words. Nothing is read or written for them.

ghost use Rattle.std.specs.Prelude.{◌≡◌, ◌∷◌, [], true, Ok, IfOk};
ghost use Rattle.std.specs.List.{list_all};
ghost use Rattle.std.specs.Str.{chars};
ghost use Rattle.std.specs.Fmt.{signed_decimal};
ghost use Rattle.tcl_list.specs.Elements.{elements_of};
ghost use Rattle.tcl_values.specs.Shape.{held_text, items_text, AreKept, IsHeld};
ghost use Rattle.tcl_values.specs.Singles.{is_plain};

use crate::element::{Element, Items};
use crate::items::gathered;
use crate::value::{Held, Value};
use std::alloc::{AllocError, Global};
use std::rc::Rc;
use tcl_chars::{is_list_space, split_first};

/// Does the character stand for itself, wherever it stands in a list?
fn is_plain(c: char) -> bool
    ensures { result ≡ is_plain c }
{
    !(is_list_space(c) || matches!(c, '{' | '}' | '[' | ']' | '$' | '"' | ';' | '\\' | '#'))
}

/// Does each character of the text stand for itself?
fn is_all_plain(text: &str) -> bool
    ensures { result ≡ list_all is_plain (chars text.now) }
{
    text.chars().all(|c| is_plain(c))
}

/// Is the text one word of which each character stands for itself? It is then the one element of its list.
pub(crate) fn is_word(text: &str) -> bool
    ensures { result ≡ true → elements_of (chars text.now) ≡ Ok (chars text.now ∷ []) }
{
    match split_first(text) {
        Some((first, rest)) => is_plain(first) && is_all_plain(rest),
        None => false,
    }
}

/// The list of which a number is the one element. The number isn't spelled.
pub(crate) fn number_row(alloc: Global, n: i64) -> Result<Rc<Items>, AllocError>
    ensures text { IfOk result (λ r. items_text r.value ≡ signed_decimal n) }
    ensures kept { IfOk result (λ r. AreKept r.value) }
{
    let elements = vec![in alloc; Element::of_number(n)]?;
    gathered(alloc, elements)
}

impl Held {
    /// Is it seen at once that its list has one element, itself?
    pub(crate) fn is_single(&self) -> bool
        requires { IsHeld self.now }
        ensures { result ≡ true → elements_of (held_text self.now) ≡ Ok (held_text self.now ∷ []) }
    {
        match self {
            Held::Number(_) => true,
            Held::Short(short) => is_word(short.as_str()),
            Held::Text(text) => is_word(text.as_str()),
            Held::Ascii(text) => is_word(text.as_str()),
            Held::Name(name) => is_word(name.text.as_str()),
            Held::Grown(grown) => is_word(grown.text.as_str()),
            Held::Composed(composed) => is_word(composed.growing.text.as_str()),
            Held::Literal(literal) => is_word(literal.text.as_str()),
            Held::Row(_) | Held::Dict(_) => false,
        }
    }
}

impl Value {
    /// Is it seen at once that the list that its text is read as has one element, the text itself? So it is of a number and of a plain word.
    pub fn is_word(&self) -> bool
        ensures { result ≡ true → elements_of self.now ≡ Ok (self.now ∷ []) }
    {
        self.held.is_single()
    }
}
