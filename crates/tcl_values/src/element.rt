//! Elements of lists that are kept.

ghost use Rattle.std.specs.Prelude.{◌≡◌, ◌<◌, ◌++◌, [], IfOk, IfSome, OnErr, OnOk};
ghost use Rattle.std.specs.Fmt.{signed_decimal};
ghost use Rattle.std.specs.Str.{chars};
ghost use Rattle.std.specs.String.{string_bytes};
ghost use Rattle.tcl_list.specs.Texts.{text_of};
ghost use Rattle.tcl_values.specs.Short.{short_text, IsShort};

use crate::element_text::ElementText;
use crate::items::{row_shown, row_text};
use crate::key::Key;
use crate::literal::with_room;
use crate::marks::Marks;
use crate::pairs::{dict_text, pairs_shown};
use crate::short::Short;
use crate::value::{Growing, Held, Value};
use indexmap::IndexSet;
use std::alloc::{AllocError, Global};
use std::marker::Model;
use std::rc::{Rc, RcStr};
use tcl_chars::{number_text, push_number, push_text};

/// An element of a list that is kept. It has a text; that of a list or of a dictionary is written when somebody asks for it.
#[cycle(element)]
pub struct Element {
    pub(crate) entry: Entry,
}

impl Drop for Element {
    /// A number and a short text hold nothing.
    #[cycle(dropping)]
    #[inline(always)]
    fn drop(self) {
        let Element { entry } = self;
        match entry {
            Entry::Number(_) | Entry::Short(_) => {}
            entry => drop(entry),
        }
    }
}

/// What is kept of an element.
#[cycle(element)]
#[derive(Drop)]
pub(crate) enum Entry {
    /// Its text alone.
    Text(RcStr),
    /// Its text alone, which is short.
    Short(Short),
    /// A number, whose text is its decimal digits.
    Number(i64),
    /// The list that its text is read as.
    Row(Rc<Items>),
    /// The dictionary that its text is read as.
    Dict(Rc<Pairs>),
    /// A text that grows at its end.
    Grown(Rc<Growing>),
}

/// The elements of a list, beside its text where that has been written or read, and beside the dictionary that it was read as where that is
/// kept.
#[cycle(element)]
#[derive(Drop)]
pub(crate) struct Items {
    pub(crate) text: Option<RcStr>,
    /// How deep it is: one more than its deepest element.
    pub(crate) depth: u8,
    pub(crate) items: Vec<Element>,
    pub(crate) pairs: Option<Rc<Pairs>>,
}

/// The pairs of a dictionary, beside its text where that has been written or read.
#[cycle(element)]
#[derive(Drop)]
pub(crate) struct Pairs {
    pub(crate) text: Option<RcStr>,
    /// How deep it is: more than each of its values.
    pub(crate) depth: u8,
    pub(crate) keys: IndexSet<Key>,
    /// The keys' values, in the places of the keys.
    pub(crate) values: Vec<Element>,
    /// May there be a list among the values, or a text that is long enough to be kept as one? A hint that no contract needs.
    pub(crate) has_lists: bool,
}

impl Model for Element {
    ghost use Rattle.tcl_values.specs.Kept.{Kept};

    ghost Value = { Kept };

    ghost use Rattle.tcl_values.specs.Shape.{kept, IsElement};

    ghost view = { kept };

    ghost invariant = { IsElement };

    ghost size = { λ k. k.depth };

    ghost use Rattle.tcl_values.specs.Falls.{child_le};

    ghost size_decreases = { child_le };
}

impl Element {
    /// The element that is a number's decimal text.
    pub(crate) fn of_number(n: i64) -> Element
        ensures text { result.text ≡ signed_decimal n }
        ensures depth { result.depth ≡ 0 }
    {
        Element {
            entry: Entry::Number(n),
        }
    }

    /// The element that is this text.
    pub(crate) fn of_text(text: RcStr) -> Element
        ensures text { result.text ≡ text_of text }
        ensures depth { result.depth ≡ 0 }
    {
        Element {
            entry: Entry::Text(text),
        }
    }

    /// The element that is a short text.
    pub(crate) fn of_short(short: Short) -> Element
        requires { IsShort short }
        ensures text { result.text ≡ short_text short }
        ensures depth { result.depth ≡ 0 }
    {
        Element {
            entry: Entry::Short(short),
        }
    }

    /// The empty element.
    pub(crate) fn empty() -> Element
        ensures text { result.text ≡ [] }
        ensures depth { result.depth ≡ 0 }
    {
        Element::of_short(Short::new())
    }

    /// Its text: lent where it stands ready, else written.
    ///
    /// # Errors
    ///
    /// `AllocError` where memory for what is written was refused.
    #[cycle(writing)]
    pub fn text(&self, alloc: Global) -> Result<ElementText<'_>, AllocError>
        ensures { IfOk result (λ t. t ≡ self.now.text) }
    {
        match &self.entry {
            Entry::Text(text) => Ok(ElementText::lent(text.as_str())),
            Entry::Short(short) => Ok(ElementText::lent(short.as_str())),
            Entry::Number(n) => ElementText::of_number(alloc, *n),
            Entry::Row(row) => row_shown(row, alloc),
            Entry::Dict(pairs) => pairs_shown(pairs, alloc),
            Entry::Grown(grown) => Ok(ElementText::lent(grown.text.as_str())),
        }
    }

    /// Writes its text at the end of another one. That of a number isn't made anew for that.
    ///
    /// # Errors
    ///
    /// `AllocError` where a growth was refused; the other text is then as it was.
    pub fn write_to(&self, alloc: Global, text: &mut String) -> Result<(), AllocError>
        ensures done { OnOk result (chars (string_bytes text.new) ≡ chars (string_bytes text.old) ++ self.now.text) }
        ensures same { OnErr result (string_bytes text.new ≡ string_bytes text.old) }
    {
        if let Entry::Number(n) = &self.entry {
            return push_number(text, *n);
        }
        let own = self.text(alloc)?;
        push_text(text, own.as_str())
    }

    /// Its text, where it stands ready.
    pub fn shown(&self) -> Option<&str>
        ensures { IfSome result (λ t. chars t.now ≡ self.now.text) }
    {
        match &self.entry {
            Entry::Text(text) => Some(text.as_str()),
            Entry::Short(short) => Some(short.as_str()),
            Entry::Number(_) => None,
            Entry::Row(row) => match &row.text {
                Some(text) => Some(text.as_str()),
                None => None,
            },
            Entry::Dict(pairs) => match &pairs.text {
                Some(text) => Some(text.as_str()),
                None => None,
            },
            Entry::Grown(grown) => Some(grown.text.as_str()),
        }
    }

    /// The number that it is kept as, if it is kept as one: then its text is the number's decimal text.
    pub fn number(&self) -> Option<i64>
        ensures { IfSome result (λ n. self.now.text ≡ signed_decimal n) }
    {
        match &self.entry {
            Entry::Number(number) => Some(*number),
            _ => None,
        }
    }

    /// A value of the same text. What is kept is shared; a number and a short text are copied in place.
    #[inline(always)]
    pub fn copy(&self) -> Result<Value, AllocError>
        ensures { IfOk result (λ v. v ≡ self.now.text) }
    {
        let held = match &self.entry {
            Entry::Short(short) => Held::Short(*short),
            Entry::Number(n) => Held::Number(*n),
            _ => return self.shared(),
        };
        Ok(Value { held })
    }

    // The same of any element, by a call.
    fn shared(&self) -> Result<Value, AllocError>
        ensures { IfOk result (λ v. v ≡ self.now.text) }
    {
        let held = match &self.entry {
            Entry::Text(text) => Held::Text(text.clone()?),
            Entry::Short(short) => Held::Short(*short),
            Entry::Number(n) => Held::Number(*n),
            Entry::Row(row) => Held::Row(row.clone()?),
            Entry::Dict(pairs) => Held::Dict(pairs.clone()?),
            Entry::Grown(grown) => Held::Grown(grown.clone()?),
        };
        Ok(Value { held })
    }

    /// A value of the same text, as by [`Element::copy`]. What a long text is read as is kept from then on for all who hold the value.
    pub fn value(&self, alloc: Global) -> Result<Value, AllocError>
        ensures { IfOk result (λ v. v ≡ self.now.text) }
    {
        match &self.entry {
            Entry::Text(text) => Ok(Value {
                held: with_room(alloc, text.clone()?, false, Marks::new(alloc))?,
            }),
            _ => self.copy(),
        }
    }

    /// The same element. What is kept is shared.
    pub(crate) fn duplicate(&self) -> Result<Element, AllocError>
        ensures { IfOk result (λ e. e ≡ self.now) }
    {
        let entry = match &self.entry {
            Entry::Text(text) => Entry::Text(text.clone()?),
            Entry::Short(short) => Entry::Short(*short),
            Entry::Number(n) => Entry::Number(*n),
            Entry::Row(row) => Entry::Row(row.clone()?),
            Entry::Dict(pairs) => Entry::Dict(pairs.clone()?),
            Entry::Grown(grown) => Entry::Grown(grown.clone()?),
        };
        Ok(Element { entry })
    }

    /// How deep the list or dictionary is that stands beside its text.
    pub(crate) fn depth(&self) -> u8
        ensures { result ≡ self.now.depth }
    {
        match &self.entry {
            Entry::Text(_) => 0,
            Entry::Short(_) => 0,
            Entry::Number(_) => 0,
            Entry::Row(row) => row.depth,
            Entry::Dict(pairs) => pairs.depth,
            Entry::Grown(_) => 0,
        }
    }

    /// Its text, shared, or copied where it grows; that of a list or of a dictionary is written where it doesn't stand ready.
    ///
    /// # Errors
    ///
    /// `AllocError` where memory was refused.
    pub fn shared_text(&self, alloc: Global) -> Result<RcStr, AllocError>
        ensures { IfOk result (λ t. text_of t ≡ self.now.text) }
    {
        match &self.entry {
            Entry::Text(text) => text.clone(),
            Entry::Short(short) => RcStr::from_str(alloc, short.as_str()),
            Entry::Number(n) => number_text(alloc, *n),
            Entry::Row(row) => row_text(row, alloc),
            Entry::Dict(pairs) => dict_text(pairs, alloc),
            Entry::Grown(grown) => RcStr::from_str(alloc, grown.text.as_str()),
        }
    }

    /// The element as its text alone, that of a number in its place.
    pub(crate) fn plain(&self, alloc: Global) -> Result<Element, AllocError>
        ensures text { IfOk result (λ e. e.text ≡ self.now.text) }
        ensures depth { IfOk result (λ e. e.depth ≡ 0) }
    {
        if let Entry::Number(n) = &self.entry {
            return Ok(Element {
                entry: Entry::Number(*n),
            });
        }
        Ok(Element {
            entry: Entry::Text(self.shared_text(alloc)?),
        })
    }
}
