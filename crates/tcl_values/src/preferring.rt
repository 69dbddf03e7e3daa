//! Values that are kept as the list or the dictionary that they are read as from now on, since they are to be read so again and again. Where
//! this is done is the question of who reads: a value is what it was.

ghost use Rattle.std.specs.Prelude.{◌≡◌, ◌≤◌, IfSome};
ghost use Rattle.std.specs.Fmt.{signed_decimal};
ghost use Rattle.tcl_values.specs.Shape.{held_text, items_text, AreKept, ArePairsRead, IsHeld};

use crate::beside::{LONG, keep_beside, prefer_beside, prefer_under, put_beside};
use crate::dict::read_dict;
use crate::digits::decimal_number;
use crate::element::{Items, Pairs};
use crate::inner::{read_at, read_under};
use crate::list_reading::read_row;
use crate::value::{Held, Value};
use std::alloc::{AllocError, Global};
use std::rc::Rc;
use tcl_chars::Fault;

/// The least bytes of a text that is kept as a list or a dictionary in its place: what a shorter one was read as is found by a look at
/// the text in hardly more time.
const LONG_TEXT: usize = 256;

/// What was read, or nothing where it is no list or no dictionary: who asks for it is told so.
fn unless_faulty(read: Result<(), Fault>) -> Result<(), AllocError> {
    match read {
        Ok(()) | Err(Fault::Error(_)) => Ok(()),
        Err(Fault::Memory) => Err(AllocError),
    }
}

impl Held {
    /// Is it a long text, beside which neither a list nor a dictionary is kept that needs no look at it?
    fn is_long_text(&self) -> bool {
        match self {
            Held::Text(text) | Held::Ascii(text) => LONG_TEXT <= text.len(),
            Held::Composed(composed) => LONG_TEXT <= composed.growing.text.len(),
            Held::Literal(literal) => LONG_TEXT <= literal.text.len(),
            _ => false,
        }
    }
}

/// Puts a dictionary beside the list that it was read as, where that is deep enough.
fn put_back(row: &mut Rc<Items>, pairs: Rc<Pairs>)
    requires kept { AreKept row.old.value }
    requires read { ArePairsRead pairs.value (items_text row.old.value) }
    ensures text { items_text row.new.value ≡ items_text row.old.value }
    ensures kept { AreKept row.new.value }
{
    if row.depth < pairs.depth {
        return;
    }
    if let Some(own) = Rc::get_mut(row) {
        put_beside(own, pairs);
    }
}

/// Keeps a dictionary as the list that it is read as, with the dictionary beside it.
fn read_flat(held: &mut Held, pairs: Rc<Pairs>, alloc: Global) -> Result<(), Fault>
    requires kept { IsHeld held.old }
    requires read { ArePairsRead pairs.value (held_text held.old) }
    ensures text { held_text held.new ≡ held_text held.old }
    ensures kept { IsHeld held.new }
{
    read_row(held, alloc)?;
    if let Held::Row(row) = held {
        put_back(row, pairs);
    }
    Ok(())
}

/// Keeps a long text or a dictionary as the list that it is read as.
fn read_long(held: &mut Held, alloc: Global) -> Result<(), Fault>
    requires { IsHeld held.old }
    ensures text { held_text held.new ≡ held_text held.old }
    ensures kept { IsHeld held.new }
{
    if let Held::Dict(pairs) = held {
        let pairs = pairs.clone()?;
        return read_flat(held, pairs, alloc);
    }
    if held.is_long_text() {
        return read_row(held, alloc);
    }
    Ok(())
}

impl Value {
    /// The number whose decimal text it is, where it is a text and not known to be one.
    fn decimal(&self) -> Option<i64>
        ensures { IfSome result (λ n. self.now ≡ signed_decimal n) }
    {
        match &self.held {
            Held::Short(_) | Held::Text(_) | Held::Ascii(_) | Held::Composed(_) => {
                decimal_number(self.shown()?)
            }
            _ => None,
        }
    }

    /// Keeps the number whose decimal text it is in the text's place, where it is one: copies are to be read as numbers.
    pub fn prefer_number(&mut self)
        ensures { self.new ≡ self.old }
    {
        if let Some(number) = self.decimal() {
            self.held = Held::Number(number);
        }
    }

    /// Has it to be read anew, or at least to be looked at as a whole, each time that a copy of it is read as a list? Then who is to do so
    /// has it keep the list, by `prefer_list`.
    #[inline(always)]
    pub fn is_unread(&self) -> bool {
        match &self.held {
            Held::Row(_) => false,
            Held::Dict(_) => true,
            held => held.is_long_text(),
        }
    }

    /// Is the element at a place of the list that it is kept as a long text, which is read anew each time that it is read as a list? Then
    /// who is to do so has it kept as a list, by `prefer_list_at`.
    #[inline(always)]
    pub fn is_unread_at(&self, index: usize) -> bool {
        match &self.held {
            Held::Row(row) => match row.items.get(index) {
                Some(element) => element.is_unread(),
                None => false,
            },
            _ => false,
        }
    }

    /// Keeps the list that it is read as from now on, where it is a text of 256 bytes or more or kept as a dictionary: copies are to be
    /// read as a list. A text that is no list stays as it is.
    ///
    /// # Errors
    ///
    /// `AllocError` where a growth was refused.
    pub fn prefer_list(&mut self, alloc: Global) -> Result<(), AllocError>
        ensures { self.new ≡ self.old }
    {
        unless_faulty(read_long(&mut self.held, alloc))
    }

    /// Has an element of 32 bytes or more at a place of the list that it is kept as be kept as the list that the element is read as. Where
    /// somebody else holds the outer list too, that is done only for an element that is longer than a copy is dear.
    ///
    /// # Errors
    ///
    /// `AllocError` where a growth was refused.
    pub fn prefer_list_at(&mut self, alloc: Global, index: usize) -> Result<(), AllocError>
        ensures { self.new ≡ self.old }
    {
        match &mut self.held {
            Held::Row(row) => read_at(row, index, alloc),
            _ => Ok(()),
        }
    }

    /// Keeps the dictionary that it is read as from now on: beside the list, where it is kept as one of 16 elements or more, and in its place
    /// where it is a text of 256 bytes or more. Copies are to be read as a dictionary. What is no dictionary stays as it is.
    ///
    /// # Errors
    ///
    /// `AllocError` where a growth was refused.
    pub fn prefer_dictionary(&mut self, alloc: Global) -> Result<(), AllocError>
        ensures { self.new ≡ self.old }
    {
        match &mut self.held {
            Held::Row(row) => keep_beside(row, alloc, LONG),
            held if held.is_long_text() => unless_faulty(read_dict(held, alloc)),
            _ => Ok(()),
        }
    }

    /// May copies of it be read as a dictionary only by reading a text or a list anew, its own or one under a key? Only then it is worth the
    /// while to have it keep the dictionaries that they are read as.
    #[inline(always)]
    pub fn lacks_dictionary(&self) -> bool {
        match &self.held {
            Held::Dict(pairs) => pairs.has_lists,
            Held::Row(row) => match &row.pairs {
                Some(pairs) => pairs.has_lists,
                None => true,
            },
            held => held.is_long_text(),
        }
    }

    /// Has a long text or a list of 16 elements or more under a key of the dictionary that it is kept or read as keep the dictionary that it is
    /// read as, where nobody else holds the outer one or the text is longer than a copy is dear: copies are to be read as a dictionary of
    /// dictionaries.
    ///
    /// # Errors
    ///
    /// `AllocError` where a growth was refused.
    pub fn prefer_dictionary_under(&mut self, alloc: Global, key: &str) -> Result<(), AllocError>
        ensures { self.new ≡ self.old }
    {
        self.prefer_dictionary(alloc)?;
        match &mut self.held {
            Held::Dict(pairs) => {
                read_under(pairs, key, alloc)?;
                prefer_under(pairs, key, alloc)
            }
            Held::Row(row) => prefer_beside(row, key, alloc),
            _ => Ok(()),
        }
    }
}
