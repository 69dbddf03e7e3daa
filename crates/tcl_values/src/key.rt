//! Keys of dictionaries.

ghost use Rattle.std.specs.Prelude.{◌≡◌, IfOk, fold};
ghost use Rattle.std.specs.Cmp as Cmp;
ghost use Rattle.std.specs.Cmp.{on_equiv};
ghost use Rattle.std.specs.Cmp.Lexicographic.{bytes_decides, nat_list_eq_equiv};
ghost use Rattle.std.specs.Fmt.{signed_decimal};
ghost use Rattle.std.specs.Str.{bytes_eq, chars};
ghost use Rattle.std.proofs.Common.{ap};
ghost use Rattle.tcl_chars.specs.Texts.{text_of};
ghost use Rattle.tcl_values.specs.Keys.{text_input};
ghost use Rattle.tcl_values.specs.Short.{short_text, IsShort};

use crate::element::{Element, Entry};
use crate::short::Short;
use crate::value::{Held, Value};
use indexmap::Equivalent;
use itoa::Buffer;
use std::alloc::{AllocError, Global};
use std::hash::{Hash, Hasher};
use std::marker::Model;
use std::rc::RcStr;
use tcl_chars::number_text;

/// A key of a dictionary. Contracts see the characters of its text.
pub struct Key {
    spelling: Spelling,
}

impl Drop for Key {
    #[inline(always)]
    fn drop(self) {
        let Key { spelling } = self;
        drop(spelling);
    }
}

/// How its text is there.
#[derive(Drop)]
pub(crate) enum Spelling {
    /// In place, as it is short.
    Short(Short),
    /// Shared with whoever else holds it.
    Shared(RcStr),
}

impl Model for Key {
    ghost use Rattle.std.specs.Prelude.{List, ℕ};

    ghost Value = { List ℕ };

    ghost use Rattle.tcl_values.specs.Keys.{key_text, IsKey};

    ghost view = { key_text };

    ghost invariant = { IsKey };
}

impl Key {
    /// The key that is this text. A short one is kept in place.
    pub fn of(text: RcStr) -> Key
        ensures { result ≡ text_of text }
    {
        let spelling = match Short::of(text.as_str()) {
            Some(short) => Spelling::Short(short),
            None => Spelling::Shared(text),
        };
        Key { spelling }
    }

    /// The key that is a short text.
    fn in_place(short: Short) -> Key
        requires { IsShort short }
        ensures { result ≡ short_text short }
    {
        Key {
            spelling: Spelling::Short(short),
        }
    }

    /// The key that is a number's decimal text. One of few digits is kept in place.
    fn of_number(alloc: Global, n: i64) -> Result<Key, AllocError>
        ensures { IfOk result (λ k. k ≡ signed_decimal n) }
    {
        match Short::of(Buffer::new().format(n)) {
            Some(short) => Ok(Key::in_place(short)),
            None => Ok(Key {
                spelling: Spelling::Shared(number_text(alloc, n)?),
            }),
        }
    }

    /// Its text.
    pub fn as_str(&self) -> &str
        ensures { chars result.now ≡ self.now }
    {
        match &self.spelling {
            Spelling::Short(short) => short.as_str(),
            Spelling::Shared(text) => text.as_str(),
        }
    }

    /// Its text as one that can be shared.
    pub fn shared(&self, alloc: Global) -> Result<RcStr, AllocError>
        ensures { IfOk result (λ t. text_of t ≡ self.now) }
    {
        match &self.spelling {
            Spelling::Short(short) => RcStr::from_str(alloc, short.as_str()),
            Spelling::Shared(text) => text.clone(),
        }
    }

    /// The element that is its text.
    pub(crate) fn element(&self) -> Result<Element, AllocError>
        ensures text { IfOk result (λ e. e.text ≡ self.now) }
        ensures depth { IfOk result (λ e. e.depth ≡ 0) }
    {
        match &self.spelling {
            Spelling::Short(short) => Ok(Element::of_short(*short)),
            Spelling::Shared(text) => Ok(Element::of_text(text.clone()?)),
        }
    }

    /// The value that is its text.
    pub fn value(&self) -> Result<Value, AllocError>
        ensures { IfOk result (λ v. v ≡ self.now) }
    {
        match &self.spelling {
            Spelling::Short(short) => Ok(Value {
                held: Held::Short(*short),
            }),
            Spelling::Shared(text) => Ok(Value {
                held: Held::Text(text.clone()?),
            }),
        }
    }
}

impl Clone for Key {
    ghost is_clone = { λ key copy. copy ≡ key };

    fn clone(&self) -> Result<Key, AllocError> {
        let spelling = match &self.spelling {
            Spelling::Short(short) => Spelling::Short(*short),
            Spelling::Shared(text) => Spelling::Shared(text.clone()?),
        };
        Ok(Key { spelling })
    }
}

impl Value {
    /// Its text as a key. For a short one nothing is allocated.
    ///
    /// # Errors
    ///
    /// `AllocError` where memory was refused.
    pub fn key(&self, alloc: Global) -> Result<Key, AllocError>
        ensures { IfOk result (λ k. k ≡ self.now) }
    {
        match &self.held {
            Held::Short(short) => Ok(Key::in_place(*short)),
            Held::Number(n) => Key::of_number(alloc, *n),
            held => Ok(Key::of(held.text(alloc)?)),
        }
    }
}

impl Element {
    /// Its text as a key. For a short one nothing is allocated.
    pub(crate) fn key(&self, alloc: Global) -> Result<Key, AllocError>
        ensures { IfOk result (λ k. k ≡ self.now.text) }
    {
        match &self.entry {
            Entry::Short(short) => Ok(Key::in_place(*short)),
            Entry::Number(n) => Key::of_number(alloc, *n),
            _ => Ok(Key::of(self.shared_text(alloc)?)),
        }
    }
}

/// Do two texts have the same characters? They have where they have the same bytes.
fn are_same(text: &str, other: &str) -> bool
    ensures { result ≡ bytes_eq (chars text.now) (chars other.now) }
{
    text == other
}

/// Has a hasher read a text.
fn feed<H: Hasher>(text: &str, state: &mut H)
    ensures { state.new ≡ fold H.write state.old (text_input (chars text.now)) }
{
    text.hash(state);
}

impl PartialEq for Key {
    ghost eq = { bytes_eq };

    ghost laws = { Cmp.partial_equiv_from_equiv nat_list_eq_equiv };

    fn eq(&self, other: &Self) -> bool {
        are_same(self.as_str(), other.as_str())
    }
}

impl Eq for Key {
    ghost laws = { nat_list_eq_equiv };
}

impl Hash for Key {
    ghost hash_input = { text_input };

    ghost respects_eq = { λ a b h. ap text_input ((bytes_decides a b).0 h) };

    fn hash<H: Hasher>(&self, state: &mut H) {
        feed(self.as_str(), state);
    }
}

/// A text that a key is looked for by.
#[derive(Clone, Copy, Drop)]
pub(crate) struct Sought<'a> {
    pub(crate) text: &'a str,
}

impl PartialEq for Sought<'_> {
    ghost eq = { λ a b. bytes_eq (chars a.text.now) (chars b.text.now) };

    ghost laws = { Cmp.partial_equiv_from_equiv (on_equiv (λ a. chars a.text.now) nat_list_eq_equiv) };

    fn eq(&self, other: &Self) -> bool {
        are_same(self.text, other.text)
    }
}

impl Eq for Sought<'_> {
    ghost laws = { on_equiv (λ a. chars a.text.now) nat_list_eq_equiv };
}

impl Hash for Sought<'_> {
    ghost hash_input = { λ a. text_input (chars a.text.now) };

    ghost respects_eq = { λ a b h. ap text_input ((bytes_decides (chars a.text.now) (chars b.text.now)).0 h) };

    fn hash<H: Hasher>(&self, state: &mut H) {
        feed(self.text, state);
    }
}

impl Equivalent<Key> for Sought<'_> {
    ghost equivalent = { λ a key. bytes_eq (chars a.text.now) key };

    ghost respects_hash = { λ a key h. ap text_input ((bytes_decides (chars a.text.now) key).0 h) };

    ghost respects_eq = { λ a key other. nat_list_eq_equiv.congr (chars a.text.now) key other };

    fn equivalent(&self, key: &Key) -> bool {
        are_same(self.text, key.as_str())
    }
}
