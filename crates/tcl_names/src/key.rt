//! Keys of short names: two names that have the same key are the same.
ghost use Rattle.std.specs.Prelude.{◌≡◌, ◌<◌, ◌^◌, length, true, IfOk};
ghost use Rattle.std.specs.Str.{chars};
ghost use Rattle.tcl_names.specs.Keys.{has_key, packed, IsKeyOf, IsPlain, Tells};
ghost use Rattle.tcl_names.specs.Named.{text_of};

use crate::sought::Sought;
use std::alloc::AllocError;
use std::marker::Model;
use std::rc::RcStr;
use tcl_chars::is_text;

/// A number by which a short name is told from all others, or none.
#[derive(Clone, Copy, Drop)]
pub struct NameKey {
    // 0 where there is none
    number: u64,
}

// Has a name of these bytes a key?
fn has_key(bytes: &[u8]) -> bool
    ensures { result ≡ has_key bytes.now }
{
    let size = bytes.len();
    size > 0 && size < 8 && bytes[0] != b':' && bytes[size - 1] != b')'
}

// The number whose digits to the base 256 these bytes are.
fn packed(bytes: &[u8]) -> u64
    requires { length bytes.now < 8 }
    ensures packed { result ≡ packed 0 bytes.now }
    ensures low { result < 2 ^ 56 }
{
    let mut number = 0;
    for byte in bytes {
        number = number * 256 + u64::from(*byte);
    }
    number
}

impl NameKey {
    /// The key of a name: none where it has no byte or more than seven, where a colon leads it, and where `)` ends it.
    pub fn of(name: &str) -> NameKey
        ensures { IsKeyOf result name.now }
    {
        let bytes = name.as_bytes();
        if !has_key(bytes) {
            return NameKey { number: 0 };
        }
        NameKey {
            number: packed(bytes) * 8 + bytes.len() as u64,
        }
    }

    /// None, of a name whose key nobody has asked for.
    #[inline(always)]
    pub(crate) fn none() -> NameKey
        ensures { result.number ≡ 0 }
    {
        NameKey { number: 0 }
    }
}

// Is the key of a name known, and not none?
#[inline(always)]
pub(crate) fn is_known(name: &str, key: NameKey) -> bool
    requires { Tells key name.now }
    ensures { result ≡ true → IsPlain (chars name.now) }
{
    key.number != 0
}

// Are two names known to be the same by their keys?
#[inline(always)]
pub(crate) fn are_alike(name: &str, key: NameKey, other: &str, of_other: NameKey) -> bool
    requires one { Tells key name.now }
    requires other { Tells of_other other.now }
    ensures { result ≡ true → chars name.now ≡ chars other.now }
{
    key.number != 0 && key.number == of_other.number
}

/// A name with its key. Contracts see the name alone.
#[derive(Drop)]
pub struct KeyedName {
    name: RcStr,
    key: NameKey,
}

impl Model for KeyedName {
    ghost use Rattle.std.specs.Prelude.{List, ℕ};
    ghost use Rattle.std.specs.Rc.{rc_str_bytes};
    ghost use Rattle.tcl_names.specs.Keys.{Tells};
    ghost use Rattle.tcl_names.specs.Named.{text_of};

    ghost Value = { List ℕ };

    ghost view = { λ n. text_of n.name };

    ghost invariant = { λ n. Tells n.key (rc_str_bytes n.name) };
}

impl KeyedName {
    /// This name.
    pub fn new(name: RcStr) -> KeyedName
        ensures { result ≡ text_of name }
    {
        let key = NameKey::of(name.as_str());
        KeyedName { name, key }
    }

    /// The name.
    #[inline(always)]
    pub fn as_str(&self) -> &str
        ensures { chars result.now ≡ self.now }
    {
        self.name.as_str()
    }

    /// The name as it is kept.
    pub fn shared(&self) -> &RcStr
        ensures { text_of result.now ≡ self.now }
    {
        &self.name
    }

    /// The same name once more. Its text is shared.
    pub fn copy(&self) -> Result<KeyedName, AllocError>
        ensures { IfOk result (λ name. name ≡ self.now) }
    {
        Ok(KeyedName {
            name: self.name.clone()?,
            key: self.key,
        })
    }

    /// Is the name known by its key to be the one that is sought? One comparison tells.
    #[inline(always)]
    pub(crate) fn is_surely(&self, sought: &Sought<'_>) -> bool
        ensures { result ≡ true → sought.now ≡ self.now }
    {
        are_alike(sought.name, sought.key, self.name.as_str(), self.key)
    }

    /// Is it the name that is sought? One comparison tells where they have one key.
    #[inline(always)]
    pub fn is(&self, sought: &Sought<'_>) -> bool
        ensures { result ≡ true → sought.now ≡ self.now }
    {
        self.is_surely(sought) || self.is_text(sought.as_str())
    }

    // Is it this text?
    #[inline(never)]
    fn is_text(&self, text: &str) -> bool
        ensures { result ≡ true → chars text.now ≡ self.now }
    {
        is_text(text, self.name.as_str())
    }
}
