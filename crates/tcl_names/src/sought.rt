//! Names that are looked for.
ghost use Rattle.std.specs.Prelude.{◌≡◌, true};
ghost use Rattle.std.specs.Str.{chars};
ghost use Rattle.tcl_names.specs.Keys.{IsKeyOf, IsPlain};

use crate::hint::Hint;
use crate::key::{NameKey, is_known};
use std::marker::Model;

/// A name that is looked for, with its key and where it was found last. Contracts see the name alone.
#[derive(Drop)]
pub struct Sought<'a> {
    pub(crate) name: &'a str,
    pub(crate) key: NameKey,
    pub(crate) hint: &'a Hint,
}

impl<'a> Model for Sought<'a> {
    ghost use Rattle.std.specs.Prelude.{List, ℕ};
    ghost use Rattle.std.specs.Str.{chars};
    ghost use Rattle.tcl_names.specs.Keys.{Tells};

    ghost Value = { List ℕ };

    ghost view = { λ s. chars s.name.now };

    ghost invariant = { λ s. Tells s.key s.name.now };
}

impl<'a> Sought<'a> {
    /// A name with its key.
    #[inline(always)]
    pub fn keyed(name: &'a str, key: NameKey, hint: &'a Hint) -> Sought<'a>
        requires { IsKeyOf key name.now }
        ensures { result ≡ chars name.now }
    {
        Sought { name, key, hint }
    }

    /// A name whose key isn't known.
    #[inline(always)]
    pub fn unkeyed(name: &'a str, hint: &'a Hint) -> Sought<'a>
        ensures { result ≡ chars name.now }
    {
        Sought {
            name,
            key: NameKey::none(),
            hint,
        }
    }

    /// The name.
    #[inline(always)]
    pub fn as_str(&self) -> &'a str
        ensures { chars result.now ≡ self.now }
    {
        self.name
    }

    /// Where it is guessed to stand.
    #[inline(always)]
    pub fn hint(&self) -> &'a Hint {
        self.hint
    }

    /// Is its key known, and not none?
    #[inline(always)]
    pub fn is_keyed(&self) -> bool
        ensures { result ≡ true → IsPlain self.now }
    {
        is_known(self.name, self.key)
    }
}
