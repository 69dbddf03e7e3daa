//! What a text was read as, kept beside it for all who hold the text.

ghost use Rattle.std.specs.Prelude.{◌≡◌, true, Some, IfSome};
ghost use Rattle.std.specs.Str.{chars};
ghost use Rattle.tcl_values.specs.Shape.{held_text, shared_text, AreKept, ArePaired, AreRead, ArePairsRead, IsHeld};

use crate::dictionary::Dictionary;
use crate::element::{Items, Pairs};
use crate::row::Row;
use crate::value::Held;
use std::alloc::AllocError;
use std::cell::OnceCell;
use std::rc::{Rc, RcStr};

/// The list and the dictionary that a text was read as, once it has been read.
#[derive(Drop)]
pub(crate) struct Readings {
    list: OnceCell<Row>,
    dictionary: OnceCell<Dictionary>,
}

/// Is a text there, and this one?
pub(crate) fn is_text(own: &Option<RcStr>, text: &str) -> bool
    ensures { result ≡ true → shared_text own.now ≡ Some (chars text.now) }
{
    match own {
        Some(own) => own.as_str() == text,
        None => false,
    }
}

impl Readings {
    /// None yet.
    pub(crate) fn new() -> Readings {
        Readings {
            list: OnceCell::new(),
            dictionary: OnceCell::new(),
        }
    }

    /// The list, if it was read from this text.
    fn list_of(&self, text: &str) -> Option<&Rc<Items>>
        ensures { IfSome result (λ r. AreRead r.now.value (chars text.now)) }
    {
        match self.list.get() {
            Some(row) => row.read_from(text),
            None => None,
        }
    }

    /// The dictionary, if it was read from this text.
    fn pairs_of(&self, text: &str) -> Option<&Rc<Pairs>>
        ensures { IfSome result (λ p. ArePairsRead p.now.value (chars text.now)) }
    {
        match self.dictionary.get() {
            Some(pairs) => pairs.read_from(text),
            None => None,
        }
    }

    /// Keeps a list, if none is kept yet.
    fn keep_list(&self, items: &Rc<Items>) -> Result<(), AllocError>
        requires { AreKept items.now.value }
    {
        let row = Row {
            items: items.clone()?,
        };
        let _refused = self.list.set(row);
        Ok(())
    }

    /// Keeps a dictionary, if none is kept yet.
    fn keep_pairs(&self, pairs: &Rc<Pairs>) -> Result<(), AllocError>
        requires { ArePaired pairs.now.value }
    {
        let dictionary = Dictionary {
            pairs: pairs.clone()?,
        };
        let _refused = self.dictionary.set(dictionary);
        Ok(())
    }
}

impl Held {
    /// The list that the text was read as by somebody who holds it.
    pub(crate) fn kept_list(&self) -> Option<&Rc<Items>>
        ensures { IfSome result (λ r. AreRead r.now.value (held_text self.now)) }
    {
        match self {
            Held::Composed(composed) => composed.readings.list_of(composed.growing.text.as_str()),
            Held::Literal(literal) => literal.readings.list_of(literal.text.as_str()),
            _ => None,
        }
    }

    /// The dictionary that the text was read as by somebody who holds it.
    pub(crate) fn kept_pairs(&self) -> Option<&Rc<Pairs>>
        requires { IsHeld self.now }
        ensures { IfSome result (λ p. ArePairsRead p.now.value (held_text self.now)) }
    {
        match self {
            Held::Composed(composed) => composed.readings.pairs_of(composed.growing.text.as_str()),
            Held::Literal(literal) => literal.readings.pairs_of(literal.text.as_str()),
            Held::Row(row) => row.pairs.as_ref(),
            _ => None,
        }
    }

    /// Keeps the list that the text was read as, for all who hold the text.
    pub(crate) fn keep_list(&self, items: &Rc<Items>) -> Result<(), AllocError>
        requires { AreKept items.now.value }
    {
        match self {
            Held::Composed(composed) => composed.readings.keep_list(items),
            Held::Literal(literal) => literal.readings.keep_list(items),
            _ => Ok(()),
        }
    }

    /// Keeps the dictionary that the text was read as, for all who hold the text.
    pub(crate) fn keep_pairs(&self, pairs: &Rc<Pairs>) -> Result<(), AllocError>
        requires { ArePaired pairs.now.value }
    {
        match self {
            Held::Composed(composed) => composed.readings.keep_pairs(pairs),
            Held::Literal(literal) => literal.readings.keep_pairs(pairs),
            _ => Ok(()),
        }
    }
}
