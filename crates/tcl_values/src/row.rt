//! A list that is shared with the value that it was read from.

ghost use Rattle.std.specs.Prelude.{◌≡◌, length, IfOk, IfSome};
ghost use Rattle.std.specs.Str.{chars};
ghost use Rattle.tcl_list.specs.Written.{written};
ghost use Rattle.tcl_values.specs.Kept.{texts};

use crate::element::{Element, Items};
use crate::items::forget_text;
use crate::readings::is_text;
use crate::value::{Held, Value};
use std::alloc::AllocError;
use std::marker::Model;
use std::rc::Rc;

/// The elements of a value, as they were when they were read.
#[derive(Drop)]
pub struct Row {
    pub(crate) items: Rc<Items>,
}

impl Model for Row {
    ghost use Rattle.std.specs.Prelude.{List, ℕ};

    ghost Value = { List (List ℕ) };

    ghost use Rattle.tcl_values.specs.Shape.{row_texts, IsRow};

    ghost view = { row_texts };

    ghost invariant = { IsRow };
}

impl Row {
    ghost use Rattle.tcl_values.specs.Shape.{AreRead};

    /// The list, if this text stands beside it.
    pub(crate) fn read_from(&self, text: &str) -> Option<&Rc<Items>>
        ensures { IfSome result (λ r. AreRead r.now.value (chars text.now)) }
    {
        if is_text(&self.items.text, text) {
            Some(&self.items)
        } else {
            None
        }
    }

    /// The elements.
    pub fn items(&self) -> &[Element]
        ensures { texts result.now ≡ self.now }
    {
        &self.items.items
    }

    /// How many they are.
    pub fn len(&self) -> usize
        ensures { result ≡ length self.now }
    {
        self.items.items.len()
    }

    /// Does nobody else hold them?
    pub fn is_alone(&self) -> bool {
        Rc::strong_count(&self.items) == 1
    }

    /// The value that is a list of them: their written form (list(n)).
    pub fn into_value(self) -> Result<Value, AllocError>
        ensures { IfOk result (λ v. v ≡ written self) }
    {
        let mut row = self.items;
        forget_text(&mut row)?;
        Ok(Value {
            held: Held::Row(row),
        })
    }
}
