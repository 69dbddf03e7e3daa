//! The pattern of a search.

ghost use Rattle.std.specs.Prelude.{◌≡◌, IfOk};
ghost use Rattle.tcl_chars.specs.Texts.{same_text, text_of};
ghost use Rattle.tcl_pages.specs.Glob.{glob};
ghost use Rattle.tcl_pages.specs.Searching as spec;

use std::alloc::{AllocError, Global};
use std::marker::Model;
use std::rc::RcStr;
use tcl_chars::is_text;
use tcl_glob::glob_match;
use tcl_pages::SearchOptions;
use tcl_values::{Element, Value};

/// A pattern. Contracts see its characters.
#[derive(Drop)]
pub(crate) struct Pattern {
    text: RcStr,
    /// The number whose decimal text it is, if it is known to be one's: elements that are kept as numbers aren't spelled for it.
    number: Option<i64>,
}

impl Model for Pattern {
    ghost use Rattle.std.specs.Prelude.{List, ℕ};

    ghost Value = { List ℕ };

    ghost use Rattle.tcl_lists.specs.Patterns.{IsPattern};
    ghost use Rattle.tcl_chars.specs.Texts.{text_of};

    ghost view = { λ p. text_of p.text };

    ghost invariant = { IsPattern };
}

impl Pattern {
    /// The pattern of this text.
    pub(crate) fn new(text: RcStr) -> Pattern
        ensures { result ≡ text_of text }
    {
        let number = match Value::of_decimal(text.as_str()) {
            Some(value) => value.number(),
            None => None,
        };
        Pattern { text, number }
    }

    /// Is it the text of an element?
    fn is(&self, alloc: Global, element: &Element) -> Result<bool, AllocError>
        ensures { IfOk result (λ same. same ≡ same_text self.now element.now.text) }
    {
        match (self.number, element.number()) {
            (Some(number), Some(own)) => Ok(own == number),
            _ => {
                let text = element.text(alloc)?;
                Ok(is_text(self.text.as_str(), text.as_str()))
            }
        }
    }

    /// Does the text of an element match it?
    fn matches(&self, alloc: Global, element: &Element) -> Result<bool, AllocError>
        ensures { IfOk result (λ fits. fits ≡ glob self.now element.now.text) }
    {
        let text = element.text(alloc)?;
        Ok(glob_match(self.text.as_str(), text.as_str()))
    }

    /// Does an element fit it?
    pub(crate) fn is_wanted(
        &self,
        alloc: Global,
        options: SearchOptions,
        element: &Element,
    ) -> Result<bool, AllocError>
        ensures { IfOk result (λ wanted. wanted ≡ spec.is_wanted options self.now element.now.text) }
    {
        let fits = if options.exact {
            self.is(alloc, element)?
        } else {
            self.matches(alloc, element)?
        };
        Ok(if options.negated { !fits } else { fits })
    }
}
