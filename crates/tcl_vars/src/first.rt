//! From which text a variable's new one is made.
ghost use Rattle.std.specs.Prelude.{◌≡◌, Err};
ghost use Rattle.std.specs.Str.{chars};
ghost use Rattle.tcl_meaning.specs.VariablePages.{old_text};
ghost use Rattle.tcl_pages.specs.Updates.{old_of, begins, must_be_there};
ghost use Rattle.tcl_steps.specs.Ends.{Gives};
ghost use Rattle.tcl_vars.specs.Updating.{seen_first};

use std::alloc::Global;
use tcl_meaning::Refusal;
use tcl_pages::UpdatePage;
use tcl_steps::{Completion, Stop};
use tcl_values::Value;

/// From which text a variable's new one is made.
#[derive(Clone, Copy, Debug, PartialEq, Eq)]
pub(crate) enum First {
    /// A variable that is missing begins empty.
    Empty,
    /// A variable that is missing begins as 0.
    Nought,
    /// The variable is read.
    Read,
    /// The variable must be there.
    There,
}

/// From which text a command makes a variable's new one.
pub(crate) fn first_of(page: UpdatePage, words: &[Value]) -> First
    ensures { seen_first result ≡ old_of page words.now }
{
    match page {
        UpdatePage::Append if words.is_empty() => First::Read,
        UpdatePage::Incr => First::Nought,
        UpdatePage::Lset => First::There,
        _ => First::Empty,
    }
}

// The text with which a variable begins that is missing.
fn begun(alloc: Global, text: &str, name: &str, refusal: Refusal) -> Result<Value, Stop>
    ensures { Gives (old_text (begins (chars text.now)) (chars name.now) (Err refusal)) result }
{
    match refusal {
        Refusal::NoSuch | Refusal::NoElement => Ok(Value::of_str(alloc, text)?),
        _ => Err(Stop::Error(Completion::cant_set(alloc, name, refusal)?)),
    }
}

// Why a variable that must be there isn't.
fn wanted(alloc: Global, name: &str, refusal: Refusal) -> Result<Value, Stop>
    ensures { Gives (old_text must_be_there (chars name.now) (Err refusal)) result }
{
    match refusal {
        Refusal::NoSuch | Refusal::NoElement => {
            Err(Stop::Error(Completion::cant_read(alloc, name, refusal)?))
        }
        _ => Err(Stop::Error(Completion::cant_set(alloc, name, refusal)?)),
    }
}

/// The text from which that of a variable is made that can't be read.
pub(crate) fn first_text(
    alloc: Global,
    first: First,
    name: &str,
    refusal: Refusal,
) -> Result<Value, Stop>
    ensures { Gives (old_text (seen_first first) (chars name.now) (Err refusal)) result }
{
    match first {
        First::Empty => begun(alloc, "", name, refusal),
        First::Nought => begun(alloc, "0", name, refusal),
        First::Read => Err(Stop::Error(Completion::cant_read(alloc, name, refusal)?)),
        First::There => wanted(alloc, name, refusal),
    }
}
