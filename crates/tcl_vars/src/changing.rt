//! A text that is changed in its place, by the page of the command.
ghost use Rattle.std.specs.Prelude.{◌≡◌, length, OnErr};
ghost use Rattle.tcl_pages.specs.Updates.{increased, updated};
ghost use Rattle.tcl_values.specs.Lists.{Leaves};
ghost use Rattle.tcl_vars.specs.Updating.{IsTaken};

use crate::elements::lappend;
use crate::number::incr;
use crate::replacing::lset;
use crate::text::append;
use std::alloc::Global;
use tcl_chars::{Dialect, Fault};
use tcl_dicts::{dict_append, dict_incr, dict_lappend, dict_set, dict_unset};
use tcl_pages::UpdatePage;
use tcl_values::Value;

// incr(n): the first word is the increment.
fn increase(
    alloc: Global,
    dialect: Dialect,
    value: &mut Value,
    words: &mut [Value],
) -> Result<(), Fault>
    ensures done { Leaves value.new (increased dialect value.old words.old) result }
    ensures same { OnErr result (value.new ≡ value.old) }
    ensures words { words.new ≡ words.old }
{
    match words {
        [] => Ok(()),
        [by, ..] => incr(alloc, value, by, dialect),
    }
}

/// Makes a text the command's new one, by the words behind the variable's name.
#[tactic(auto, unfolding(tcl_pages::specs::Updates::updated))]
pub(crate) fn change(
    alloc: Global,
    dialect: Dialect,
    page: UpdatePage,
    value: &mut Value,
    words: &mut [Value],
) -> Result<(), Fault>
    requires { IsTaken page (length words.old) }
    ensures done { Leaves value.new (updated dialect page value.old words.old) result }
    ensures same { OnErr result (value.new ≡ value.old) }
    ensures words { words.new ≡ words.old }
{
    match page {
        UpdatePage::Append => Ok(append(alloc, value, words)?),
        UpdatePage::Incr => increase(alloc, dialect, value, words),
        UpdatePage::Lappend => lappend(alloc, value, words),
        UpdatePage::Lset => lset(alloc, value, words, dialect),
        UpdatePage::DictAppend => dict_append(alloc, value, words),
        UpdatePage::DictIncr => dict_incr(alloc, value, words, dialect),
        UpdatePage::DictLappend => dict_lappend(alloc, value, words),
        UpdatePage::DictSet => dict_set(alloc, value, words),
        UpdatePage::DictUnset => dict_unset(alloc, value, words),
    }
}
