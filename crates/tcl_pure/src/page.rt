//! All commands whose answer their words alone decide.

ghost use Rattle.std.specs.Prelude.{◌≡◌};
ghost use Rattle.tcl_chars.specs.Answers.{Answers};
ghost use Rattle.tcl_meaning.specs.Pure.{pure};

use crate::dicts::dict_page;
use crate::info::info_complete;
use crate::lists::{list_page, list_page_taking};
use std::alloc::Global;
use tcl_chars::{Dialect, Fault};
use tcl_pages::PurePage;
use tcl_strings::string_page;
use tcl_values::Value;

/// What a command answers, by the words behind its name: string(n), list(n), dict(n), `info complete` of info(n), and their like.
///
/// # Errors
///
/// `Fault::Error` with the command's error, `Fault::Memory`.
#[tactic(auto, unfolding(tcl_meaning::specs::Pure::pure))]
pub fn pure_page(
    alloc: Global,
    dialect: Dialect,
    page: PurePage,
    words: &mut [Value],
) -> Result<Value, Fault>
    ensures answer { Answers (λ v. v) result (pure dialect page words.old) }
    ensures same { words.new ≡ words.old }
{
    match page {
        PurePage::List(page) => list_page(alloc, dialect, page, words),
        PurePage::String(page) => string_page(alloc, page, words, dialect),
        PurePage::Dict(page) => dict_page(alloc, page, words),
        PurePage::InfoComplete => info_complete(alloc, words),
    }
}

/// The same, of words that nobody needs any more: a list that nobody else holds is changed in place.
///
/// # Errors
///
/// As of `pure_page`.
#[tactic(auto, unfolding(tcl_meaning::specs::Pure::pure))]
pub(crate) fn pure_page_taking(
    alloc: Global,
    dialect: Dialect,
    page: PurePage,
    words: &mut [Value],
) -> Result<Value, Fault>
    ensures { Answers (λ v. v) result (pure dialect page words.old) }
{
    match page {
        PurePage::List(page) => list_page_taking(alloc, dialect, page, words),
        page => pure_page(alloc, dialect, page, words),
    }
}
