//! All commands on lists, by their pages of the manual.

ghost use Rattle.std.specs.Prelude.{◌≡◌};
ghost use Rattle.tcl_chars.specs.Answers.{Answers};
ghost use Rattle.tcl_pages.specs.ListPages as spec;

use std::alloc::Global;
use tcl_chars::{Dialect, Fault};
use tcl_lists::{
    concat, lindex, linsert, linsert_taking, list, llength, lrange, lrange_taking, lrepeat,
    lreplace, lreplace_taking, lreverse, lsearch, lsort,
};
use tcl_pages::ListPage;
use tcl_values::Value;

/// What a command on lists answers, by the words behind its name.
///
/// # Errors
///
/// `Fault::Error` with the command's error, `Fault::Memory`.
#[tactic(auto, unfolding(tcl_pages::specs::ListPages::list_page))]
pub(crate) fn list_page(
    alloc: Global,
    dialect: Dialect,
    page: ListPage,
    words: &mut [Value],
) -> Result<Value, Fault>
    ensures answer { Answers (λ v. v) result (spec.list_page dialect page words.old) }
    ensures same { words.new ≡ words.old }
{
    match page {
        ListPage::Concat => Ok(concat(alloc, words)?),
        ListPage::Lindex => lindex(alloc, words, dialect),
        ListPage::Linsert => linsert(alloc, words, dialect),
        ListPage::List => Ok(list(alloc, words)?),
        ListPage::Llength => llength(alloc, words),
        ListPage::Lrange => lrange(alloc, words, dialect),
        ListPage::Lrepeat => lrepeat(alloc, words, dialect),
        ListPage::Lreplace => lreplace(alloc, words, dialect),
        ListPage::Lreverse => lreverse(alloc, words),
        ListPage::Lsearch => lsearch(alloc, words),
        ListPage::Lsort => lsort(alloc, words, dialect),
    }
}

/// The same, of words that nobody needs any more: a list that nobody else holds is changed in place.
///
/// # Errors
///
/// As of `list_page`.
#[tactic(auto, unfolding(tcl_pages::specs::ListPages::list_page))]
pub(crate) fn list_page_taking(
    alloc: Global,
    dialect: Dialect,
    page: ListPage,
    words: &mut [Value],
) -> Result<Value, Fault>
    ensures { Answers (λ v. v) result (spec.list_page dialect page words.old) }
{
    match page {
        ListPage::Linsert => linsert_taking(alloc, words, dialect),
        ListPage::Lrange => lrange_taking(alloc, words, dialect),
        ListPage::Lreplace => lreplace_taking(alloc, words, dialect),
        page => list_page(alloc, dialect, page, words),
    }
}
