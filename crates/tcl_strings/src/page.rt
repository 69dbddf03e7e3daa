//! All commands on strings, by their pages of the manual.

ghost use Rattle.std.specs.Prelude.{◌≡◌};
ghost use Rattle.tcl_chars.specs.Answers.{Answers};
ghost use Rattle.tcl_pages.specs.StringPages as spec;

use crate::cases::{string_repeat, string_reverse, string_tolower, string_toupper};
use crate::classes::string_is;
use crate::formatting::format;
use crate::lists::{join, split};
use crate::mapping::string_map;
use crate::places::{string_index, string_length, string_range, string_replace};
use crate::search::{string_compare, string_equal, string_first, string_last, string_match};
use crate::trim::{string_trim, string_trimleft, string_trimright};
use std::alloc::Global;
use tcl_chars::{Dialect, Fault};
use tcl_pages::StringPage;
use tcl_values::Value;

/// What a command on strings answers, by the words behind its name.
///
/// # Errors
///
/// `Fault::Error` with the command's error, `Fault::Memory`.
#[tactic(auto, unfolding(tcl_pages::specs::StringPages::string_page))]
pub fn string_page(
    alloc: Global,
    page: StringPage,
    words: &mut [Value],
    dialect: Dialect,
) -> Result<Value, Fault>
    ensures answer { Answers (λ v. v) result (spec.string_page dialect page words.old) }
    ensures same { words.new ≡ words.old }
{
    match page {
        StringPage::Compare => string_compare(alloc, words),
        StringPage::Equal => string_equal(alloc, words),
        StringPage::First => string_first(alloc, words, dialect),
        StringPage::Format => format(alloc, words, dialect),
        StringPage::Index => string_index(alloc, words, dialect),
        StringPage::Is => string_is(alloc, words, dialect),
        StringPage::Join => join(alloc, words),
        StringPage::Last => string_last(alloc, words, dialect),
        StringPage::Length => string_length(alloc, words),
        StringPage::Map => string_map(alloc, words),
        StringPage::Match => string_match(alloc, words),
        StringPage::Range => string_range(alloc, words, dialect),
        StringPage::Repeat => string_repeat(alloc, words, dialect),
        StringPage::Replace => string_replace(alloc, words, dialect),
        StringPage::Reverse => string_reverse(alloc, words),
        StringPage::Split => split(alloc, words),
        StringPage::Tolower => string_tolower(alloc, words),
        StringPage::Toupper => string_toupper(alloc, words),
        StringPage::Trim => string_trim(alloc, words),
        StringPage::Trimleft => string_trimleft(alloc, words),
        StringPage::Trimright => string_trimright(alloc, words),
    }
}
