//! All subcommands of dict(n) that name no variable.

ghost use Rattle.std.specs.Prelude.{◌≡◌};
ghost use Rattle.tcl_chars.specs.Answers.{Answers};
ghost use Rattle.tcl_pages.specs.DictPages as spec;

use std::alloc::Global;
use tcl_chars::Fault;
use tcl_dicts::{
    dict_create, dict_exists, dict_get, dict_keys, dict_merge, dict_remove, dict_replace,
    dict_size, dict_values,
};
use tcl_pages::DictPage;
use tcl_values::Value;

/// What a subcommand of dict(n) answers, by the words behind its name.
///
/// # Errors
///
/// `Fault::Error` with the command's error, `Fault::Memory`.
#[tactic(auto, unfolding(tcl_pages::specs::DictPages::dict_page))]
pub(crate) fn dict_page(alloc: Global, page: DictPage, words: &mut [Value]) -> Result<Value, Fault>
    ensures answer { Answers (λ v. v) result (spec.dict_page page words.old) }
    ensures same { words.new ≡ words.old }
{
    match page {
        DictPage::Create => dict_create(alloc, words),
        DictPage::Exists => dict_exists(alloc, words),
        DictPage::Get => dict_get(alloc, words),
        DictPage::Keys => dict_keys(alloc, words),
        DictPage::Merge => dict_merge(alloc, words),
        DictPage::Remove => dict_remove(alloc, words),
        DictPage::Replace => dict_replace(alloc, words),
        DictPage::Size => dict_size(alloc, words),
        DictPage::Values => dict_values(alloc, words),
    }
}
