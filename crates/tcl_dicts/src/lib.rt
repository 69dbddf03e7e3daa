//! Commands on dictionaries: one function for each subcommand of dict(n), of the words behind its name. A word is a value, which
//! contracts see as its text: what a command answers is its definition in `tcl_pages`, and the words are left as they were.
#![tactic(auto)]

mod build;
mod look;
mod matching;
mod paths;
mod update;
mod words;

pub use build::{dict_create, dict_merge, dict_remove, dict_replace};
pub use look::{dict_exists, dict_get, dict_size};
pub use matching::{dict_keys, dict_values};
pub use paths::{dict_set, dict_unset};
pub use update::{dict_append, dict_incr, dict_lappend};
