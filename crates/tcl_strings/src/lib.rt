//! Commands on strings: one function for each, of the words behind its name. A word is a value, which contracts see as its
//! text: what a command answers is its definition in `tcl_pages`, and the words are left as they were.
#![tactic(auto)]

mod ascii;
mod cases;
mod characters;
mod classes;
mod directives;
mod fields;
mod formatting;
mod keys;
pub mod laws;
mod lists;
mod mapping;
mod page;
mod places;
mod search;
mod trim;

pub use cases::{string_repeat, string_reverse, string_tolower, string_toupper};
pub use classes::string_is;
pub use formatting::format;
pub use lists::{join, split};
pub use mapping::string_map;
pub use page::string_page;
pub use places::{string_index, string_length, string_range, string_replace};
pub use search::{string_compare, string_equal, string_first, string_last, string_match};
pub use tcl_glob::glob_match;
pub use trim::{string_trim, string_trimleft, string_trimright};
