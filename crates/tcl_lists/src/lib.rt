//! Commands on lists: one function for each, of the words behind its name. A word is a value, which contracts see as its
//! text: what a command answers is its definition in `tcl_pages`, and the words are left as they were. Those with `taking` in their
//! names take the words, which nobody may need any more.
#![tactic(auto)]

mod index;
mod joined;
mod message;
mod pattern;
mod range;
mod repeat;
mod search;
mod sort;
mod whole;
mod words;

pub use index::{is_index_list, lindex};
pub use joined::concat;
pub use range::{linsert, linsert_taking, lrange, lrange_taking, lreplace, lreplace_taking};
pub use repeat::lrepeat;
pub use search::lsearch;
pub use sort::lsort;
pub use whole::{list, llength, lreverse};
