//! Commands that read and change variables: set(n), unset(n), lassign(n), append(n) and its like. What each comes to is its page in
//! `tcl_meaning/specs/VariablePages`, over the frames as they stand; the words are those behind the name of the command. And the
//! parts that commands are made of: one variable is read, given a text, or taken away.
#![tactic(auto)]

mod assigning;
mod beginning;
mod catching;
mod changing;
mod counts;
mod elements;
mod first;
mod given;
mod number;
mod path;
mod quick;
mod quick_assigning;
mod quick_updating;
mod replacing;
mod setting;
mod text;
mod unsetting;
mod updating;
mod words;

pub use assigning::lassign;
pub use catching::after_catch;
pub use quick::{quick_incr, quick_set};
pub use quick_assigning::quick_lassign;
pub use quick_updating::{quick_update, quick_update_of};
pub use setting::set;
pub use unsetting::unset;
pub use updating::update;
pub use words::sought_in;
