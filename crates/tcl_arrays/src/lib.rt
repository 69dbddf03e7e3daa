//! Commands that look at the frames, and those that change arrays: array(n), info(n). What each answers is its definition in
//! `tcl_meaning`, over the frames as they stand; the words are those behind the command's name, and stay as they were.
#![tactic(auto)]

mod arrays;
mod changes;
mod choosing;
mod frames;
mod looking;

pub use arrays::{array_exists, array_get, array_names, array_size};
pub use changes::{array_set, array_unset};
pub use frames::{info_exists, info_level, info_vars};
pub use looking::seen;
