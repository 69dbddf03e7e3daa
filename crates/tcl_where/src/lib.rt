//! Where an error of a script has come from: the lines of a file, and of the bodies of procedures.
#![tactic(auto)]

mod lines;
mod program;

pub use program::{is_file, refuse_words, tool};
