//! Patterns: string(n), string match; what the commands that name elements by a pattern ask.
#![tactic(auto)]

mod glob;
mod seek;

pub use glob::glob_match;
