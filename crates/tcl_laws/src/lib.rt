//! Laws of the definitions of other crates: a written list as a command, by its words and by the meaning of scripts; indices; the options
//! of `return`. There is no code here but laws, each the contract of a function that does nothing.
#![tactic(auto)]

pub mod laws;
