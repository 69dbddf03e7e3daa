//! A run of a script: the machine over its engine.
#![tactic(auto)]

mod scripts;

pub use scripts::{resume, run, run_noted, start};
pub use tcl_noting::Place;
