//! A run of a script that notes where an error leaves codes.
#![tactic(auto)]

mod follow;
mod notes;
mod noting;
mod run;

pub use follow::Follow;
pub use notes::Place;
pub use run::run_noted;
