//! From a text and a place in its code to a command, and to a line.
#![tactic(auto)]

mod commands;
mod events;
mod finding;
mod standing;

pub use commands::Command;
pub use finding::{find_lone, find_within, line_of, place_behind};
pub use standing::command_at;
