//! The command table: what the names of commands stand for.
#![tactic(auto)]

mod built_ins;
mod command;
mod frequent;
mod places;
mod table;

pub use command::{Command, Formal, Meaning, Procedure};
pub use frequent::Frequent;
pub use table::{Table, TableFault};
