//! Commands that are functions of their words, and commands with subcommands:
//!
//! - the commands whose answer their words alone decide, as one call: those on strings, lists and dictionaries, and
//!   `info complete`; and those that are asked for most, where their words are kept as what they need;
//! - which page a subcommand's name means at array(n), dict(n), info(n) and string(n), and what is said where there is none.
#![tactic(auto)]

mod answers;
mod dicts;
mod info;
mod lists;
mod messages;
mod page;
mod quick;
mod tables;

pub use answers::pure_done;
pub use messages::{subcommand_usage, unknown_subcommand};
pub use page::pure_page;
pub use quick::{is_worth_taking, quick_element, quick_page};
pub use tables::{subcommand, subcommand_near};
