//! The program over devices: its words, its sessions, its statuses and its lines.
#![tactic(auto)]

mod end;
mod input;
mod lines;
mod newlines;
mod noted;
mod program;
mod run;
mod tell;
mod words;

pub use end::SessionEnd;
pub use noted::{run_file_noted, say_line};
pub use program::{refuse_words, tool};
pub use run::{session, session_with};
pub use words::file_word;
