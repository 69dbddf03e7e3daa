//! The commands of channels: puts(n), gets(n), read(n), eof(n), flush(n).
#![tactic(auto)]

mod devices;
mod ends;
mod gets;
mod input;
mod names;
mod output;
mod words;

pub use devices::Devices;
pub use gets::gets_page;
pub use input::{eof_page, read_page};
pub use output::{flush_page, puts_page};
