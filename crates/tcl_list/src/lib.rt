//! Lists: texts that are read as elements, and elements that are written as a text.
#![tactic(auto)]

mod braces;
mod faults;
pub mod laws;
mod reading;
mod writing;

pub use reading::split;
pub use writing::{append_element, write};
