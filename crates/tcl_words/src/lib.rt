//! The words and commands of a Tcl text: Tcl(n), rules 1 to 12.
#![tactic(auto)]

mod blanks;
mod braces;
mod command;
mod complete;
mod fault;
mod front;
pub mod laws;
mod moves;
mod nesting;
mod operand;
mod stretch;
mod waiting;
mod word;

pub use command::{parse_command, parse_first};
pub use complete::is_complete;
pub use fault::Syntax;
pub use operand::{begins_operand, parse_operand};
pub use waiting::{Waiting, at_beginning, is_complete_behind};
pub use word::{Form, Operand, Parsed, Piece, Span, Word};
