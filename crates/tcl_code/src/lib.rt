//! Code for scripts: instructions, and what a machine does with them.
//!
//! - [`Instr`]: an instruction, in eight bytes. A text that it has stands in a table of the code.
//! - [`CodeBuilder`]: a list of instructions that grows. `finish` makes it a [`Code`], unless it isn't valid.
//! - [`Code`]: valid by its type. On every way from the start each instruction finds what it needs and leads inside, all ways to
//!   a place agree there, and each command that is called has been paid for.
#![tactic(auto)]

mod builder;
mod code;
mod front;
mod inlined;
mod instr;
pub mod laws;
mod notes;
mod numbers;
mod rare;
mod recent;
mod search;
mod shape;
mod texts;

pub use builder::{CodeBuilder, CodeFault};
pub use code::Code;
pub use inlined::{Change, Inlined};
pub use instr::{Instr, Preference, TextInstr};
pub use shape::Shape;
