//! The frames of a script: its variables by their names, arrays, levels, and links between variables.
#![tactic(auto)]

mod all_variables;
mod calls;
mod counting;
mod earlier;
mod edit;
mod editing;
mod elements;
mod fault;
mod frames;
mod globals;
mod lending;
mod level;
mod linking;
mod looking;
mod name;
mod name_set;
mod place;
mod stack;
mod unwinding;
mod variable;
mod variables;

pub use edit::Edit;
pub use fault::{LinkFault, VarFault};
pub use frames::Frames;
pub use globals::Seen;
pub use level::Level;
pub use name::{is_element, is_global, without_colons};
pub use variable::Variable;
