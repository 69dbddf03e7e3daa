//! From scripts and expressions to code, and codes kept by their texts, so that a loop's body isn't compiled at each turn.
//!
//! - [`compile_script`]: the code of a script, which ends exactly as the script does.
//! - [`compile_expr`]: the code of an expression, which ends exactly as its value does.
//! - [`Codes`]: what is kept. `script` and `expression` answer the code of a text, kept or new.
#![tactic(auto)]

mod beside;
mod change;
mod codes;
mod compile;
mod context;
mod each;
mod inlining;
mod kept;
mod leaving;
mod literals;
mod long;
mod pages;
mod reading;
mod script;
mod skips;
mod switching;
mod tree;

pub use codes::Codes;
pub use compile::{compile_expr, compile_script};
