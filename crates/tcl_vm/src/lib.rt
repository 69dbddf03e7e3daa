//! The machine that runs code: a code that runs, and those that wait for it. No script's depth is the machine's stack.
#![tactic(auto)]

mod engine;
pub mod laws;
mod machine;

pub use engine::{Engine, Progress, Stop};
pub use machine::{Paused, resume, run, start};
