//! One code that runs: where it stands, and what each instruction does there.
#![tactic(auto)]

mod activation;
mod bodies;
mod brackets;
mod calls;
mod changing;
mod choosing;
mod comparing;
mod composing;
mod dealing;
mod expressions;
mod guards;
mod inlined;
mod laps;
mod loops;
mod open_loop;
mod operands;
mod pace;
mod pile;
mod progress;
mod quick;
mod quick_list;
mod quick_pairs;
mod quick_step;
mod ready;
mod results;
mod rounds;
mod stack;
mod steps;
mod texts;
mod together;
mod variables;
mod ways;

pub use activation::Activation;
pub use guards::stands;
pub use loops::Loops;
pub use open_loop::OpenLoop;
pub use pace::Pace;
pub use pile::Pile;
pub use progress::Progress;
pub use results::{Last, Results};
pub use stack::{Stack, Words};
pub use variables::{Unread, Variables};
pub use ways::{Way, spend};
