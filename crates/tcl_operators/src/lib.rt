//! Operators and functions of expressions, on values: expr(n), mathfunc(n).
#![tactic(auto)]

mod comparisons;
mod functions;
mod known;
mod lists;
mod numbers;
mod operators;

pub use functions::apply;
pub use known::{of_numbers, of_same_text, of_texts, unary_of_number};
pub use numbers::truth_value;
pub use operators::{binary, final_value, power, truth, unary};
