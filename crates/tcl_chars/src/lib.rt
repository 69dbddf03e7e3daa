//! What the characters of a script stand for: character classes, backslash escapes, number and truth texts, and
//! whole-number arithmetic. Beside them stand the few primitives by which every parser of this workspace reads a text.
#![tactic(auto)]

mod arithmetic;
mod classes;
mod escapes;
mod fault;
mod indices;
pub mod laws;
mod messages;
mod numbers;
mod texts;
mod truths;

pub use arithmetic::{Arith, Op, UnOp, binary, unary};
pub use classes::{is_blank, is_list_space, is_name_char, is_word_space};
pub use escapes::backslash;
pub use fault::{Fault, ReadFault};
pub use indices::{Index, Position, clamp, place_of, read_index};
pub use messages::{about, expect_number, expect_position, expect_truth, message};
pub use numbers::{
    Decimal, Dialect, Whole, number_text, push_number, read_decimal, read_whole, skip_space, trim,
    trim_end,
};
pub use texts::{
    before, begins, compare, is_text, place, push, push_text, split_first, split_last, tail,
};
pub use truths::{Truth, read_truth};
