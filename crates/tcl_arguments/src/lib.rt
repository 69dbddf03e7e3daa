//! The words behind a command's name, read as texts, and what is said of another count of them than the command takes. A
//! reading leaves the words as they were.
#![tactic(auto)]

mod message;
mod numbers;
mod places;
mod texts;

pub use message::usage;
pub use numbers::number_of;
pub use places::{behind, index_of, index_of_word, position_at};
pub use texts::{
    all_texts, one_or_two_texts, one_text, text_at, three_or_four_texts, three_texts,
    two_or_three_texts, two_texts, up_to_one_text,
};
