//! Answers from the language's manual.
mod arithmetic;
mod indices;
mod numbers;
mod sentences;
mod texts;
