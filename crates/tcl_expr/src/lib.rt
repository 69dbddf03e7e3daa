//! Expressions: their tokens, their trees and their faults. expr(n).
//!
//! `parse_expr` reads a text as a tree, or finds its first fault. What a tree is stands in `specs/Grammar.antt`, the
//! table of faults in `specs/Faults.antt`, how a text is spelled by tokens in `specs/Spelling.antt`, and how they are read
//! from it in `specs/Tokens.antt`.
#![tactic(auto)]

mod fault;
mod frame;
pub mod laws;
mod moves;
mod operators;
mod parse;
mod runs;
mod stack;
mod state;
mod texts;
mod token;
mod tokens;
mod tree;

pub use fault::ExprSyntax;
pub use parse::parse_expr;
pub use token::{BinaryOp, Function, Leaf, UnaryOp};
pub use tree::Tree;
