//! The unit tests of expressions: tcl_expr: what no contract can say.
#![tactic(auto)]

#[cfg(test)]
mod expr;
