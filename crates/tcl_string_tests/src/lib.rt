//! The unit tests of commands on strings: tcl_strings, and of patterns, tcl_glob: what no contract can say.
#![tactic(auto)]

#[cfg(test)]
mod patterns;
#[cfg(test)]
mod strings;
