//! The unit tests of the program that no run of it can make: what no contract can say.
#![tactic(auto)]

#[cfg(test)]
mod breaking;
#[cfg(test)]
mod session;
#[cfg(test)]
mod words;
