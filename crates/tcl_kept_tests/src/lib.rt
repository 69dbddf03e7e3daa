//! The unit tests of what values keep beside their texts, and of what is made of it: what no contract of tcl_values can say.
#![tactic(auto)]

#[cfg(test)]
mod answers;
#[cfg(test)]
mod beside;
#[cfg(test)]
mod dictionaries;
#[cfg(test)]
mod lists;
#[cfg(test)]
mod preferred;
#[cfg(test)]
mod texts;
