//! The unit tests of values, and of commands on lists and dictionaries: tcl_values, tcl_lists and tcl_dicts: what no contract can say.
#![tactic(auto)]

#[cfg(test)]
mod answers;
#[cfg(test)]
mod dicts;
#[cfg(test)]
mod elements;
#[cfg(test)]
mod lists;
#[cfg(test)]
mod values;
