//! The unit tests of texts: tcl_chars, tcl_names, tcl_list and tcl_words: what no contract can say.
#![tactic(auto)]

#[cfg(test)]
mod answers;
#[cfg(test)]
mod chars;
#[cfg(test)]
mod list;
#[cfg(test)]
mod names;
#[cfg(test)]
mod words;
