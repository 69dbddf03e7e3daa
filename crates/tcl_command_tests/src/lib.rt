//! The unit tests of code and of commands by their names: tcl_code, tcl_compile, tcl_table and tcl_pure: what no contract can say.
#![tactic(auto)]

#[cfg(test)]
mod code;
#[cfg(test)]
mod ensembles;
#[cfg(test)]
mod inlined;
#[cfg(test)]
mod pure;
#[cfg(test)]
mod table;
