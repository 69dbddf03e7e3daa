//! The unit tests of devices and channels: tcl_chan: what no contract can say.
#![tactic(auto)]

#[cfg(test)]
mod answers;
#[cfg(test)]
mod chan;
