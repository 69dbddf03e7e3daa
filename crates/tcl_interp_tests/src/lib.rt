//! The unit tests of an interpreter: scripts over devices in memory, as tclsh 8.6 runs them, and what a host asks.
#![tactic(auto)]

#[cfg(test)]
mod devices;
#[cfg(test)]
mod ends;
#[cfg(test)]
mod faults;
#[cfg(test)]
mod hosts;
#[cfg(test)]
mod large;
#[cfg(test)]
mod runs;
#[cfg(test)]
mod scripts;
#[cfg(test)]
mod setting;
