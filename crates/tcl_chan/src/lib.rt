//! The channels of a script: the devices that its input comes from and that its outputs go to, and the text that is
//! read and written over them.
#![tactic(auto)]

mod characters;
pub mod device;
pub mod fault;
pub mod faulty;
mod held;
pub mod memory;
pub mod pieces;
pub mod reading;
pub mod standard;
pub mod world;
