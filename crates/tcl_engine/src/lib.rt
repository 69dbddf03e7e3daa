//! The engine of the machine: commands by their pages over frames, command table and devices. What each form of contract says of a
//! command is carried over to what an engine owes.
#![tactic(auto)]

mod at_once;
mod calls;
mod channels;
mod control;
mod engine;
mod following;
mod frames;
mod host;
mod kept;
mod last;
mod lifts;
mod looking;
mod owed;
mod pages;
mod ready;
mod ready_pure;
mod rooms;
mod scopes;
mod stride;
mod undone;

pub use host::{Host, host_over};
pub use rooms::{Room, Rooms};
pub use undone::Undone;
