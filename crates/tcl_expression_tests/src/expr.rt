//! What the contracts can't say: that the definitions are the manual's, that memory is there, and how large texts fare.

mod depth;
mod faults;
mod large;
mod show;
mod texts;
mod trees;
