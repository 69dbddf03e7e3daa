//! What the rules say of given texts.
mod commands;
mod depth;
mod large;
mod places;
mod shown;
