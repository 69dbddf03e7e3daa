//! Devices, and what a world reads and writes over them.
mod callers;
mod cuts;
mod devices;
mod input;
mod large;
mod output;
mod worn;
