//! Maps by name, with and without numbered places.
mod maps;
mod placed;
