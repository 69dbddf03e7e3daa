//! Laws of the definitions: each is the contract of a function that does nothing.

ghost use Rattle.tcl_code.specs.Parts.{FitsIsValid};

/// A code that fits from nothing to a result is valid.
pub fn fits_is_valid()
    ensures { FitsIsValid }
{}
