//! A call that is made again where it was refused.

use std::alloc::{AllocError, Global};

/// Something that a call changes.
pub(crate) trait Changed {
    /// What is seen of it.
    fn shown(&self, alloc: Global) -> Result<String, AllocError>;

    /// The call.
    fn change(&mut self, alloc: Global) -> Result<(), AllocError>;
}

/// What is seen before the call of this name and after it. Where it was refused and has changed something, that is told in place.
pub(crate) fn twice<C: Changed>(
    alloc: Global,
    name: &str,
    object: &mut C,
) -> Result<String, AllocError> {
    let before = object.shown(alloc)?;
    if object.change(alloc).is_err() {
        let between = object.shown(alloc)?;
        if between.as_str() != before.as_str() {
            return format!(in alloc; "{name} was refused: {before} became {between}");
        }
        object.change(alloc)?;
    }
    let after = object.shown(alloc)?;
    format!(in alloc; "{name}: {before} becomes {after}")
}
