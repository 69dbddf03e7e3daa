//! Sets of names.
ghost use Rattle.std.specs.Prelude.{◌≡◌, OnOk};
ghost use Rattle.tcl_frames.specs.NameSets.{with_names};
ghost use Rattle.tcl_meaning.specs.SeenPages.{names_of};

use std::alloc::{AllocError, Global};
use tcl_names::NameMap;

/// Puts the names of a map into a set of names.
pub(crate) fn add_names<V>(
    alloc: Global,
    names: &mut NameMap<()>,
    map: &NameMap<V>,
) -> Result<(), AllocError>
    ensures { OnOk result (names.new ≡ with_names names.old (names_of map.now)) }
{
    for (name, _) in map.iter() {
        names.insert(alloc, name.as_str(), ())?;
    }
    Ok(())
}
