//! Which variables there are: info(n).
ghost use Rattle.std.specs.Prelude.{◌≡◌, IfOk};
ghost use Rattle.std.specs.Str.{chars};
ghost use Rattle.tcl_meaning.specs.Arrays.{spot_named};
ghost use Rattle.tcl_meaning.specs.SeenPages.{exists_here, frame_names, is_there_at};
ghost use Rattle.tcl_meaning.specs.State.{Commands, active_frame};
ghost use Rattle.tcl_frames.specs.Standing.{store_of};

use crate::frames::{Frames, place_here, place_of};
use std::alloc::{AllocError, Global};
use tcl_names::NameMap;

impl Frames {
    /// Is there a variable or an element of a name? info(n), exists.
    pub fn exists(&self, name: &str) -> bool
        ensures { (cs : Commands) → result ≡ is_there_at (store_of cs self.now) (spot_named (store_of cs self.now) (chars name.now)) }
    {
        let at = place_of(&self.stack, name);
        self.variables.is_there(at)
    }

    /// Does a name of the active frame, which is not divided, stand for a variable or lead to one? info(n), vars.
    pub fn exists_here(&self, name: &str) -> bool
        ensures { (cs : Commands) → result ≡ exists_here (store_of cs self.now) (chars name.now) }
    {
        let at = place_here(&self.stack, name);
        self.variables.is_there(at)
    }

    /// The names of the active frame: of its variables, and of its links. info(n), vars.
    pub fn names(&self, alloc: Global) -> Result<NameMap<()>, AllocError>
        ensures { (cs : Commands) → IfOk result (λ names. names ≡ frame_names (active_frame (store_of cs self.now))) }
    {
        let mut names = NameMap::new(alloc);
        self.stack.add_links(alloc, &mut names)?;
        self.variables
            .add_names(alloc, self.stack.active(), &mut names)?;
        Ok(names)
    }
}
