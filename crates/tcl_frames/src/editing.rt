//! Arrays whose elements are changed: array(n).
ghost use Rattle.std.specs.Prelude.{◌≡◌, Ok, IfErr, OnOk, OnErr};
ghost use Rattle.std.specs.Str.{chars};
ghost use Rattle.tcl_meaning.specs.State.{Commands};
ghost use Rattle.tcl_frames.specs.Edits.{edit_change};
ghost use Rattle.tcl_frames.specs.Refusals.{Refuses};
ghost use Rattle.tcl_frames.specs.Standing.{store_of, applied};

use crate::edit::Edit;
use crate::fault::VarFault;
use crate::frames::{Frames, place_of};
use std::alloc::Global;

impl Frames {
    /// Changes the elements of an array, which is made where it is missing: array(n). The array is not copied.
    ///
    /// # Errors
    ///
    /// `VarFault::Refused` where the name is no array's, `VarFault::Memory` where a growth was refused; the frames are then as they
    /// were.
    pub fn edit(&mut self, alloc: Global, name: &str, edit: Edit<'_>) -> Result<(), VarFault>
        ensures done { (cs : Commands) → OnOk result (applied (edit_change (store_of cs self.old) (chars name.now) edit.entry) (store_of cs self.old) ≡ Ok (store_of cs self.new)) }
        ensures refused { (cs : Commands) → IfErr result (Refuses (edit_change (store_of cs self.old) (chars name.now) edit.entry)) }
        ensures same { OnErr result (self.new ≡ self.old) }
    {
        let at = place_of(&self.stack, name);
        self.variables.edit(alloc, at, edit)
    }
}
