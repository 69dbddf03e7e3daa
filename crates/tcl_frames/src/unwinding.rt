//! What is left of frames when a run is broken off.
ghost use Rattle.std.specs.Prelude.{◌≡◌, length};
ghost use Rattle.tcl_frames.specs.Unwound.{unwound};

use crate::frames::Frames;

impl Frames {
    /// Drops all frames but the global one, and makes that the active one.
    pub fn unwind(&mut self)
        ensures { self.new ≡ unwound self.old }
    {
        let _active = self.active();
        while self.count() > 1 {
            self.pop();
        }
        self.activate(0);
    }
}
