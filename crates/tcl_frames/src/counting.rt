//! How many frames stand, and which of them is active.
ghost use Rattle.std.specs.Prelude.{◌≡◌, ◌<◌, length};

use crate::frames::Frames;

impl Frames {
    /// The active frame.
    pub fn active(&self) -> usize
        ensures active { result ≡ self.now.active }
        ensures there { result < length self.now.frames }
    {
        self.stack.active()
    }

    /// How many frames stand.
    pub fn count(&self) -> usize
        ensures { result ≡ length self.now.frames }
    {
        self.stack.count()
    }
}
