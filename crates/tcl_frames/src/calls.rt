//! Frames that are called and left, and the levels of frames.
ghost use Rattle.std.specs.Prelude.{◌≡◌, ℕ, ◌<◌, ◌≤◌, ◌^◌, length, None, IfSome, OnOk, OnErr};
ghost use Rattle.tcl_meaning.specs.Frames.{frame_of_level, up, at};
ghost use Rattle.tcl_meaning.specs.State.{Commands, active_frame, with_active, with_call};
ghost use Rattle.tcl_frames.specs.Levels.{level_of};
ghost use Rattle.tcl_frames.specs.Standing.{store_of, left};

use crate::frames::Frames;
use crate::level::Level;
use crate::variable::Variable;
use std::alloc::{AllocError, Global};
use tcl_names::PlacedNames;

impl Frames {
    /// The level of the active frame: info(n).
    pub fn level(&self) -> usize
        ensures { (cs : Commands) → result ≡ (active_frame (store_of cs self.now)).level }
    {
        self.stack.level()
    }

    /// The frame that a level means for the active one: uplevel(n).
    pub fn at_level(&self, level: Level) -> Option<usize>
        ensures found { result ≡ frame_of_level self.now.frames self.now.active (level_of level) }
        ensures there { IfSome result (λ i. i < length self.now.frames) }
    {
        self.stack.frame_of(level)
    }

    /// No level is as large as 2^63: uplevel(n).
    pub fn levels_fit(&self)
        ensures up { (n : ℕ) → 2 ^ 63 ≤ n → frame_of_level self.now.frames self.now.active (up n) ≡ None }
        ensures at { (n : ℕ) → 2 ^ 63 ≤ n → frame_of_level self.now.frames self.now.active (at n) ≡ None }
    {
        self.stack.levels_fit();
    }

    /// Makes another frame the active one, and answers which one was: uplevel(n).
    pub fn activate(&mut self, frame: usize) -> usize
        requires { frame < length self.old.frames }
        ensures active { (cs : Commands) → store_of cs self.new ≡ with_active frame (store_of cs self.old) }
        ensures before { result ≡ self.old.active }
        ensures there { result < length self.old.frames }
    {
        self.stack.activate(frame)
    }

    /// Adds a frame of these variables that the active one calls, and makes it the active one: proc(n).
    pub fn push_call(
        &mut self,
        alloc: Global,
        variables: PlacedNames<Variable>,
    ) -> Result<(), AllocError>
        ensures done { (cs : Commands) → OnOk result (store_of cs self.new ≡ with_call variables (store_of cs self.old)) }
        ensures same { OnErr result (self.new ≡ self.old) }
    {
        self.variables.push(variables)?;
        match self.stack.push(alloc) {
            Ok(()) => Ok(()),
            Err(refused) => {
                self.variables.pop();
                Err(refused)
            }
        }
    }

    /// Drops the last frame, and makes its caller the active one: proc(n).
    pub fn pop(&mut self)
        requires { 1 < length self.old.frames }
        ensures { self.new ≡ left self.old }
    {
        self.stack.pop();
        self.variables.pop();
    }
}
