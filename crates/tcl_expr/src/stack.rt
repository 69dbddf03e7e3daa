//! The parser's stack.

ghost use Rattle.std.specs.Prelude.{◌≡◌, ◌≤◌, ◌∷◌, [], IfOk, MatchOption, nat_lt, ◌+◌, ◌-◌, ◌<◌, IsTrue};
ghost use Rattle.tcl_words.specs.First.{most_levels};
ghost use Rattle.tcl_expr.specs.Machine as machine;
ghost use Rattle.tcl_expr.specs.View.{held_of, stack_of};

use crate::frame::Frame;
use std::alloc::{AllocError, Global};

/// The frames, and how many levels they have open.
#[derive(Drop)]
pub(crate) struct Stack<'a> {
    frames: Vec<Frame<'a>>,
    levels: u8,
    ghost counted: { levels ≡ machine.open_levels (stack_of frames.items) },
    ghost few: { levels ≤ most_levels },
}

impl<'a> Stack<'a> {
    pub(crate) fn new(alloc: Global) -> Stack<'a>
        ensures { stack_of result.frames.items ≡ [] }
    {
        Stack {
            frames: Vec::new(alloc),
            levels: 0,
        }
    }

    /// How many more levels may open.
    pub(crate) fn room(&self) -> u32
        ensures { result ≡ most_levels - machine.open_levels (stack_of self.now.frames.items) }
    {
        u32::from(200 - self.levels)
    }

    pub(crate) fn has_room(&self) -> bool
        ensures test { result ≡ nat_lt (machine.open_levels (stack_of self.now.frames.items)) most_levels }
        ensures room { IsTrue result → machine.open_levels (stack_of self.now.frames.items) < most_levels }
    {
        self.levels < 200
    }

    pub(crate) fn push(&mut self, frame: Frame<'a>) -> Result<(), AllocError>
        requires { machine.open_levels (stack_of self.old.frames.items) + machine.opens_of (held_of frame) ≤ most_levels }
        ensures levels { IfOk result (λ _. machine.open_levels (stack_of self.new.frames.items) ≡ machine.open_levels (stack_of self.old.frames.items) + machine.opens_of (held_of frame.entry)) }
        ensures frame { IfOk result (λ _. (stack_of self.new.frames.items) ≡ held_of frame.entry ∷ (stack_of self.old.frames.items)) }
    {
        let opens = frame.opens();
        self.frames.push(frame)?;
        self.levels += opens;
        Ok(())
    }

    pub(crate) fn pop(&mut self) -> Option<Frame<'a>>
        ensures frame { MatchOption result (((stack_of self.old.frames.items) ≡ []) × ((stack_of self.new.frames.items) ≡ [])) (λ f. (stack_of self.old.frames.items) ≡ held_of f ∷ (stack_of self.new.frames.items)) }
        ensures room { MatchOption result (machine.open_levels (stack_of self.new.frames.items) ≤ most_levels) (λ f. machine.open_levels (stack_of self.new.frames.items) + machine.opens_of (held_of f) ≤ most_levels) }
    {
        match self.frames.pop() {
            Some(frame) => {
                self.levels -= frame.opens();
                Some(frame)
            }
            None => None,
        }
    }
}
