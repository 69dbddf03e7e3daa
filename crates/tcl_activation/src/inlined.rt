//! Instructions of inlined commands, and of loops among them.
ghost use Rattle.std.specs.Prelude.{◌≡◌, ◌≤◌, ◌<◌, ◌+◌, ◌^◌, drop, length, IfSome, OnOk};
ghost use Rattle.tcl_activation.specs.Changing.{ChangesBy, changing};
ghost use Rattle.tcl_activation.specs.Loops.{Closes, opened};
ghost use Rattle.tcl_activation.specs.Moves.{Goes};
ghost use Rattle.tcl_code.specs.Instructions.{Become, Under};

use crate::stack::Stack;
use std::alloc::{AllocError, Global};
use tcl_code::Change;
use tcl_values::Value;

impl Stack {
    /// A text comes under the one on top.
    pub fn under(&mut self, text: Value) -> Result<(), AllocError>
        requires { 1 ≤ length self.old.texts }
        ensures { OnOk result (Goes (Under text) self.old self.new) }
    {
        let top = self.texts.pop();
        self.texts.push(text)?;
        self.texts.push(top)
    }

    /// A variable is changed by the text on top: its name comes under it. Both stay there for the change, whose completion
    /// takes the newest one's place.
    pub fn change(&mut self, change: Change, name: Value) -> Result<(), AllocError>
        requires texts { 1 ≤ length self.old.texts }
        requires results { 1 ≤ length self.old.results }
        ensures { OnOk result (ChangesBy change (changing change name) self.old self.new) }
    {
        let top = self.texts.pop();
        self.texts.push(name)?;
        self.texts.push(top)?;
        self.results.drop_newest();
        Ok(())
    }

    /// A script that stands in a command ends, and its completion is the command's.
    pub fn end_script(&mut self)
        requires results { 2 ≤ length self.old.results }
        requires depth { 1 ≤ self.old.depth }
        ensures { Goes Become self.old self.new }
    {
        let last = self.results.pop();
        self.results.replace(last);
        self.depth -= 1;
    }

    /// A loop's body begins, one deeper. It owns none of what stands there, which comes back when the loop goes on, at `at` or
    /// one further. Where `passes` is true, `continue` passes the loop.
    #[inline(always)]
    pub fn open(&mut self, alloc: Global, at: usize, passes: bool) -> Result<(), AllocError>
        requires place { at + 1 < 2 ^ 64 }
        requires depth { self.old.depth < 1000 }
        ensures { OnOk result (self.new ≡ opened at passes self.old) }
    {
        let depth = self.depth;
        self.loops.open(
            alloc,
            at,
            passes,
            depth,
            &mut self.texts,
            &mut self.lists,
            &mut self.results,
        )?;
        self.depth = depth + 1;
        Ok(())
    }

    /// Puts back what the innermost loop has saved, if there is a loop, and answers where it goes on.
    #[inline(always)]
    pub fn close(&mut self) -> Option<usize>
        ensures closes { Closes result self.old self.new }
        ensures place { IfSome result (λ at. at + 1 < 2 ^ 64) }
    {
        if self.loops.is_empty() {
            return None;
        }
        let (at, depth) = self
            .loops
            .close(&mut self.texts, &mut self.lists, &mut self.results);
        self.depth = depth;
        Some(at)
    }

    /// Closes the newest `count` loops, or all if there are no more.
    pub fn close_newest(&mut self, count: usize)
        ensures { self.new.loops ≡ drop count self.old.loops }
    {
        for _ in 0..count {
            self.close();
        }
    }
}
