//! Instructions that put texts onto the stack.
ghost use Rattle.std.specs.Prelude.{◌≡◌, ◌≤◌, [], length, IfOk, OnOk};
ghost use Rattle.std.specs.Bool.{OnTrue};
ghost use Rattle.std.specs.Str.{chars};
ghost use Rattle.std.specs.String.{string_bytes};
ghost use Rattle.tcl_activation.specs.Moves.{Goes};
ghost use Rattle.tcl_activation.specs.Reads.{Reads};
ghost use Rattle.tcl_code.specs.Instructions.{Push, Read, ReadElement, Join};
ghost use Rattle.tcl_meaning.specs.Substitution.{spelled_element};

use crate::progress::Progress;
use crate::stack::Stack;
use crate::variables::{Unread, Variables};
use std::alloc::{AllocError, Global};
use tcl_chars::push_text;
use tcl_steps::Completion;
use tcl_values::Value;

// Is a text known to be empty?
fn is_nothing(text: &Value) -> bool
    ensures { OnTrue result (text.now ≡ []) }
{
    match text.shown() {
        Some(shown) => shown.is_empty(),
        None => false,
    }
}

// The name of an array's element, as a script writes it.
fn spelled_element(alloc: Global, name: &Value, index: &Value) -> Result<String, AllocError>
    ensures { IfOk result (λ s. chars (string_bytes s) ≡ spelled_element name.now index.now) }
{
    let mut whole = String::new(alloc);
    name.write_to(alloc, &mut whole)?;
    push_text(&mut whole, "(")?;
    index.write_to(alloc, &mut whole)?;
    push_text(&mut whole, ")")?;
    Ok(whole)
}

impl Stack {
    /// A text comes onto the stack.
    pub fn push(&mut self, text: Value) -> Result<(), AllocError>
        ensures { OnOk result (Goes (Push text) self.old self.new) }
    {
        self.texts.push(text)
    }

    /// The text of the variable of a name.
    #[inline(always)]
    fn read_named<F: Variables>(
        &mut self,
        alloc: Global,
        frames: &F,
        name: &str,
    ) -> Result<Progress, AllocError>
        ensures { Reads (F.store frames.now) (Read (chars name.now)) self.old self.new result }
    {
        match frames.read(alloc, name) {
            Ok(text) => {
                self.texts.push(text)?;
                Ok(Progress::Moved)
            }
            Err(Unread::Refused(refusal)) => Ok(Progress::Over(Completion::cant_read(
                alloc, name, refusal,
            )?)),
            Err(Unread::Memory) => Err(AllocError),
        }
    }

    /// The text of a variable.
    pub fn read<F: Variables>(
        &mut self,
        alloc: Global,
        frames: &F,
        name: &Value,
    ) -> Result<Progress, AllocError>
        ensures { Reads (F.store frames.now) (Read name.now) self.old self.new result }
    {
        if let Some(shown) = name.shown() {
            return self.read_named(alloc, frames, shown);
        }
        let text = name.copy()?.text(alloc)?;
        self.read_named(alloc, frames, text.as_str())
    }

    /// The text of an array's element, whose index is on top.
    pub fn read_element<F: Variables>(
        &mut self,
        alloc: Global,
        frames: &F,
        name: &Value,
    ) -> Result<Progress, AllocError>
        requires { 1 ≤ length self.old.texts }
        ensures { Reads (F.store frames.now) (ReadElement name.now) self.old self.new result }
    {
        let index = self.texts.pop();
        let full = spelled_element(alloc, name, &index)?;
        self.read_named(alloc, frames, full.as_str())
    }

    /// Joins the top `count` texts into one. One text alone stays as it is kept, and so does one with an empty text behind it.
    #[tactic(auto, using(crate::proofs::Joining::one_goes, crate::proofs::Joining::nothing_goes, crate::proofs::Joining::all_go))]
    pub fn join(&mut self, alloc: Global, count: u32) -> Result<(), AllocError>
        requires { count ≤ length self.old.texts }
        ensures { OnOk result (Goes (Join count) self.old self.new) }
    {
        if count == 1 {
            return Ok(());
        }
        if count == 2 && is_nothing(self.texts.newest()) {
            self.texts.drop_newest();
            return Ok(());
        }
        let count = count as usize;
        let text = Value::joined(alloc, self.texts.uppermost(count))?;
        self.texts.truncate(count);
        self.texts.push(text)
    }
}
