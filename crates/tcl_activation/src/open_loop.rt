//! A loop whose body runs, as it stands on the stack.
ghost use Rattle.std.specs.Prelude.{◌≡◌, ◌≤◌, ◌+◌, ◌<◌, ◌^◌, [], ◌∷◌, drop, length, IfSome};
ghost use Rattle.tcl_activation.specs.Collecting.{CollectsIf};
ghost use Rattle.tcl_activation.specs.Dealing.{DealsIf};
ghost use Rattle.tcl_activation.specs.Saved.{loop_of};
ghost use Rattle.tcl_code.specs.Machine.{Texts};
ghost use Rattle.tcl_meaning.specs.Completions.{nothing};

use crate::loops::Open;
use crate::pile::Pile;
use crate::results::{Last, Results};
use crate::stack::Words;
use std::alloc::{AllocError, Global};
use std::marker::Model;
use tcl_frames::Frames;
use tcl_names::Sought;
use tcl_values::Value;
use tcl_vars::quick_set;

/// A loop whose body runs: where the code goes on after `break`, one further where the body ends; whether `continue`
/// passes it, or goes on there too; and what stands there then.
#[derive(Drop)]
pub struct OpenLoop {
    at: usize,
    passes: bool,
    texts: Pile<Value>,
    lists: Pile<Words>,
    results: Results,
    depth: u32,
}

impl Model for OpenLoop {
    ghost use Rattle.std.specs.Prelude.{◌+◌, ◌<◌, ◌^◌};
    ghost use Rattle.tcl_activation.specs.Saved.{loop_of};
    ghost use Rattle.tcl_code.specs.Machine.{Loop};

    ghost Value = { Loop };

    ghost view = { λ o. loop_of o.at o.passes o.texts o.lists o.results o.depth };

    ghost invariant = { λ o. o.at + 1 < 2 ^ 64 };
}

impl OpenLoop {
    /// One that has saved nothing yet.
    pub(crate) fn unused(alloc: Global) -> Result<OpenLoop, AllocError> {
        Ok(OpenLoop {
            at: 0,
            passes: false,
            texts: Pile::new(alloc),
            lists: Pile::new(alloc),
            results: Results::with_room(alloc, 0)?,
            depth: 0,
        })
    }

    /// Saves these. In their place comes what a body begins with.
    #[inline(always)]
    pub(crate) fn save(
        &mut self,
        at: usize,
        passes: bool,
        depth: u32,
        texts: &mut Pile<Value>,
        lists: &mut Pile<Words>,
        results: &mut Results,
    )
        requires { at + 1 < 2 ^ 64 }
        ensures saved { self.new ≡ loop_of at passes texts.old lists.old results.old depth }
        ensures texts { texts.new ≡ [] }
        ensures lists { lists.new ≡ [] }
        ensures results { results.new ≡ nothing ∷ [] }
    {
        self.at = at;
        self.passes = passes;
        self.depth = depth;
        texts.move_to(&mut self.texts);
        lists.move_to(&mut self.lists);
        results.move_to(&mut self.results);
    }

    /// What it goes on with.
    #[inline(always)]
    pub(crate) fn seen(&self) -> Open
        ensures at { result.at ≡ self.now.at }
        ensures passes { result.passes ≡ self.now.passes }
        ensures depth { result.depth ≡ self.now.depth }
        ensures place { result.at + 1 < 2 ^ 64 }
    {
        Open {
            at: self.at,
            passes: self.passes,
            depth: self.depth,
        }
    }

    /// Does `continue` pass it?
    pub(crate) fn passes(&self) -> bool
        ensures { result ≡ self.now.passes }
    {
        self.passes
    }

    /// Puts back what it has saved, and answers its place and its depth. What stood there instead is let go, all but its room.
    #[inline(always)]
    pub(crate) fn restore(
        &mut self,
        texts: &mut Pile<Value>,
        lists: &mut Pile<Words>,
        results: &mut Results,
    ) -> (usize, u32)
        ensures saved { self.old ≡ loop_of result.0 self.old.passes texts.new lists.new results.new result.1 }
        ensures place { result.0 + 1 < 2 ^ 64 }
    {
        self.texts.move_to(texts);
        self.lists.move_to(lists);
        self.results.move_to(results);
        (self.at, self.depth)
    }

    // The first word of the newest list that it has saved, if there is one.
    #[inline(always)]
    fn next_word(&self) -> Option<&Value>
        ensures { IfSome result (λ word. (rest : Texts) × (self.now.lists ≡ (word.now ∷ rest) ∷ drop 1 self.now.lists)) }
    {
        if self.lists.is_empty() {
            return None;
        }
        self.lists.newest().first()
    }

    /// The first word of the newest list that it has saved becomes a variable's, and the result that it has saved: tells whether that is done. Else all is
    /// as it was.
    #[inline(always)]
    pub(crate) fn deal(&mut self, alloc: Global, frames: &mut Frames, name: &Sought<'_>) -> bool
        ensures { DealsIf result name.now frames.old frames.new self.old self.new }
    {
        if self.results.is_empty() {
            return false;
        }
        let Some(word) = self.next_word() else {
            return false;
        };
        if !quick_set(alloc, frames, name, word) {
            return false;
        }
        let word = self.lists.newest_mut().take();
        self.results.replace(Last::of_value(word));
        true
    }

    /// The newest of these results is one more word of the list under the newest that it has saved, where there is one: tells whether that is done. Where
    /// memory is refused all is as it was.
    #[inline(always)]
    pub(crate) fn collect(&mut self, alloc: Global, results: &mut Results) -> bool
        requires { 1 ≤ length results.old }
        ensures { CollectsIf result results.old results.new self.old self.new }
    {
        if !self.lists.has_second() {
            return true;
        }
        self.lists.second_mut().collect(alloc, results)
    }
}
