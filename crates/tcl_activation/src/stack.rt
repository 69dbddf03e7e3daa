//! What stands where a code runs.
ghost use Rattle.std.specs.Prelude.{◌≡◌, [], ◌∷◌, ◌++◌, ◌≤◌, ◌<◌, ◌+◌, Some, true, false, drop, length, IfOk, IfSome, OnOk};
ghost use Rattle.tcl_activation.specs.Collecting.{CollectsWord};
ghost use Rattle.tcl_chars.specs.Answers.{Answers};
ghost use Rattle.tcl_code.specs.Machine.{taken};
ghost use Rattle.tcl_meaning.specs.Completions.{nothing};
ghost use Rattle.tcl_values.specs.Lists.{behind};

use crate::loops::Loops;
use crate::pile::{Pile, grow};
use crate::results::Results;
use std::alloc::{AllocError, Global};
use std::marker::Model;
use std::mem;
use tcl_chars::Fault;
use tcl_values::Value;

/// Words that are gathered for a command, or to be taken one after the other. Contracts see those that weren't taken.
#[derive(Drop)]
pub struct Words {
    items: Vec<Value>,
    // How many of them were taken.
    taken: usize,
}

impl Model for Words {
    ghost use Rattle.std.specs.Prelude.{◌≤◌, List, drop, length, ℕ};

    ghost Value = { List (List ℕ) };

    ghost view = { λ w. drop w.taken w.items.items };

    ghost invariant = { λ w. w.taken ≤ length w.items.items };
}

impl Words {
    /// No words yet.
    pub fn new(alloc: Global) -> Words
        ensures { result ≡ [] }
    {
        Words {
            items: Vec::new(alloc),
            taken: 0,
        }
    }

    /// These words.
    pub fn of(words: Vec<Value>) -> Words
        ensures { result ≡ words.items }
    {
        Words {
            items: words,
            taken: 0,
        }
    }

    /// Is there no word?
    #[inline(always)]
    pub fn is_empty(&self) -> bool
        ensures is { result ≡ true → self.now ≡ [] }
        ensures other { result ≡ false → 1 ≤ length self.now }
    {
        self.taken == self.items.len()
    }

    /// One more word.
    pub fn push(&mut self, word: Value) -> Result<(), AllocError>
        ensures { OnOk result (self.new ≡ self.old ++ word ∷ []) }
    {
        self.items.push(word)?;
        Ok(())
    }

    /// The newest of these results is one more word, and is let go there: tells whether that is done. Where memory is refused all is as it was.
    #[inline(always)]
    pub(crate) fn collect(&mut self, alloc: Global, results: &mut Results) -> bool
        requires { 1 ≤ length results.old }
        ensures { CollectsWord result results.old results.new self.old self.new }
    {
        if self.items.len() >= self.items.capacity() {
            let Ok(()) = grow(&mut self.items) else {
                return false;
            };
        }
        let Ok(text) = results.take_text(alloc) else {
            return false;
        };
        self.items.push_reserved(text);
        true
    }

    /// The words, and behind them all elements of a list.
    ///
    /// # Errors
    ///
    /// `Fault::Error` with the list's fault, `Fault::Memory`.
    pub fn with_list(self, alloc: Global, list: &mut Value) -> Result<Words, Fault>
        ensures { Answers (λ words. words) result (behind self list.old) }
    {
        let mut items = self.items;
        list.list_behind(alloc, &mut items)?;
        Ok(Words {
            items,
            taken: self.taken,
        })
    }

    /// The first word is taken away; where there is none, an empty text stands for it.
    #[inline(always)]
    pub fn take_first(&mut self, alloc: Global) -> Result<Value, AllocError>
        ensures some { IfOk result (λ word. 1 ≤ length self.old → self.old ≡ word ∷ self.new) }
        ensures none { IfOk result (λ word. self.old ≡ [] → (word ≡ []) × (self.new ≡ [])) }
    {
        if self.is_empty() {
            let text = Value::of_str(alloc, "")?;
            return Ok(text);
        }
        Ok(self.take())
    }

    /// The first word, if there is one.
    #[inline(always)]
    pub(crate) fn first(&self) -> Option<&Value>
        ensures { IfSome result (λ word. self.now ≡ word.now ∷ drop 1 self.now) }
    {
        if self.is_empty() {
            return None;
        }
        Some(&self.items[self.taken])
    }

    /// The first word is taken away.
    #[inline(always)]
    pub(crate) fn take(&mut self) -> Value
        requires { 1 ≤ length self.old }
        ensures { self.old ≡ result ∷ self.new }
    {
        let taken = self.taken;
        self.taken = taken + 1;
        mem::replace(&mut self.items[taken], Value::of_int(0))
    }

    /// The words.
    pub fn into_words(self) -> Vec<Value>
        ensures { result.items ≡ self }
    {
        let mut words = self.items;
        if self.taken > 0 {
            let left = words.len() - self.taken;
            words.rotate_left(self.taken);
            words.truncate(left);
        }
        words
    }
}

/// What stands where a code runs: texts, lists of words and how the last commands of the scripts that are open have ended, in the
/// innermost loop's body; the loops whose bodies run; and in how many scripts it stands.
#[derive(Drop)]
pub struct Stack {
    pub texts: Pile<Value>,
    pub lists: Pile<Words>,
    pub results: Results,
    pub loops: Loops,
    pub depth: u32,
}

impl Stack {
    /// What a code begins with, with room for `height` texts.
    pub(crate) fn begin(&mut self, height: u32, depth: u32) -> Result<(), AllocError>
        ensures texts { OnOk result (self.new.texts ≡ []) }
        ensures lists { OnOk result (self.new.lists ≡ []) }
        ensures results { OnOk result (self.new.results ≡ nothing ∷ []) }
        ensures loops { OnOk result (self.new.loops ≡ []) }
        ensures depth { OnOk result (self.new.depth ≡ depth) }
    {
        self.texts.clear();
        self.texts.provide(height)?;
        self.lists.clear();
        self.results.restart();
        self.loops.close_all();
        self.depth = depth;
        Ok(())
    }

    /// A loop's body begins anew, one deeper than the loop stands: how its last command has ended is let go.
    #[inline(always)]
    pub(crate) fn begin_turn(&mut self, depth: u32)
        requires { depth < 1000 }
        ensures { self.new ≡ record self.old { results = nothing ∷ []; depth = depth + 1 } }
    {
        self.results.restart();
        self.depth = depth + 1;
    }

    /// Is nothing there but how last commands have ended?
    pub(crate) fn is_empty(&self) -> bool {
        self.texts.is_empty() && self.lists.is_empty() && self.loops.is_empty()
    }
}

/// Takes the top `count` texts away and answers them, the oldest first.
#[tactic(auto, using(crate::proofs::Lifting::taken_lifted))]
pub(crate) fn lifted(texts: &mut Pile<Value>, count: u32) -> Result<Vec<Value>, AllocError>
    requires { count ≤ length texts.old }
    ensures { IfOk result (λ v. taken count [] texts.old ≡ Some (v.items, texts.new)) }
{
    texts.lift(count as usize)
}
