//! How the last commands of open scripts have ended.
ghost use Rattle.std.specs.Prelude.{◌≡◌, ◌≤◌, [], ◌∷◌, drop, false, length, IfOk, OnOk, OnErr};
ghost use Rattle.tcl_activation.specs.Collecting.{newest_result};
ghost use Rattle.tcl_meaning.specs.Completions.{nothing, normal};

use crate::pile::grow;
use std::alloc::{AllocError, Global};
use std::marker::Model;
use std::mem;
use tcl_steps::Completion;
use tcl_values::Value;

/// How the last command of a script has ended. Contracts see a completion: where no command has ended yet, the one that says
/// nothing.
#[derive(Drop)]
pub struct Last {
    kept: Kept,
}

/// What is kept of it.
#[derive(Drop)]
pub(crate) enum Kept {
    /// No command has ended yet.
    Nothing,
    /// It was ok, with this value and no options.
    Value(Value),
    /// It has ended so.
    Completion(Completion),
}

impl Model for Last {
    ghost use Rattle.tcl_meaning.specs.Completions.{Completion};

    ghost Value = { Completion };

    ghost use Rattle.tcl_activation.specs.Results.{last_of};

    ghost view = { λ last. last_of last.kept };
}

impl Last {
    /// No command has ended yet.
    #[inline(always)]
    pub fn nothing() -> Last
        ensures { result ≡ nothing }
    {
        Last {
            kept: Kept::Nothing,
        }
    }

    /// It was ok, with this value.
    #[inline(always)]
    pub fn of_value(value: Value) -> Last
        ensures { result ≡ normal value }
    {
        Last {
            kept: Kept::Value(value),
        }
    }

    /// It has ended so.
    #[inline(always)]
    pub fn ended(completion: Completion) -> Last
        ensures { result ≡ completion }
    {
        Last {
            kept: Kept::Completion(completion),
        }
    }

    // Lets it go: no command has ended yet.
    #[inline(always)]
    fn forget(&mut self)
        ensures { self.new ≡ nothing }
    {
        self.change(Last::nothing());
    }

    // Another one in its place. Where it has nothing to give back, it isn't moved.
    #[inline(always)]
    fn change(&mut self, last: Last)
        ensures { self.new ≡ last }
    {
        if self.is_plain() {
            mem::forget(mem::replace(self, last));
            return;
        }
        drop(mem::replace(self, last));
    }

    // Has it nothing to give back when it is dropped?
    #[inline(always)]
    fn is_plain(&self) -> bool {
        match &self.kept {
            Kept::Nothing => true,
            Kept::Value(value) => value.number().is_some(),
            Kept::Completion(_) => false,
        }
    }

    /// The completion.
    pub fn into_completion(self, alloc: Global) -> Result<Completion, AllocError>
        ensures { IfOk result (λ c. c ≡ self) }
    {
        match self.kept {
            Kept::Nothing => Completion::nothing(alloc),
            Kept::Value(value) => Ok(Completion::normal(alloc, value)),
            Kept::Completion(completion) => Ok(completion),
        }
    }

    // Its result is taken, and no command has ended yet. Where memory is refused it stays.
    #[inline(always)]
    fn take_text(&mut self, alloc: Global) -> Result<Value, AllocError>
        ensures text { IfOk result (λ v. v ≡ self.old.result) }
        ensures same { OnErr result (self.new ≡ self.old) }
    {
        match mem::replace(&mut self.kept, Kept::Nothing) {
            Kept::Nothing => Ok(Completion::nothing(alloc)?.into_result()),
            Kept::Value(value) => Ok(value),
            Kept::Completion(completion) => Ok(completion.into_result()),
        }
    }

    /// Its result.
    pub fn into_result(self, alloc: Global) -> Result<Value, AllocError>
        ensures { IfOk result (λ v. v ≡ self.result) }
    {
        match self.kept {
            Kept::Nothing => Ok(Completion::nothing(alloc)?.into_result()),
            Kept::Value(value) => Ok(value),
            Kept::Completion(completion) => Ok(completion.into_result()),
        }
    }
}

// Drops how a command has ended. What gives nothing back is let go without a call.
#[inline(always)]
fn discard(last: Last) {
    if last.is_plain() {
        mem::forget(last);
        return;
    }
    drop(last);
}

/// How the last commands of the scripts that are open have ended. Contracts see a list, the newest first. There is always room for
/// one.
#[derive(Drop)]
pub struct Results {
    items: Vec<Last>,
}

impl Model for Results {
    ghost use Rattle.std.specs.Prelude.{List, ◌<◌, reverse, vec_capacity};
    ghost use Rattle.tcl_meaning.specs.Completions.{Completion};

    ghost Value = { List Completion };

    ghost view = { λ results. reverse results.items.items };

    ghost invariant = { λ results. 0 < vec_capacity results.items };
}

impl Results {
    /// The results of one script, which has run no command yet. There is room for the scripts of `brackets` brackets.
    pub fn with_room(alloc: Global, brackets: u32) -> Result<Results, AllocError>
        ensures { IfOk result (λ results. results ≡ nothing ∷ []) }
    {
        let mut items = Vec::with_capacity(alloc, 1 + brackets as usize)?;
        items.push_reserved(Last::nothing());
        Ok(Results { items })
    }

    // All are let go but that of one script, which has run no command yet.
    #[inline(always)]
    pub(crate) fn restart(&mut self)
        ensures { self.new ≡ nothing ∷ [] }
    {
        if self.items.len() == 1 {
            self.items[0].forget();
            return;
        }
        self.begin_anew();
    }

    // The same, however many there are. It stands apart, since nearly always there is one.
    #[inline(never)]
    fn begin_anew(&mut self)
        ensures { self.new ≡ nothing ∷ [] }
    {
        self.items.clear();
        self.items.push_reserved(Last::nothing());
    }

    /// All come in place of those that stand in another. What is left is that of one script, which has run no command yet.
    #[inline(always)]
    pub fn move_to(&mut self, other: &mut Results)
        ensures moved { other.new ≡ self.old }
        ensures left { self.new ≡ nothing ∷ [] }
    {
        mem::swap(&mut self.items, &mut other.items);
        self.restart();
    }

    /// Adds the result of one more script.
    #[inline(always)]
    pub fn push(&mut self, last: Last) -> Result<(), AllocError>
        ensures { OnOk result (self.new ≡ last ∷ self.old) }
    {
        if self.items.len() >= self.items.capacity() {
            grow(&mut self.items)?;
        }
        self.items.push_reserved(last);
        Ok(())
    }

    /// Another one in place of the newest.
    #[inline(always)]
    pub fn replace(&mut self, last: Last)
        requires { 1 ≤ length self.old }
        ensures { self.new ≡ last ∷ drop 1 self.old }
    {
        let newest = self.items.len() - 1;
        self.items[newest].change(last);
    }

    /// The newest is let go.
    #[inline(always)]
    pub fn drop_newest(&mut self)
        requires { 1 ≤ length self.old }
        ensures { self.new ≡ drop 1 self.old }
    {
        discard(self.pop());
    }

    /// Has no script begun?
    #[inline(always)]
    pub(crate) fn is_empty(&self) -> bool
        ensures { result ≡ false → 1 ≤ length self.now }
    {
        self.items.is_empty()
    }

    /// The newest is let go: its script's next command begins.
    #[inline(always)]
    pub fn forget_newest(&mut self)
        requires { 1 ≤ length self.old }
        ensures { self.new ≡ nothing ∷ drop 1 self.old }
    {
        let newest = self.items.len() - 1;
        self.items[newest].forget();
    }

    /// The text of the newest is taken. Where memory is refused it stays.
    #[inline(always)]
    pub(crate) fn take_text(&mut self, alloc: Global) -> Result<Value, AllocError>
        requires { 1 ≤ length self.old }
        ensures text { IfOk result (λ v. v ≡ newest_result self.old) }
        ensures same { OnErr result (self.new ≡ self.old) }
    {
        let newest = self.items.len() - 1;
        self.items[newest].take_text(alloc)
    }

    /// The newest is taken away.
    #[inline(always)]
    pub fn pop(&mut self) -> Last
        requires { 1 ≤ length self.old }
        ensures { self.old ≡ result ∷ self.new }
    {
        match self.items.pop() {
            Some(last) => last,
            None => unreachable!(),
        }
    }
}
