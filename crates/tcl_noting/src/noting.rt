//! An engine that notes where an error leaves codes.
ghost use Rattle.std.specs.Prelude.{◌≡◌};
ghost use Rattle.tcl_noting.specs.Lent.{LentLeaves};
ghost use Rattle.tcl_noting.specs.Onward as onward;

use crate::follow::Follow;
use crate::notes::{Followed, Notes, Place};
use std::alloc::{AllocError, Global};
use std::cell::RefCell;
use tcl_meaning::Code;
use tcl_steps::{Completion, Step};
use tcl_values::Value;
use tcl_vm::{Engine, Progress, Stop};

/// An engine that is lent, and notes where an error leaves codes; they are forgotten where the error is caught. It is to a machine what
/// that engine is. `N` is always a cell of notes.
pub(crate) struct Noting<'engine, E: Follow, N: Drop = RefCell<Notes>> {
    pub(crate) engine: &'engine mut E,
    pub(crate) notes: N,
}

impl<'engine, E: Follow, N: Drop> Drop for Noting<'engine, E, N> {
    fn drop(self)
        ensures { self.exit.0.now ≡ self.entry.engine.now }
    {
        let Noting { engine: _, notes } = self;
        drop(notes);
    }
}

// Does it end what no loop and no procedure ends, or what becomes an error there?
fn is_bad(completion: &Completion) -> bool {
    !matches!(completion.code_now(), Code::Ok | Code::Return)
}

impl<'engine, E: Follow> Noting<'engine, E, RefCell<Notes>> {
    /// Over an engine that is lent, with no places.
    pub(crate) fn new(alloc: Global, engine: &'engine mut E) -> Noting<'engine, E, RefCell<Notes>>
        ensures { result.engine ≡ engine.entry }
    {
        Noting {
            engine,
            notes: RefCell::new(Notes::new(alloc)),
        }
    }

    // Notes where a code stands that an error leaves.
    fn note(&self, followed: &Followed<E::Activation>) {
        let at = E::place(&followed.activation);
        if let Ok(mut notes) = self.notes.try_borrow_mut() {
            notes.add(followed, at);
        }
    }

    // The same, where instructions have come to its end.
    fn note_end(
        &self,
        followed: &Followed<E::Activation>,
        progress: &Result<Progress<E::Scope, E::Owes, E::Loop>, Stop>,
    ) {
        if let Ok(Progress::Over(completion)) = progress {
            if is_bad(completion) {
                self.note(followed);
            }
        }
    }

    /// Takes the places.
    pub(crate) fn taken(&mut self, alloc: Global) -> Vec<Place>
        ensures { self.new.engine ≡ self.old.engine }
    {
        self.notes.get_mut().take(alloc)
    }

    // The code goes on: an error that was noted is caught.
    fn forget(&mut self)
        ensures { self.new.engine ≡ self.old.engine }
    {
        self.notes.get_mut().clear();
    }
}

impl<E: Follow> Engine for Noting<'_, E, RefCell<Notes>> {
    type Activation = Followed<E::Activation>;

    type Undone = E::Undone;

    type Scope = E::Scope;

    type Owes = E::Owes;

    type Loop = E::Loop;

    ghost dialect = { λ noting. E.dialect noting.engine.now };

    ghost views = { E.views };

    ghost shown = { λ noting. E.shown noting.engine.now };

    ghost leaves = { λ io old new. LentLeaves E.leaves io old.engine new.engine };

    fn step(
        &mut self,
        activation: &mut Followed<E::Activation>,
        paid: &mut u64,
    ) -> Result<Progress<E::Scope, E::Owes, E::Loop>, Stop> {
        self.forget();
        let progress = self.engine.step(&mut activation.activation, paid);
        self.note_end(activation, &progress);
        progress
    }

    fn depth(&self, activation: &Followed<E::Activation>) -> u64 {
        self.engine.depth(&activation.activation)
    }

    fn answer(
        &self,
        activation: &mut Followed<E::Activation>,
        completion: Completion,
    ) -> Result<Option<Completion>, AllocError> {
        let left = self.engine.answer(&mut activation.activation, completion)?;
        if let Some(completion) = &left {
            if is_bad(completion) {
                self.note(activation);
            }
        }
        Ok(left)
    }

    fn too_deep(&self) -> Result<Completion, AllocError> {
        self.engine.too_deep()
    }

    fn script(&mut self, text: Value, depth: u64) -> Result<Followed<E::Activation>, AllocError> {
        let kept = text.copy()?;
        let activation = self.engine.script(text, depth)?;
        Ok(Followed {
            activation,
            text: kept,
            is_script: true,
        })
    }

    fn expression(
        &mut self,
        text: Value,
        depth: u64,
    ) -> Result<Followed<E::Activation>, AllocError> {
        let kept = text.copy()?;
        let activation = self.engine.expression(text, depth)?;
        Ok(Followed {
            activation,
            text: kept,
            is_script: false,
        })
    }

    fn enter(&mut self, scope: E::Scope) -> Result<E::Undone, AllocError> {
        self.engine.enter(scope)
    }

    fn stay(&self) -> E::Undone {
        self.engine.stay()
    }

    fn undo(&mut self, undone: E::Undone, ended: Followed<E::Activation>) {
        self.engine.undo(undone, ended.activation);
    }

    fn owed(
        &mut self,
        owes: E::Owes,
        completion: Completion,
    ) -> Result<Step<E::Scope, E::Owes, E::Loop>, Stop> {
        if E::is_leaving(&owes) {
            self.notes.get_mut().mark_body();
        }
        self.engine.owed(owes, completion)
    }

    fn turned(&mut self, turn: E::Loop) -> Result<Step<E::Scope, E::Owes, E::Loop>, Stop> {
        self.engine.turned(turn)
    }

    fn spend(&mut self) -> bool {
        self.engine.spend()
    }

    ghost leaves_same = { λ noting. onward.leaves_same E.leaves E.leaves_same noting.engine };

    ghost leaves_then = { λ io a b c. onward.leaves_then E.leaves E.leaves_then io a.engine b.engine c.engine };

    ghost dialect_left = { λ io a b left. E.dialect_left io a.engine.now b.engine.now left.left };
}
