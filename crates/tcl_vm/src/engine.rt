//! What a machine runs over: codes, pages, and what scripts keep.

ghost use Rattle.std.specs.Prelude.{◌≡◌, ◌≤◌, Bool, false, OnOk, OnErr, IfOk};
ghost use Rattle.tcl_chars.specs.declared.numbers.Dialect.{Dialect};
ghost use Rattle.tcl_meaning.specs.Asking.{questions_owed, questions};
ghost use Rattle.tcl_meaning.specs.Completions.{too_deep};
ghost use Rattle.tcl_meaning.specs.Control.{turned};
ghost use Rattle.tcl_meaning.specs.Effects.{does, entered};
ghost use Rattle.tcl_meaning.specs.Pages.{owed};
ghost use Rattle.tcl_meaning.specs.Script.{most_depth};
ghost use Rattle.tcl_meaning.specs.State.{State};
ghost use Rattle.tcl_code.specs.Means.{Means, MeansExpr};
ghost use Rattle.tcl_vm.specs.Engines.{Views, completion_of, step_of, Answers, Strides, position, BeginsAs, LandsSo, Spent, is_io, stop_by};
ghost use Rattle.tcl_vm.specs.Fitting.{FitsHere};
ghost use Rattle.tcl_vm.specs.Standing.{Nothing, undone_of, undo};
ghost use Rattle.tcl_vm.specs.Turns.{Onward};
ghost use Rattle.tcl_vm.specs.Unwinding.{CanUndo, SameFrames};
ghost use Rattle.tcl_vm.specs.declared.engine.Stop.TheVariants as stop;

use std::alloc::{AllocError, AllocFailed};
use tcl_steps::{Completion, Fault, Step};
use tcl_values::Value;

/// Why a run has no completion.
#[derive(Clone, Copy, Debug, PartialEq, Eq)]
pub enum Stop {
    /// A unit was wanting.
    Budget,
    /// The script has ended the run, with this status: exit(n).
    Exit(u8),
    /// A growth was refused.
    Memory,
    /// A device failed.
    Io,
}

impl From<AllocError> for Stop {
    ghost from_gives = { λ _ s. s ≡ stop.Memory };

    fn from(_refused: AllocError) -> Stop {
        Stop::Memory
    }
}

impl<T: Drop> From<AllocFailed<T>> for Stop {
    ghost from_gives = { λ _ s. s ≡ stop.Memory };

    fn from(_refused: AllocFailed<T>) -> Stop {
        Stop::Memory
    }
}

impl From<Fault> for Stop {
    ghost from_gives = { λ f s. s ≡ stop_by f };

    fn from(fault: Fault) -> Stop {
        match fault {
            Fault::Exit(status) => Stop::Exit(status),
            Fault::Memory => Stop::Memory,
            Fault::Io => Stop::Io,
        }
    }
}

/// What instructions have come to.
#[derive(Drop)]
pub enum Progress<S, O, L> {
    /// A command was called, and its page asks for this.
    Asks(Step<S, O, L>),
    /// The code has ended.
    Over(Completion),
    /// A unit is wanting, and the code stands where it goes on.
    Unpaid,
}

/// What a machine runs over: codes, pages, and what scripts keep.
pub trait Engine {
    /// A code that runs, and where it stands.
    type Activation: Drop;
    /// What is undone when a script has ended.
    type Undone: Drop;
    /// The frame in which a script is run.
    type Scope: Drop;
    /// What a page has still to do when what it asked for has ended.
    type Owes: Drop;
    /// A loop before its next turn.
    type Loop: Drop;

    /// Which texts are numbers.
    ghost dialect: { Self → Dialect };

    ghost views: { Views Self.Activation Self.Undone Self.Scope Self.Owes Self.Loop };

    /// What the definition sees.
    ghost shown: { Self → State };

    /// What calls leave of what the definition doesn't see, as the devices; in the last of them a device failed or not.
    ghost leaves: { Bool → Self → Self → Type 0 };

    /// Instructions, and the commands that they call, until a command asks for something, the code has ended, or a unit is wanting.
    /// The commands that units pay for on the way are counted until they are called.
    fn step(
        &mut self,
        activation: &mut Self::Activation,
        paid: &mut u64,
    ) -> Result<Progress<Self::Scope, Self::Owes, Self::Loop>, Stop>
        requires { FitsHere (views.running activation.old) paid.old }
        ensures makes { Strides (dialect self.old) views result (position (views.running activation.old) paid.old (shown self.old)) (position (views.running activation.new) paid.new (shown self.new)) }
        ensures frames { IfOk result (λ _. SameFrames (shown self.old) (shown self.new)) }
        ensures leaves { leaves (is_io result) self.old self.new };

    /// In how many scripts the code's script stands, itself among them.
    fn depth(&self, activation: &Self::Activation) -> u64
        ensures { result ≡ (views.running activation.now).spot.depth };

    /// A command that was called has ended so. The code goes on behind it, or at a loop, or ends so.
    fn answer(
        &self,
        activation: &mut Self::Activation,
        completion: Completion,
    ) -> Result<Option<Completion>, AllocError>
        ensures { IfOk result (λ left. LandsSo left (views.running activation.old) (views.running activation.new) (completion_of completion)) };

    /// The error of a script that would stand too deep.
    fn too_deep(&self) -> Result<Completion, AllocError>
        ensures { IfOk result (λ c. completion_of c ≡ too_deep) };

    /// The code of a script, at its beginning.
    fn script(&mut self, text: Value, depth: u64) -> Result<Self::Activation, AllocError>
        requires { depth ≤ most_depth }
        ensures begins { IfOk result (λ a. BeginsAs (Means (dialect self.old)) text depth (views.running a)) }
        ensures same { shown self.new ≡ shown self.old }
        ensures leaves { leaves false self.old self.new };

    /// The code of an expression, at its beginning.
    fn expression(&mut self, text: Value, depth: u64) -> Result<Self::Activation, AllocError>
        requires { depth ≤ most_depth }
        ensures begins { IfOk result (λ a. BeginsAs (MeansExpr (dialect self.old)) text depth (views.running a)) }
        ensures same { shown self.new ≡ shown self.old }
        ensures leaves { leaves false self.old self.new };

    /// A script of this scope begins.
    fn enter(&mut self, scope: Self::Scope) -> Result<Self::Undone, AllocError>
        ensures undone { IfOk result (λ u. views.undone u ≡ undone_of (views.scope scope) (shown self.old)) }
        ensures entered { OnOk result (shown self.new ≡ entered (views.scope scope) (shown self.old)) }
        ensures can { IfOk result (λ u. CanUndo (views.undone u) (shown self.new)) }
        ensures same { OnErr result (shown self.new ≡ shown self.old) }
        ensures leaves { leaves false self.old self.new };

    /// Where nothing is to be undone.
    fn stay(&self) -> Self::Undone
        ensures { views.undone result ≡ Nothing };

    /// A code has ended: what stood there is let go, or serves the next one.
    fn undo(&mut self, undone: Self::Undone, ended: Self::Activation)
        requires { CanUndo (views.undone undone) (shown self.old) }
        ensures undone { shown self.new ≡ undo (views.undone undone) (shown self.old) }
        ensures leaves { leaves false self.old self.new };

    /// What a page does that owes this, when what it asked for has ended so.
    fn owed(
        &mut self,
        owes: Self::Owes,
        completion: Completion,
    ) -> Result<Step<Self::Scope, Self::Owes, Self::Loop>, Stop>
        ensures answers { Answers views (does (owed (dialect self.old) (views.owes owes) (completion_of completion)) (shown self.old)) result (shown self.new) }
        ensures fewer { IfOk result (λ step. questions (step_of views step) ≤ questions_owed (views.owes owes)) }
        ensures onward { Onward (shown self.old) (shown self.new) }
        ensures free { IfOk result (λ _. (shown self.new).units ≡ (shown self.old).units) }
        ensures frames { IfOk result (λ _. SameFrames (shown self.old) (shown self.new)) }
        ensures leaves { leaves (is_io result) self.old self.new };

    /// What a loop does at its next turn.
    fn turned(
        &mut self,
        turn: Self::Loop,
    ) -> Result<Step<Self::Scope, Self::Owes, Self::Loop>, Stop>
        ensures answers { Answers views (does (turned (views.turns turn)) (shown self.old)) result (shown self.new) }
        ensures onward { Onward (shown self.old) (shown self.new) }
        ensures free { IfOk result (λ _. (shown self.new).units ≡ (shown self.old).units) }
        ensures frames { IfOk result (λ _. SameFrames (shown self.old) (shown self.new)) }
        ensures leaves { leaves (is_io result) self.old self.new };

    /// A unit is spent, if there is one.
    fn spend(&mut self) -> bool
        ensures spent { Spent result (shown self.old) (shown self.new) }
        ensures leaves { leaves false self.old self.new };

    /// A call that does nothing leaves all.
    ghost leaves_same: { (e : Self) → leaves false e e };

    /// What calls leave in which no device failed, and one after them, they leave together.
    ghost leaves_then: { (io : Bool) (a b c : Self) → leaves false a b → leaves io b c → leaves io a c };

    /// No call changes which texts are numbers.
    ghost dialect_left: { (io : Bool) (a b : Self) → leaves io a b → dialect b ≡ dialect a };
}
