//! The frames in which scripts are run.
ghost use Rattle.std.specs.Prelude.{◌≡◌, ℕ, IfOk, OnOk, OnErr};
ghost use Rattle.tcl_engine.specs.Undoing.{undone_shown};
ghost use Rattle.tcl_frames.specs.Levels.{level_of};
ghost use Rattle.tcl_meaning.specs.Effects.{At, entered};
ghost use Rattle.tcl_meaning.specs.State.{Commands, Channels};
ghost use Rattle.tcl_steps.specs.Views.{scope_of};
ghost use Rattle.tcl_steps.specs.Comes.{state_of};
ghost use Rattle.tcl_vm.specs.Standing.{undone_of, undo};
ghost use Rattle.tcl_vm.specs.Unwinding.{CanUndo};

use crate::undone::Undone;
use std::alloc::{AllocError, Global};
use tcl_frames::{Frames, Level};
use tcl_steps::Scope;

// A script in the frame of a level begins.
fn at_level(frames: &mut Frames, level: Level) -> Undone
    ensures undone { (cs : Commands) (channels : Channels) (units : ℕ) → undone_shown result ≡ undone_of (At (level_of level)) (state_of cs channels units frames.old) }
    ensures entered { (cs : Commands) (channels : Channels) (units : ℕ) → state_of cs channels units frames.new ≡ entered (At (level_of level)) (state_of cs channels units frames.old) }
    ensures can { (cs : Commands) (channels : Channels) (units : ℕ) → CanUndo (undone_shown result) (state_of cs channels units frames.new) }
{
    match frames.at_level(level) {
        Some(frame) => Undone::Back(frames.activate(frame)),
        None => Undone::Back(frames.active()),
    }
}

/// A script of this scope begins: what is undone when it has ended.
pub(crate) fn enter(alloc: Global, frames: &mut Frames, scope: Scope) -> Result<Undone, AllocError>
    ensures undone { (cs : Commands) (channels : Channels) (units : ℕ) → IfOk result (λ u. undone_shown u ≡ undone_of (scope_of scope) (state_of cs channels units frames.old)) }
    ensures entered { (cs : Commands) (channels : Channels) (units : ℕ) → OnOk result (state_of cs channels units frames.new ≡ entered (scope_of scope) (state_of cs channels units frames.old)) }
    ensures can { (cs : Commands) (channels : Channels) (units : ℕ) → IfOk result (λ u. CanUndo (undone_shown u) (state_of cs channels units frames.new)) }
    ensures same { OnErr result (frames.new ≡ frames.old) }
{
    match scope {
        Scope::Here => Ok(Undone::Nothing),
        Scope::Up(callers) => Ok(at_level(frames, Level::Up(callers))),
        Scope::At(number) => Ok(at_level(frames, Level::At(number))),
        Scope::Within(variables) => {
            let active = frames.active();
            let count = frames.count();
            frames.push_call(alloc, Box::into_inner(variables))?;
            Ok(Undone::Gone(active, count))
        }
    }
}

/// It has ended.
pub(crate) fn leave(frames: &mut Frames, undone: Undone)
    requires { (cs : Commands) (channels : Channels) (units : ℕ) → CanUndo (undone_shown undone) (state_of cs channels units frames.old) }
    ensures { (cs : Commands) (channels : Channels) (units : ℕ) → state_of cs channels units frames.new ≡ undo (undone_shown undone) (state_of cs channels units frames.old) }
{
    match undone {
        Undone::Nothing => {}
        Undone::Back(active) => {
            frames.activate(active);
        }
        Undone::Gone(active, _) => {
            frames.pop();
            frames.activate(active);
        }
    }
}
