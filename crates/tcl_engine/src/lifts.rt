//! What commands answer, as the machine wants it.
ghost use Rattle.std.specs.Prelude.{◌≡◌, ℕ, false, IfOk};
ghost use Rattle.tcl_channels.specs.Leaves.{is_io as failed};
ghost use Rattle.tcl_channels.specs.Works.{Works};
ghost use Rattle.tcl_steps.specs.Asked.{IsAsked, IsAskedOrExits};
ghost use Rattle.tcl_engine.specs.Answered.{Answered};
ghost use Rattle.tcl_frames.specs.Standing.{Standing};
ghost use Rattle.tcl_meaning.specs.Asking.{Asks};
ghost use Rattle.tcl_meaning.specs.Beginnings.{OutputsBegin};
ghost use Rattle.tcl_meaning.specs.State.{Commands, Channels, Store, State};
ghost use Rattle.tcl_steps.specs.Comes.{state_of};
ghost use Rattle.tcl_steps.specs.Ends.{DoesAsk, DoesIn};
ghost use Rattle.tcl_vm.specs.Engines.{is_io};
ghost use Rattle.tcl_vm.specs.Unwinding.{SameFrames};

use std::alloc::AllocError;
use tcl_steps::{Completion, Fault, Loop, Owes, Scope, Step};
use tcl_vm::Stop;

/// A command asks at once.
pub(crate) fn asked(
    step: Result<Step<Scope, Owes, Loop>, AllocError>,
) -> Result<Step<Scope, Owes, Loop>, Stop>
    ensures answered { (page : Asks) (s : State) → IsAsked step page → Answered page s result s }
    ensures quiet { is_io result ≡ false }
{
    Ok(step?)
}

/// A command over frames asks.
#[inline(always)]
pub(crate) fn asked_over(
    step: Result<Step<Scope, Owes, Loop>, AllocError>,
) -> Result<Step<Scope, Owes, Loop>, Stop>
    ensures told { (page : Asks) (f g : Standing) → DoesAsk page f step g → DoesAsk page f result g }
    ensures answered { (page : Asks) (f g : Standing) → DoesAsk page f step g → (cs : Commands) (channels : Channels) (units : ℕ) → Answered page (state_of cs channels units f) result (state_of cs channels units g) }
    ensures quiet { is_io result ≡ false }
{
    Ok(step?)
}

/// A command over frames and commands is done.
pub(crate) fn done_in(
    completion: Result<Completion, AllocError>,
) -> Result<Step<Scope, Owes, Loop>, Stop>
    ensures answered { (page : Asks) (s t : Store) → DoesIn page s completion t → (channels : Channels) (units : ℕ) → Answered page (record { store = s; channels = channels; units = units }) result (record { store = t; channels = channels; units = units }) }
    ensures quiet { is_io result ≡ false }
{
    Ok(Step::Done(completion?))
}

/// A command over channels is done.
pub(crate) fn worked(completion: Result<Completion, Fault>) -> Result<Step<Scope, Owes, Loop>, Stop>
    ensures answered { (page : Asks) (s t : State) → Works page s completion t → OutputsBegin s.channels t.channels → t.units ≡ s.units → IfOk completion (λ _. SameFrames s t) → Answered page s result t }
    ensures io { is_io result ≡ failed completion }
{
    Ok(Step::Done(completion?))
}

/// A command asks at once, or ends the run.
pub(crate) fn exited(
    step: Result<Step<Scope, Owes, Loop>, Fault>,
) -> Result<Step<Scope, Owes, Loop>, Stop>
    ensures answered { (page : Asks) (s : State) → IsAskedOrExits step page → Answered page s result s }
    ensures quiet { (page : Asks) → IsAskedOrExits step page → is_io result ≡ false }
{
    Ok(step?)
}
