//! Commands over frames.
ghost use Rattle.tcl_code.specs.Caught.{change_page};
ghost use Rattle.tcl_engine.specs.Kinds.{IsOverFrames};
ghost use Rattle.tcl_frames.specs.Standing.{Standing};
ghost use Rattle.tcl_meaning.specs.Asking.{Asks};
ghost use Rattle.tcl_meaning.specs.Pages.{page_asks};
ghost use Rattle.tcl_steps.specs.Ends.{Does, DoesAsk};

use std::alloc::{AllocError, Global};
use tcl_arrays::{array_set, array_unset};
use tcl_chars::Dialect;
use tcl_code::Change;
use tcl_frames::Frames;
use tcl_meaning::Page;
use tcl_pages::UpdatePage;
use tcl_procs::{global_page, uplevel_page, upvar_page};
use tcl_steps::{Completion, Loop, Owes, Scope, Step};
use tcl_values::Value;
use tcl_vars::{lassign, set, unset, update};

/// A command is done: it asks for nothing more.
#[inline(always)]
pub(crate) fn done(
    completion: Result<Completion, AllocError>,
) -> Result<Step<Scope, Owes, Loop>, AllocError>
    ensures { (page : Asks) (f g : Standing) → Does page f completion g → DoesAsk page f result g }
{
    Ok(Step::Done(completion?))
}

/// A command over frames.
#[tactic(auto, unfolding(tcl_meaning::specs::Pages::page_asks))]
pub(crate) fn over_frames(
    alloc: Global,
    dialect: Dialect,
    frames: &mut Frames,
    page: Page,
    words: &mut [Value],
) -> Result<Step<Scope, Owes, Loop>, AllocError>
    requires { IsOverFrames page }
    ensures { DoesAsk (page_asks dialect page words.old) frames.old result frames.new }
{
    match page {
        Page::Update(page) => done(update(alloc, dialect, frames, page, words)),
        Page::Set => done(set(alloc, frames, words)),
        Page::Unset => done(unset(alloc, frames, words)),
        Page::Lassign => done(lassign(alloc, frames, words)),
        Page::ArraySet => done(array_set(alloc, frames, words)),
        Page::ArrayUnset => done(array_unset(alloc, frames, words)),
        Page::Uplevel => uplevel_page(alloc, frames, words),
        Page::Upvar => done(upvar_page(alloc, frames, words)),
        Page::Global => done(global_page(alloc, frames, words)),
        _ => unreachable!(),
    }
}

/// A command that changes a variable.
pub(crate) fn change(
    alloc: Global,
    dialect: Dialect,
    frames: &mut Frames,
    change: Change,
    words: &mut [Value],
) -> Result<Completion, AllocError>
    ensures { Does (change_page dialect change words.old) frames.old result frames.new }
{
    match change {
        Change::Set => set(alloc, frames, words),
        Change::Incr => update(alloc, dialect, frames, UpdatePage::Incr, words),
    }
}
