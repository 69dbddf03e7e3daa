//! Commands over channels.
ghost use Rattle.std.specs.Prelude.{ℕ};
ghost use Rattle.tcl_engine.specs.Answered.{Answered};
ghost use Rattle.tcl_engine.specs.Kinds.{IsOverChannels};
ghost use Rattle.tcl_meaning.specs.Pages.{page_asks};
ghost use Rattle.tcl_meaning.specs.State.{Commands};
ghost use Rattle.tcl_steps.specs.Comes.{state_of};
ghost use Rattle.tcl_vm.specs.Engines.{is_io};

use crate::lifts::worked;
use std::alloc::Global;
use tcl_channels::Devices;
use tcl_chars::Dialect;
use tcl_frames::Frames;
use tcl_meaning::Page;
use tcl_steps::{Loop, Owes, Scope, Step};
use tcl_values::Value;
use tcl_vm::Stop;

/// A command over channels.
#[tactic(auto, unfolding(tcl_meaning::specs::Pages::page_asks))]
pub(crate) fn over_channels<V: Devices>(
    alloc: Global,
    dialect: Dialect,
    frames: &mut Frames,
    devices: &mut V,
    page: Page,
    words: &mut [Value],
) -> Result<Step<Scope, Owes, Loop>, Stop>
    requires { IsOverChannels page }
    ensures answered { (cs : Commands) (units : ℕ) → Answered (page_asks dialect page words.old) (state_of cs (V.channels devices.old) units frames.old) result (state_of cs (V.channels devices.new) units frames.new) }
    ensures leaves { V.leaves (is_io result) devices.old devices.new }
{
    match page {
        Page::Puts => worked(devices.puts(alloc, words)),
        Page::Gets => worked(devices.gets(alloc, frames, words)),
        Page::Read => worked(devices.read(alloc, dialect, words)),
        Page::Eof => worked(devices.eof(alloc, words)),
        Page::Flush => worked(devices.flush(alloc, words)),
        _ => unreachable!(),
    }
}
