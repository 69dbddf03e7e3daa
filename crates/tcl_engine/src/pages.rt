//! Commands over the command table.
ghost use Rattle.std.specs.Prelude.{◌≡◌, ℕ, false};
ghost use Rattle.tcl_chars.specs.declared.numbers.Dialect.{Dialect};
ghost use Rattle.tcl_engine.specs.Answered.{Answered};
ghost use Rattle.tcl_engine.specs.Kinds.{IsOverCommands};
ghost use Rattle.tcl_frames.specs.Standing.{Standing};
ghost use Rattle.tcl_meaning.specs.Pages.{page_asks};
ghost use Rattle.tcl_meaning.specs.State.{Channels};
ghost use Rattle.tcl_steps.specs.Comes.{state_of};
ghost use Rattle.tcl_vm.specs.Engines.{is_io};

use crate::lifts::done_in;
use std::alloc::Global;
use tcl_meaning::Page;
use tcl_procs::{proc_page, rename_page};
use tcl_steps::{Loop, Owes, Scope, Step};
use tcl_table::Table;
use tcl_values::Value;
use tcl_vm::Stop;

/// A command over the command table.
#[tactic(auto, unfolding(tcl_meaning::specs::Pages::page_asks))]
pub(crate) fn over_commands(
    alloc: Global,
    table: &mut Table,
    page: Page,
    words: &mut [Value],
) -> Result<Step<Scope, Owes, Loop>, Stop>
    requires { IsOverCommands page }
    ensures answered { (dialect : Dialect) (f : Standing) (channels : Channels) (units : ℕ) → Answered (page_asks dialect page words.old) (state_of table.old channels units f) result (state_of table.new channels units f) }
    ensures quiet { is_io result ≡ false }
{
    match page {
        Page::Proc => done_in(proc_page(alloc, table, words)),
        Page::Rename => done_in(rename_page(alloc, table, words)),
        _ => unreachable!(),
    }
}
