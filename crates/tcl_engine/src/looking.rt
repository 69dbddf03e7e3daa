//! Commands that look at what scripts keep, and change nothing: info(n), array(n).
ghost use Rattle.std.specs.Prelude.{◌≡◌, not};
ghost use Rattle.tcl_arrays.specs.Completes.{looks_at_frames};
ghost use Rattle.tcl_frames.specs.Standing.{store_of};
ghost use Rattle.tcl_meaning.specs.VariablePages.{seen_page};
ghost use Rattle.tcl_steps.specs.Ends.{DoesIn};

use std::alloc::{AllocError, Global};
use tcl_arrays as arrays;
use tcl_frames::Frames;
use tcl_meaning::SeenPage;
use tcl_procs::seen_commands;
use tcl_steps::Completion;
use tcl_table::Table;
use tcl_values::Value;

// Does the command look at the command table?
fn looks_at_commands(page: SeenPage) -> bool
    ensures { result ≡ not (looks_at_frames page) }
{
    matches!(
        page,
        SeenPage::InfoArgs | SeenPage::InfoBody | SeenPage::InfoCommands | SeenPage::InfoProcs
    )
}

/// A command that looks at what scripts keep.
pub(crate) fn seen(
    alloc: Global,
    frames: &Frames,
    table: &Table,
    page: SeenPage,
    words: &mut [Value],
) -> Result<Completion, AllocError>
    ensures { DoesIn (seen_page page words.old) (store_of table.now frames.now) result (store_of table.now frames.now) }
{
    if looks_at_commands(page) {
        return seen_commands(alloc, table, page, words);
    }
    arrays::seen(alloc, frames, page, words)
}
