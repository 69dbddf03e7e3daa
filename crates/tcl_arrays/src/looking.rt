//! The commands that look at frames, as pages.
ghost use Rattle.std.specs.Prelude.{◌≡◌, true};
ghost use Rattle.tcl_arrays.specs.Completes.{Completes, looks_at_frames};
ghost use Rattle.tcl_chars.specs.Answers.{Answers};
ghost use Rattle.tcl_frames.specs.Standing.{store_of};
ghost use Rattle.tcl_meaning.specs.SeenPages.{seen_answer};
ghost use Rattle.tcl_meaning.specs.State.{Commands};
ghost use Rattle.tcl_meaning.specs.VariablePages.{seen_page};
ghost use Rattle.tcl_steps.specs.Ends.{Does};

use crate::arrays::{array_exists, array_get, array_names, array_size};
use crate::frames::{info_exists, info_level, info_vars};
use std::alloc::{AllocError, Global};
use tcl_chars::Fault;
use tcl_frames::Frames;
use tcl_meaning::SeenPage;
use tcl_steps::Completion;
use tcl_values::Value;

// What a command answers that looks at the frames.
#[tactic(auto, unfolding(tcl_meaning::specs::SeenPages::seen_answer))]
fn answer(
    alloc: Global,
    frames: &Frames,
    page: SeenPage,
    words: &mut [Value],
) -> Result<Value, Fault>
    requires { looks_at_frames page ≡ true }
    ensures answer { (cs : Commands) → Answers (λ v. v) result (seen_answer page (store_of cs frames.now) words.old) }
    ensures same { words.new ≡ words.old }
{
    match page {
        SeenPage::ArrayExists => array_exists(alloc, frames, words),
        SeenPage::ArrayGet => array_get(alloc, frames, words),
        SeenPage::ArrayNames => array_names(alloc, frames, words),
        SeenPage::ArraySize => array_size(alloc, frames, words),
        SeenPage::InfoExists => info_exists(alloc, frames, words),
        SeenPage::InfoLevel => info_level(alloc, frames, words),
        SeenPage::InfoVars => info_vars(alloc, frames, words),
        SeenPage::InfoArgs => unreachable!(),
        SeenPage::InfoBody => unreachable!(),
        SeenPage::InfoCommands => unreachable!(),
        SeenPage::InfoProcs => unreachable!(),
    }
}

// How a command ends that has answered.
fn completed(alloc: Global, answer: Result<Value, Fault>) -> Result<Completion, AllocError>
    ensures { Completes answer result }
{
    match answer {
        Ok(value) => Ok(Completion::normal(alloc, value)),
        Err(Fault::Error(message)) => Ok(Completion::failure(alloc, message)),
        Err(Fault::Memory) => Err(AllocError),
    }
}

/// A command that looks at the frames and at nothing else: `array exists`, `get`, `names` and `size`, `info exists`, `level` and
/// `vars`.
///
/// # Errors
///
/// `AllocError` where a growth was refused.
pub fn seen(
    alloc: Global,
    frames: &Frames,
    page: SeenPage,
    words: &mut [Value],
) -> Result<Completion, AllocError>
    requires { looks_at_frames page ≡ true }
    ensures does { Does (seen_page page words.old) frames.now result frames.now }
    ensures words { words.new ≡ words.old }
{
    let answer = answer(alloc, frames, page, words);
    completed(alloc, answer)
}
