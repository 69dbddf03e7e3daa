//! Where a run is.
ghost use Rattle.std.specs.Prelude.{◌≡◌};
ghost use Rattle.tcl_interp.specs.Pausing.{stage_after, stage_fails};

use crate::host::Outcome;

/// Where a run is.
#[derive(Clone, Copy, Debug, PartialEq, Eq)]
pub enum Stage {
    /// It can go on.
    Going,
    /// Its script has ended, or has ended the run.
    Over,
    /// A growth was refused, or a device failed.
    Failed,
}

/// Where a run is after this.
pub(crate) fn stage_after(outcome: &Outcome) -> Stage
    ensures { result ≡ stage_after outcome.now }
{
    match outcome {
        Outcome::Done { .. } | Outcome::Exit(_) | Outcome::Over => Stage::Over,
        Outcome::Budget => Stage::Going,
        Outcome::Memory | Outcome::Io | Outcome::Failed => Stage::Failed,
    }
}

/// Has a run failed that is there?
pub(crate) fn stage_fails(stage: Stage) -> bool
    ensures { result ≡ stage_fails stage }
{
    matches!(stage, Stage::Failed)
}
