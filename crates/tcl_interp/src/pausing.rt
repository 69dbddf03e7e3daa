//! A run of a script that pauses, and goes on there.
ghost use Rattle.std.specs.Prelude.{◌≡◌, ◌≢◌, ℕ, false, IfOk, IfErr};
ghost use Rattle.std.specs.Str.{chars};
ghost use Rattle.tcl_channels.specs.Leaves.{Leaves};
ghost use Rattle.tcl_channels.specs.Shown.{channels_of};
ghost use Rattle.tcl_meaning.specs.Beginnings.{OutputsBegin};
ghost use Rattle.tcl_interp.specs.Outcome.{outcome_is_io};
ghost use Rattle.tcl_interp.specs.Pausing.{PartEnds, RefusesStart, Starts, machine_in, stage_after, stopped};
ghost use Rattle.tcl_interp.specs.declared.host.Outcome.TheVariants as outcome;
ghost use Rattle.tcl_interp.specs.declared.stage.Stage.TheVariants as stage;

use crate::host::{HostFault, Outcome};
use crate::interp::Interp;
use crate::outcome::outcome_of;
use crate::stage::{Stage, stage_after, stage_fails};
use std::alloc::Global;
use std::marker::Model;
use tcl_chan::device::{Input, Output};
use tcl_chan::world::World;
use tcl_compile::Codes;
use tcl_engine::{Room, Undone};
use tcl_frames::Frames;
use tcl_run::{resume, start};
use tcl_steps::{Loop, Owes, Scope};
use tcl_table::Table;
use tcl_vm::Paused;

/// A run of a script in parts: it pauses where a unit is wanting, and goes on there. Contracts see its dialect, its machine, what
/// scripts keep, and whether it goes on, is over or has failed.
pub struct Run {
    alloc: Global,
    frames: Frames,
    table: Table,
    codes: Codes,
    paused: Paused<Room, Undone, Scope, Owes, Loop>,
    stage: Stage,
}

impl Drop for Run {
    #[inline(always)]
    fn drop(self) {
        let Run {
            alloc: _,
            frames,
            table,
            codes,
            paused,
            stage: _,
        } = self;
        drop(frames);
        drop(table);
        drop(codes);
        drop(paused);
    }
}

impl Model for Run {
    ghost use Rattle.tcl_interp.specs.Pausing.{CanGo, GoesOn, RunShows, run_code};

    ghost Value = { RunShows };

    ghost coded = { run_code };

    ghost view = { λ r. record { dialect = r.codes; machine = r.paused; frames = r.frames; commands = r.table; stage = r.stage } };

    ghost invariant = { λ r. GoesOn r.stage (CanGo r.paused r.frames r.table) };
}

impl Interp {
    /// A run of a script, at its beginning, to which the interpreter is lent whole: see `Run::stop`. Nothing is evaluated, and no
    /// unit spent.
    ///
    /// # Errors
    /// `Failed` where the interpreter has failed, `Memory` where a growth was refused. The interpreter comes back as it was.
    pub fn start(self, script: &str) -> Result<Run, (Interp, HostFault)>
        ensures starts { IfOk result (λ run. Starts self run (chars script.now)) }
        ensures sound { IfOk result (λ _. self.failed ≡ false) }
        ensures refused { IfErr result (λ back. RefusesStart back.1 self.failed) }
        ensures back { IfErr result (λ back. back.0 ≡ self) }
    {
        let mut interp = self;
        if interp.failed {
            return Err((interp, HostFault::Failed));
        }
        let alloc = interp.alloc;
        match start(alloc, &mut interp.codes, script) {
            Ok(paused) => {
                let (frames, table, codes) = interp.into_parts();
                Ok(Run {
                    alloc,
                    frames,
                    table,
                    codes,
                    paused,
                    stage: Stage::Going,
                })
            }
            Err(_) => Err((interp, HostFault::Memory)),
        }
    }
}

impl Run {
    /// Goes on with `part` units to spend, one for each command and each turn of a loop. `Budget` says that it has paused at the
    /// command or turn that found none left: what was done isn't done again. After that it can go on; after `Done` and `Exit` it
    /// is over, and answers `Over`; after `Memory` and `Io` it has failed, and answers `Failed`.
    pub fn go<R: Input, W: Output, E: Output>(
        &mut self,
        world: &mut World<'_, '_, '_, R, W, E>,
        part: u64,
    ) -> Outcome
        ensures over { self.old.stage ≡ stage.Over → result ≡ outcome.Over }
        ensures failed { self.old.stage ≡ stage.Failed → result ≡ outcome.Failed }
        ensures idle { self.old.stage ≢ stage.Going → self.new ≡ self.old }
        ensures still { self.old.stage ≢ stage.Going → world.new ≡ world.old }
        ensures goes { self.old.stage ≡ stage.Going → (left : ℕ) × PartEnds self.old.dialect result
            (machine_in R.to_come W.written E.written self.old world.old part) (machine_in R.to_come W.written E.written self.new world.new left) }
        ensures stage { self.new.stage ≡ stage_after result }
        ensures dialect { self.new.dialect ≡ self.old.dialect }
        ensures grows { OutputsBegin (channels_of R.to_come W.written E.written world.old) (channels_of R.to_come W.written E.written world.new) }
        ensures leaves { Leaves R.failed_calls W.failed_calls E.failed_calls (outcome_is_io result) world.old world.new }
    {
        match self.stage {
            Stage::Going => {}
            Stage::Over => return Outcome::Over,
            Stage::Failed => return Outcome::Failed,
        }
        let mut units = part;
        let ended = resume(
            self.alloc,
            &mut self.frames,
            &mut self.table,
            &mut self.codes,
            world,
            &mut self.paused,
            &mut units,
        );
        let outcome = outcome_of(self.alloc, ended, units);
        self.stage = stage_after(&outcome);
        outcome
    }

    /// Whether it goes on, is over, or has failed.
    pub fn stage(&self) -> Stage
        ensures { result ≡ self.now.stage }
    {
        self.stage
    }

    /// The interpreter, with the global variables and the commands that the run has left. What is pending is dropped. An
    /// interpreter whose run has failed has failed. It takes no memory.
    pub fn stop(self) -> Interp
        ensures { result ≡ stopped self }
    {
        let Run {
            alloc,
            mut frames,
            table,
            codes,
            paused,
            stage,
        } = self;
        drop(paused);
        let _active = frames.active();
        frames.unwind();
        Interp {
            alloc,
            frames,
            table,
            codes,
            failed: stage_fails(stage),
        }
    }
}
