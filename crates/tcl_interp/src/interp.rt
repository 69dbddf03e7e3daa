//! The interpreter.
ghost use Rattle.std.specs.Prelude.{◌≡◌, ◌↔◌, true, false, IsTrue, IfOk, IfErr, IsErrOf, OnOk, OnErr, Ok, option_map};
ghost use Rattle.std.specs.FinMap as map;
ghost use Rattle.std.specs.Str.{chars};
ghost use Rattle.tcl_channels.specs.Leaves.{Leaves};
ghost use Rattle.tcl_channels.specs.Shown.{channels_of};
ghost use Rattle.tcl_chars.specs.declared.fault.Fault.TheVariants.{Memory};
ghost use Rattle.tcl_frames.specs.Standing.{applied};
ghost use Rattle.tcl_meaning.specs.Beginnings.{OutputsBegin};
ghost use Rattle.tcl_meaning.specs.Frames.{global_frame};
ghost use Rattle.tcl_meaning.specs.Pages.{first_commands};
ghost use Rattle.tcl_meaning.specs.Run.{run_script};
ghost use Rattle.tcl_meaning.specs.Variables.{get, put_change};
ghost use Rattle.tcl_names.specs.Named.{text_of};
ghost use Rattle.tcl_interp.specs.Host.{all_told, host_text, vars_shown, IsRefusal, RefusesPut};
ghost use Rattle.tcl_interp.specs.Interp.{kept_by, remains_at, standing_at, state_at};
ghost use Rattle.tcl_interp.specs.Outcome.{Ends, outcome_fails, outcome_is_io};
ghost use Rattle.tcl_interp.specs.declared.host.HostFault.TheVariants as host;
ghost use Rattle.tcl_interp.specs.declared.host.Outcome.TheVariants as outcome;

use crate::arguments::value_of;
use crate::host::{Config, HostFault, HostVar, Outcome};
use crate::outcome::{outcome_fails, outcome_of};
use crate::vars::{host_vars, text_of};
use std::alloc::{AllocError, Global};
use std::marker::Model;
use std::rc::RcStr;
use tcl_chan::device::{Input, Output};
use tcl_chan::world::World;
use tcl_chars::{Dialect, Fault};
use tcl_compile::Codes;
use tcl_frames::{Frames, Variable};
use tcl_names::NameMap;
use tcl_run::{Place, run, run_noted};
use tcl_table::Table;

/// An interpreter: the variables and commands that scripts leave. Contracts see its dialect, its global frame, its commands,
/// and whether it has failed. What codes are kept never shows.
pub struct Interp {
    pub(crate) alloc: Global,
    pub(crate) frames: Frames,
    pub(crate) table: Table,
    pub(crate) codes: Codes,
    pub(crate) failed: bool,
}

impl Drop for Interp {
    #[inline(always)]
    fn drop(self) {
        let Interp {
            alloc: _,
            frames,
            table,
            codes,
            failed: _,
        } = self;
        drop(frames);
        drop(table);
        drop(codes);
    }
}

impl Model for Interp {
    ghost use Rattle.tcl_interp.specs.Interp.{Shows, shows_code, IsAtTop};
    ghost use Rattle.tcl_meaning.specs.Frames.{frame_at};

    ghost Value = { Shows };

    ghost coded = { shows_code };

    ghost view = { λ i. record { dialect = i.codes; globals = frame_at i.frames.frames 0; commands = i.table; failed = i.failed } };

    ghost invariant = { λ i. IsAtTop i.frames };
}

impl Interp {
    /// An interpreter without variables, with every command under its name.
    ///
    /// # Errors
    /// `Fault::Memory` where a growth was refused.
    pub fn new(alloc: Global, config: Config) -> Result<Interp, Fault>
        ensures dialect { IfOk result (λ interp. interp.dialect ≡ config.dialect) }
        ensures globals { IfOk result (λ interp. interp.globals ≡ global_frame map.empty) }
        ensures commands { IfOk result (λ interp. interp.commands ≡ first_commands) }
        ensures sound { IfOk result (λ interp. interp.failed ≡ false) }
        ensures fault { IfErr result (λ fault. fault ≡ Memory) }
    {
        Ok(Interp::over(alloc, config.dialect, NameMap::new(alloc))?)
    }

    /// An interpreter with these global variables.
    pub(crate) fn over(
        alloc: Global,
        dialect: Dialect,
        globals: NameMap<Variable>,
    ) -> Result<Interp, AllocError>
        ensures dialect { IfOk result (λ interp. interp.dialect ≡ dialect) }
        ensures globals { IfOk result (λ interp. interp.globals ≡ global_frame globals) }
        ensures commands { IfOk result (λ interp. interp.commands ≡ first_commands) }
        ensures sound { IfOk result (λ interp. interp.failed ≡ false) }
    {
        let frames = Frames::new(alloc, globals)?;
        let table = Table::new(alloc)?;
        let codes = Codes::new(alloc, dialect)?;
        Ok(Interp {
            alloc,
            frames,
            table,
            codes,
            failed: false,
        })
    }

    /// What scripts keep, the commands and the codes.
    pub(crate) fn into_parts(self) -> (Frames, Table, Codes)
        ensures frames { result.0 ≡ standing_at self.globals }
        ensures commands { result.1 ≡ self.commands }
        ensures dialect { result.2 ≡ self.dialect }
    {
        let Interp {
            alloc: _,
            frames,
            table,
            codes,
            failed: _,
        } = self;
        (frames, table, codes)
    }

    /// Has the interpreter failed: was a growth refused to it, or did a device fail under it?
    pub fn is_failed(&self) -> bool
        ensures { result ≡ self.now.failed }
    {
        self.failed
    }

    /// How many texts of scripts and expressions were compiled so far, 2^64 - 1 at most.
    pub fn compiles(&self) -> u64 {
        self.codes.compiles()
    }

    /// Evaluates a script, with `budget` units to spend: one for each command and each turn of a loop.
    pub fn eval<R: Input, W: Output, E: Output>(
        &mut self,
        world: &mut World<'_, '_, '_, R, W, E>,
        script: &str,
        budget: u64,
    ) -> Outcome
        ensures failed { (result ≡ outcome.Failed) ↔ IsTrue self.old.failed }
        ensures idle { IsTrue self.old.failed → self.new ≡ self.old }
        ensures still { IsTrue self.old.failed → world.new ≡ world.old }
        ensures run { self.old.failed ≡ false →
            Ends result (run_script self.old.dialect (chars script.now) (state_at R.to_come W.written E.written self.old world.old budget))
            (remains_at R.to_come W.written E.written self.new world.new) }
        ensures grows { OutputsBegin (channels_of R.to_come W.written E.written world.old) (channels_of R.to_come W.written E.written world.new) }
        ensures fails { self.old.failed ≡ false → self.new.failed ≡ outcome_fails result }
        ensures dialect { self.new.dialect ≡ self.old.dialect }
        ensures leaves { Leaves R.failed_calls W.failed_calls E.failed_calls (outcome_is_io result) world.old world.new }
    {
        if self.failed {
            return Outcome::Failed;
        }
        let mut units = budget;
        let ended = run(
            self.alloc,
            &mut self.frames,
            &mut self.table,
            &mut self.codes,
            world,
            &mut units,
            script,
        );
        let _active = self.frames.active();
        self.frames.unwind();
        let outcome = outcome_of(self.alloc, ended, units);
        self.failed = outcome_fails(&outcome);
        outcome
    }

    /// Evaluates a script as `eval` does, and tells where an error that ended it has left codes, from the inside out. They are places
    /// of texts, of which no more is said.
    pub(crate) fn eval_noted<R: Input, W: Output, E: Output>(
        &mut self,
        world: &mut World<'_, '_, '_, R, W, E>,
        script: &str,
        budget: u64,
        places: &mut Vec<Place>,
    ) -> Outcome
        ensures failed { (result ≡ outcome.Failed) ↔ IsTrue self.old.failed }
        ensures idle { IsTrue self.old.failed → self.new ≡ self.old }
        ensures still { IsTrue self.old.failed → world.new ≡ world.old }
        ensures run { self.old.failed ≡ false →
            Ends result (run_script self.old.dialect (chars script.now) (state_at R.to_come W.written E.written self.old world.old budget))
            (remains_at R.to_come W.written E.written self.new world.new) }
        ensures grows { OutputsBegin (channels_of R.to_come W.written E.written world.old) (channels_of R.to_come W.written E.written world.new) }
        ensures fails { self.old.failed ≡ false → self.new.failed ≡ outcome_fails result }
        ensures dialect { self.new.dialect ≡ self.old.dialect }
        ensures leaves { Leaves R.failed_calls W.failed_calls E.failed_calls (outcome_is_io result) world.old world.new }
    {
        if self.failed {
            return Outcome::Failed;
        }
        let mut left = budget;
        let ended = run_noted(
            self.alloc,
            &mut self.frames,
            &mut self.table,
            &mut self.codes,
            world,
            &mut left,
            script,
            places,
        );
        let _active = self.frames.active();
        self.frames.unwind();
        let told = outcome_of(self.alloc, ended, left);
        self.failed = outcome_fails(&told);
        told
    }

    /// The text of a global variable, or of an element; `None` where there is none, for an array, and for an element of
    /// a text.
    ///
    /// # Errors
    /// `Failed` where the interpreter has failed, `Memory` where a growth was refused.
    pub fn var(&mut self, name: &str) -> Result<Option<RcStr>, HostFault>
        ensures failed { IsErrOf result host.Failed ↔ IsTrue self.old.failed }
        ensures value { IfOk result (λ value. option_map text_of value ≡ host_text (get (kept_by self.old) (chars name.now))) }
        ensures fault { IfErr result IsRefusal }
        ensures same { self.new ≡ self.old }
    {
        if self.failed {
            return Err(HostFault::Failed);
        }
        match self.frames.find(name) {
            Ok(value) => Ok(Some(text_of(self.alloc, value)?)),
            Err(_) => Ok(None),
        }
    }

    /// Puts a text into a global variable or an element, which is made where it is missing.
    ///
    /// # Errors
    /// `Failed` where the interpreter has failed, `Memory` where a growth was refused, `Var` where the variable can't be
    /// written. The interpreter is then as it was.
    pub fn set_var(&mut self, name: &str, value: &str) -> Result<(), HostFault>
        ensures failed { IsErrOf result host.Failed ↔ IsTrue self.old.failed }
        ensures done { OnOk result (applied (put_change (kept_by self.old) (chars name.now) (chars value.now)) (kept_by self.old) ≡ Ok (kept_by self.new)) }
        ensures refused { IfErr result (RefusesPut (put_change (kept_by self.old) (chars name.now) (chars value.now))) }
        ensures same { OnErr result (self.new ≡ self.old) }
        ensures dialect { self.new.dialect ≡ self.old.dialect }
        ensures sound { self.new.failed ≡ self.old.failed }
    {
        if self.failed {
            return Err(HostFault::Failed);
        }
        let value = value_of(self.alloc, value)?;
        match self.frames.put(self.alloc, name, value) {
            Ok(()) => Ok(()),
            Err(fault) => Err(HostFault::from(fault)),
        }
    }

    /// The global variables that exist, by name in the order of code points; a link by what it leads to.
    ///
    /// # Errors
    /// `Failed` where the interpreter has failed, `Memory` where a growth was refused.
    pub fn vars(&mut self) -> Result<Vec<(RcStr, HostVar)>, HostFault>
        ensures failed { IsErrOf result host.Failed ↔ IsTrue self.old.failed }
        ensures all { IfOk result (λ vars. vars_shown vars.items ≡ all_told (kept_by self.old)) }
        ensures fault { IfErr result IsRefusal }
        ensures same { self.new ≡ self.old }
    {
        if self.failed {
            return Err(HostFault::Failed);
        }
        Ok(host_vars(self.alloc, &self.frames)?)
    }

    // Marks the interpreter as failed.
    pub(crate) fn fail(&mut self)
        ensures failed { self.new.failed ≡ true }
        ensures globals { self.new.globals ≡ self.old.globals }
        ensures commands { self.new.commands ≡ self.old.commands }
        ensures dialect { self.new.dialect ≡ self.old.dialect }
    {
        self.failed = true;
    }
}
