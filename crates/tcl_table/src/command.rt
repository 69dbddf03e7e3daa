//! Commands: built-in ones, and procedures.
ghost use Rattle.std.specs.Prelude.{◌≡◌, Some, IfOk};
ghost use Rattle.tcl_meaning.specs.State as state;

use std::alloc::AllocError;
use std::marker::Model;
use std::rc::{Rc, RcStr};
use tcl_meaning::BuiltIn;
use tcl_names::Layout;

/// A formal of a procedure, and its default if it has one: proc(n).
pub struct Formal {
    pub name: RcStr,
    pub default: Option<RcStr>,
}

impl Drop for Formal {
    #[inline(always)]
    fn drop(self) {
        let Formal { name, default } = self;
        drop(name);
        drop(default);
    }
}

/// A procedure: proc(n).
pub struct Procedure {
    pub formals: Vec<Formal>,
    pub body: RcStr,
    /// The places of its variables in each call.
    pub layout: Rc<Layout>,
}

impl Drop for Procedure {
    #[inline(always)]
    fn drop(self) {
        let Procedure {
            formals,
            body,
            layout,
        } = self;
        drop(formals);
        drop(body);
        drop(layout);
    }
}

// What is kept of a command.
#[derive(Drop)]
enum Held {
    BuiltIn(BuiltIn),
    Procedure(Rc<Procedure>),
}

/// What a command's name stands for.
pub struct Command {
    held: Held,
}

impl Drop for Command {
    #[inline(always)]
    fn drop(self) {
        let Command { held } = self;
        drop(held);
    }
}

impl Model for Command {
    ghost use Rattle.tcl_meaning.specs.State.{Command};
    ghost use Rattle.tcl_table.specs.Coding.{command_code};

    ghost Value = { Command };

    ghost coded = { command_code };

    ghost use Rattle.tcl_table.specs.CommandShape.{command_of};

    ghost view = { λ c. command_of c.held };
}

/// A command, to be looked at.
#[derive(Clone, Copy)]
pub enum Meaning<'a> {
    BuiltIn(BuiltIn),
    Procedure(&'a Rc<Procedure>),
}

impl Command {
    ghost use Rattle.tcl_table.specs.Procedures.{procedure_of};
    ghost use Rattle.tcl_table.specs.CommandShape.{meaning_of};
    ghost use Rattle.tcl_table.specs.Frequent.{built_in_of};

    /// The built-in command.
    pub fn built_in(built_in: BuiltIn) -> Command
        ensures { result ≡ state.built_in built_in }
    {
        Command {
            held: Held::BuiltIn(built_in),
        }
    }

    /// The procedure.
    pub fn procedure(procedure: Rc<Procedure>) -> Command
        ensures { result ≡ state.procedure (procedure_of procedure.value) }
    {
        Command {
            held: Held::Procedure(procedure),
        }
    }

    /// What it is.
    pub fn meaning(&self) -> Meaning<'_>
        ensures { meaning_of result ≡ self.now }
    {
        match &self.held {
            Held::BuiltIn(built_in) => Meaning::BuiltIn(*built_in),
            Held::Procedure(procedure) => Meaning::Procedure(procedure),
        }
    }

    /// The built-in command, if it is one.
    pub fn as_built_in(&self) -> Option<BuiltIn>
        ensures { result ≡ built_in_of (Some self.now) }
    {
        match &self.held {
            Held::BuiltIn(built_in) => Some(*built_in),
            Held::Procedure(_) => None,
        }
    }

    /// The same command once more. A procedure is shared.
    pub fn copy(&self) -> Result<Command, AllocError>
        ensures { IfOk result (λ c. c ≡ self.now) }
    {
        let held = match &self.held {
            Held::BuiltIn(built_in) => Held::BuiltIn(*built_in),
            Held::Procedure(procedure) => Held::Procedure(procedure.clone()?),
        };
        Ok(Command { held })
    }
}
