//! The machine: a code that runs, and those that wait for it.

ghost use Rattle.std.specs.Prelude.{◌≡◌, ◌≤◌, ◌++◌, ◌∷◌, [], ℕ, false, OnOk, IfOk};
ghost use Rattle.tcl_meaning.specs.Completions.{nothing};
ghost use Rattle.tcl_meaning.specs.Script.{Run, most_depth};
ghost use Rattle.tcl_meaning.specs.Tasks.{Script};
ghost use Rattle.tcl_vm.specs.Engines.{completion_of, step_of, is_io};
ghost use Rattle.tcl_vm.specs.Machines.{config_of, first_of, seen, Makes, Ends, Begins, Follows};
ghost use Rattle.tcl_vm.specs.Turns.{Fits, Onward};
ghost use Rattle.tcl_vm.specs.Unwinding.{Unwinds};
ghost use Rattle.tcl_steps.specs.declared.step.Step.TheVariants as step;
ghost use Rattle.tcl_vm.specs.declared.machine.Turn.TheVariants as turn;

use crate::engine::{Engine, Progress, Stop};
use std::alloc::{AllocError, Global};
use std::marker::Model;
use std::mem;
use tcl_steps::{Completion, Step};
use tcl_values::Value;

/// A page that waits for a script or an expression, and the code that called it.
#[derive(Drop)]
pub(crate) struct Waiting<A, U, O> {
    pub(crate) owes: O,
    pub(crate) undone: U,
    pub(crate) caller: A,
    // The commands that units have been spent for in the caller, and that haven't been called yet.
    pub(crate) paid: u64,
}

/// A machine between two turns.
#[derive(Drop)]
pub(crate) struct Machine<A, U, O> {
    pub(crate) current: A,
    // Innermost last.
    pub(crate) callers: Vec<Waiting<A, U, O>>,
    // The commands that units have been spent for in the code that runs, and that haven't been called yet.
    pub(crate) paid: u64,
}

/// What a machine does next.
#[derive(Drop)]
pub(crate) enum Turn<S, O, L> {
    Next,
    Asking(Step<S, O, L>),
    Ending(Completion),
}

/// What a turn has made.
#[derive(Drop)]
pub(crate) enum Made<S, O, L> {
    On(Turn<S, O, L>),
    /// A script or an expression has begun, or would have.
    Begun(Turn<S, O, L>),
    /// A unit is spent, or what it had paid for.
    Used(Turn<S, O, L>),
    Over(Completion),
    /// A unit is wanting for this turn, which isn't made.
    Unpaid(Turn<S, O, L>),
}

/// A machine at its beginning, or where a unit was wanting: all that it goes on from. What it does next is kept, and the codes that
/// run and wait, each with its place, its stacks and the commands that are paid for. Its frames, devices and units are its engine's.
#[derive(Drop)]
pub struct Paused<A, U, S, O, L> {
    machine: Machine<A, U, O>,
    next: Turn<S, O, L>,
}

impl<A, U, S, O, L> Model for Paused<A, U, S, O, L> {
    ghost use Rattle.tcl_vm.specs.Machines.{Pause, pause_of};

    ghost Value = { Pause A U S O L };

    ghost view = { λ p. pause_of p.next p.machine };
}

impl<A: Drop, U: Drop, O: Drop> Machine<A, U, O> {
    /// A page waits for a code that begins.
    pub(crate) fn begin(&mut self, activation: A, owes: O, undone: U) -> Result<(), AllocError>
        ensures current { OnOk result (self.new.current ≡ activation) }
        ensures callers { OnOk result (self.new.callers.items ≡ self.old.callers.items ++ (record { owes = owes; undone = undone; caller = self.old.current; paid = self.old.paid }) ∷ []) }
        ensures paid { OnOk result (self.new.paid ≡ 0) }
    {
        let caller = mem::replace(&mut self.current, activation);
        let paid = mem::replace(&mut self.paid, 0);
        self.callers.push(Waiting {
            owes,
            undone,
            caller,
            paid,
        })?;
        Ok(())
    }
}

/// Instructions of the code that runs.
#[inline(always)]
pub(crate) fn advance<E: Engine>(
    engine: &mut E,
    machine: &mut Machine<E::Activation, E::Undone, E::Owes>,
) -> Result<Made<E::Scope, E::Owes, E::Loop>, Stop>
    requires { Fits (config_of E.views turn.Next machine.old (E.shown engine.old)) }
    ensures makes { Makes (E.dialect engine.old) E.views result (config_of E.views turn.Next machine.old (E.shown engine.old)) machine.new (E.shown engine.new) }
    ensures leaves { E.leaves (is_io result) engine.old engine.new }
{
    match engine.step(&mut machine.current, &mut machine.paid)? {
        Progress::Asks(step) => {
            machine.paid -= 1;
            Ok(Made::Used(Turn::Asking(step)))
        }
        Progress::Over(completion) => Ok(Made::On(Turn::Ending(completion))),
        Progress::Unpaid => Ok(Made::Unpaid(Turn::Next)),
    }
}

/// A page is done.
#[inline(always)]
pub(crate) fn done<E: Engine>(
    engine: &mut E,
    machine: &mut Machine<E::Activation, E::Undone, E::Owes>,
    completion: Completion,
) -> Result<Made<E::Scope, E::Owes, E::Loop>, Stop>
    requires { Fits (config_of E.views (turn.Asking (step.Done completion)) machine.old (E.shown engine.old)) }
    ensures makes { Makes (E.dialect engine.old) E.views result (config_of E.views (turn.Asking (step.Done completion)) machine.old (E.shown engine.old)) machine.new (E.shown engine.new) }
    ensures leaves { E.leaves (is_io result) engine.old engine.new }
{
    match engine.answer(&mut machine.current, completion)? {
        None => Ok(Made::On(Turn::Next)),
        Some(completion) => Ok(Made::On(Turn::Ending(completion))),
    }
}

/// A page has a script run.
#[inline(always)]
pub(crate) fn run_script<E: Engine>(
    engine: &mut E,
    machine: &mut Machine<E::Activation, E::Undone, E::Owes>,
    scope: E::Scope,
    text: Value,
    owes: E::Owes,
) -> Result<Made<E::Scope, E::Owes, E::Loop>, Stop>
    requires { Fits (config_of E.views (turn.Asking (step.Run scope text owes)) machine.old (E.shown engine.old)) }
    ensures makes { Makes (E.dialect engine.old) E.views result (config_of E.views (turn.Asking (step.Run scope text owes)) machine.old (E.shown engine.old)) machine.new (E.shown engine.new) }
    ensures leaves { E.leaves (is_io result) engine.old engine.new }
{
    let depth = engine.depth(&machine.current);
    if depth >= 1000 {
        let completion = engine.too_deep()?;
        let next = engine.owed(owes, completion)?;
        return Ok(Made::Begun(Turn::Asking(next)));
    }
    let activation = engine.script(text, depth + 1)?;
    let undone = engine.enter(scope)?;
    machine.begin(activation, owes, undone)?;
    Ok(Made::Begun(Turn::Next))
}

/// A page has an expression evaluated.
#[inline(always)]
pub(crate) fn evaluate<E: Engine>(
    engine: &mut E,
    machine: &mut Machine<E::Activation, E::Undone, E::Owes>,
    text: Value,
    owes: E::Owes,
) -> Result<Made<E::Scope, E::Owes, E::Loop>, Stop>
    requires { Fits (config_of E.views (turn.Asking (step.Evaluate text owes)) machine.old (E.shown engine.old)) }
    ensures makes { Makes (E.dialect engine.old) E.views result (config_of E.views (turn.Asking (step.Evaluate text owes)) machine.old (E.shown engine.old)) machine.new (E.shown engine.new) }
    ensures leaves { E.leaves (is_io result) engine.old engine.new }
{
    let depth = engine.depth(&machine.current);
    let activation = engine.expression(text, depth)?;
    let undone = engine.stay();
    machine.begin(activation, owes, undone)?;
    Ok(Made::Begun(Turn::Next))
}

/// A turn of a loop is paid for and made.
#[inline(always)]
pub(crate) fn pay<E: Engine>(
    engine: &mut E,
    machine: &mut Machine<E::Activation, E::Undone, E::Owes>,
    turns: E::Loop,
) -> Result<Made<E::Scope, E::Owes, E::Loop>, Stop>
    requires { Fits (config_of E.views (turn.Asking (step.Pay turns)) machine.old (E.shown engine.old)) }
    ensures makes { Makes (E.dialect engine.old) E.views result (config_of E.views (turn.Asking (step.Pay turns)) machine.old (E.shown engine.old)) machine.new (E.shown engine.new) }
    ensures leaves { E.leaves (is_io result) engine.old engine.new }
{
    if !engine.spend() {
        return Ok(Made::Unpaid(Turn::Asking(Step::Pay(turns))));
    }
    let next = engine.turned(turns)?;
    Ok(Made::Used(Turn::Asking(next)))
}

/// What a page asks for is done.
#[inline(always)]
pub(crate) fn ask<E: Engine>(
    engine: &mut E,
    machine: &mut Machine<E::Activation, E::Undone, E::Owes>,
    asked: Step<E::Scope, E::Owes, E::Loop>,
) -> Result<Made<E::Scope, E::Owes, E::Loop>, Stop>
    requires { Fits (config_of E.views (turn.Asking asked) machine.old (E.shown engine.old)) }
    ensures makes { Makes (E.dialect engine.old) E.views result (config_of E.views (turn.Asking asked) machine.old (E.shown engine.old)) machine.new (E.shown engine.new) }
    ensures leaves { E.leaves (is_io result) engine.old engine.new }
{
    match asked {
        Step::Done(completion) => done(engine, machine, completion),
        Step::Run(scope, text, owes) => run_script(engine, machine, scope, text, owes),
        Step::Evaluate(text, owes) => evaluate(engine, machine, text, owes),
        Step::Pay(turns) => pay(engine, machine, turns),
    }
}

/// A code has ended, and the page that waits for it goes on.
#[inline(always)]
pub(crate) fn end<E: Engine>(
    engine: &mut E,
    machine: &mut Machine<E::Activation, E::Undone, E::Owes>,
    completion: Completion,
) -> Result<Made<E::Scope, E::Owes, E::Loop>, Stop>
    requires fits { Fits (config_of E.views (turn.Ending completion) machine.old (E.shown engine.old)) }
    requires unwinds { Unwinds (config_of E.views (turn.Ending completion) machine.old (E.shown engine.old)) }
    ensures makes { Makes (E.dialect engine.old) E.views result (config_of E.views (turn.Ending completion) machine.old (E.shown engine.old)) machine.new (E.shown engine.new) }
    ensures leaves { E.leaves (is_io result) engine.old engine.new }
{
    match machine.callers.pop() {
        None => Ok(Made::Over(completion)),
        Some(waiting) => {
            let ended = mem::replace(&mut machine.current, waiting.caller);
            engine.undo(waiting.undone, ended);
            machine.paid = waiting.paid;
            let next = engine.owed(waiting.owes, completion)?;
            Ok(Made::On(Turn::Asking(next)))
        }
    }
}

/// One turn.
#[inline(always)]
pub(crate) fn make<E: Engine>(
    engine: &mut E,
    machine: &mut Machine<E::Activation, E::Undone, E::Owes>,
    now: Turn<E::Scope, E::Owes, E::Loop>,
) -> Result<Made<E::Scope, E::Owes, E::Loop>, Stop>
    requires fits { Fits (config_of E.views (now) machine.old (E.shown engine.old)) }
    requires unwinds { Unwinds (config_of E.views (now) machine.old (E.shown engine.old)) }
    ensures makes { Makes (E.dialect engine.old) E.views result (config_of E.views (now) machine.old (E.shown engine.old)) machine.new (E.shown engine.new) }
    ensures leaves { E.leaves (is_io result) engine.old engine.new }
{
    match now {
        Turn::Next => advance(engine, machine),
        Turn::Asking(step) => ask(engine, machine, step),
        Turn::Ending(completion) => end(engine, machine, completion),
    }
}

/// Turn after turn, until the machine is over, or a unit is wanting for the next one.
pub(crate) fn go<E: Engine>(
    engine: &mut E,
    machine: &mut Machine<E::Activation, E::Undone, E::Owes>,
    next: &mut Turn<E::Scope, E::Owes, E::Loop>,
) -> Result<Completion, Stop>
    requires fits { Fits (config_of E.views next.old machine.old (E.shown engine.old)) }
    requires unwinds { Unwinds (config_of E.views next.old machine.old (E.shown engine.old)) }
    ensures ends { Ends (E.dialect engine.old) result (config_of E.views next.old machine.old (E.shown engine.old)) (config_of E.views next.new machine.new (E.shown engine.new)) }
    ensures leaves { E.leaves (is_io result) engine.old engine.new }
{
    let mut now = mem::replace(next, Turn::Next);
    'used: loop {
        'begun: loop {
            'on: loop {
                match make(engine, machine, now)? {
                    Made::Over(completion) => return Ok(completion),
                    Made::Unpaid(turn) => {
                        *next = turn;
                        return Err(Stop::Budget);
                    }
                    Made::On(turn) => now = turn,
                    Made::Begun(turn) => {
                        now = turn;
                        continue 'begun;
                    }
                    Made::Used(turn) => {
                        now = turn;
                        continue 'used;
                    }
                }
            }
        }
    }
}

impl<A: Drop, U: Drop, S: Drop, O: Drop, L: Drop> Paused<A, U, S, O, L> {
    /// A machine at the beginning of a code. It takes no memory.
    pub fn new(alloc: Global, current: A) -> Paused<A, U, S, O, L>
        ensures { result ≡ first_of current }
    {
        Paused {
            machine: Machine {
                current,
                callers: Vec::new(alloc),
                paid: 0,
            },
            next: Turn::Next,
        }
    }
}

/// A machine at the beginning of a script that stands in `depth - 1` others. Nothing is done, and no unit is spent.
pub fn start<E: Engine>(
    alloc: Global,
    engine: &mut E,
    script: Value,
    depth: u64,
) -> Result<Paused<E::Activation, E::Undone, E::Scope, E::Owes, E::Loop>, AllocError>
    requires shallow { depth ≤ most_depth }
    ensures begins { IfOk result (λ paused. Begins (E.dialect engine.old) script depth (seen E.views paused (E.shown engine.new))) }
    ensures same { E.shown engine.new ≡ E.shown engine.old }
    ensures leaves { E.leaves false engine.old engine.new }
{
    let current = engine.script(script, depth)?;
    Ok(Paused::new(alloc, current))
}

/// Goes on with the units that the engine has. Where one is wanting, the machine stands where it goes on, and what was done isn't
/// done again.
pub fn resume<E: Engine>(
    engine: &mut E,
    paused: &mut Paused<E::Activation, E::Undone, E::Scope, E::Owes, E::Loop>,
) -> Result<Completion, Stop>
    requires fits { Fits (seen E.views paused.old (E.shown engine.old)) }
    requires unwinds { Unwinds (seen E.views paused.old (E.shown engine.old)) }
    ensures ends { Ends (E.dialect engine.old) result (seen E.views paused.old (E.shown engine.old)) (seen E.views paused.new (E.shown engine.new)) }
    ensures leaves { E.leaves (is_io result) engine.old engine.new }
{
    go(engine, &mut paused.machine, &mut paused.next)
}

/// Runs a script that stands in `depth - 1` others. Its completion, what scripts keep and the channels afterwards are
/// the definition's. No more units are left than there were.
pub fn run<E: Engine>(
    alloc: Global,
    engine: &mut E,
    script: Value,
    depth: u64,
) -> Result<Completion, Stop>
    requires shallow { depth ≤ most_depth }
    ensures follows { Follows result (Run (E.dialect engine.old) (Script depth nothing script) (E.shown engine.old)) (E.shown engine.new) }
    ensures onward { Onward (E.shown engine.old) (E.shown engine.new) }
    ensures leaves { E.leaves (is_io result) engine.old engine.new }
{
    let mut paused = start(alloc, engine, script, depth)?;
    resume(engine, &mut paused)
}
