//! Loops whose bodies run.
ghost use Rattle.std.specs.Prelude.{◌≡◌, ◌≤◌, ◌<◌, ◌+◌, ◌^◌, Bool, [], ◌∷◌, true, false, length, reverse, take, OnOk};
ghost use Rattle.tcl_activation.specs.Collecting.{CollectsNewest};
ghost use Rattle.tcl_activation.specs.Dealing.{DealsNewest};
ghost use Rattle.tcl_activation.specs.Passing.{Passes};
ghost use Rattle.tcl_activation.specs.Rounds.{IsOpen};
ghost use Rattle.tcl_activation.specs.Saved.{loop_of};
ghost use Rattle.tcl_meaning.specs.Completions.{nothing};

use crate::open_loop::OpenLoop;
use crate::pile::Pile;
use crate::results::Results;
use crate::stack::Words;
use std::alloc::{AllocError, Global};
use std::marker::Model;
use tcl_frames::Frames;
use tcl_names::Sought;
use tcl_values::Value;

/// Loops whose bodies run. Contracts see a list, the newest first. One that is closed stays there with its room for the next one:
/// a turn of a loop takes no memory for what its body puts.
#[derive(Drop)]
pub struct Loops {
    // Those that are open come first.
    items: Vec<OpenLoop>,
    open: usize,
}

impl Model for Loops {
    ghost use Rattle.std.specs.Prelude.{◌≤◌, List, length, reverse, take};
    ghost use Rattle.tcl_code.specs.Machine.{Loop};

    ghost Value = { List Loop };

    ghost view = { λ l. reverse (take l.open l.items.items) };

    ghost invariant = { λ l. l.open ≤ length l.items.items };
}

/// What the newest loop goes on with, as it stands on the stack: its place behind `break`, whether `continue` passes it, and its depth.
#[derive(Clone, Copy)]
pub(crate) struct Open {
    pub(crate) at: usize,
    pub(crate) passes: bool,
    pub(crate) depth: u32,
}

// Has one more than `count` there.
#[inline(always)]
fn provide(items: &mut Vec<OpenLoop>, alloc: Global, count: usize) -> Result<(), AllocError>
    requires { count ≤ length items.old.items }
    ensures more { OnOk result (count < length items.new.items) }
    ensures enough { count ≤ length items.new.items }
    ensures same { take count items.new.items ≡ take count items.old.items }
{
    if count == items.len() {
        add_unused(items, alloc)?;
    }
    Ok(())
}

// One more than there were. It stands apart, since nearly always there is one to be used again.
#[cold]
#[inline(never)]
fn add_unused(items: &mut Vec<OpenLoop>, alloc: Global) -> Result<(), AllocError>
    ensures more { OnOk result (length items.old.items < length items.new.items) }
    ensures enough { length items.old.items ≤ length items.new.items }
    ensures same { take (length items.old.items) items.new.items ≡ items.old.items }
{
    items.push(OpenLoop::unused(alloc)?)?;
    Ok(())
}

// How many of the last in a row `continue` passes, if it doesn't pass all.
fn passed(open: &[OpenLoop]) -> Option<usize>
    ensures { Passes result (reverse open.now) }
{
    let count = open.len();
    for behind in 0..count {
        if !open[count - 1 - behind].passes() {
            return Some(behind);
        }
    }
    None
}

impl Loops {
    /// None yet.
    pub fn new(alloc: Global) -> Loops
        ensures { result ≡ [] }
    {
        Loops {
            items: Vec::new(alloc),
            open: 0,
        }
    }

    /// Is none open?
    pub fn is_empty(&self) -> bool
        ensures is { result ≡ true → self.now ≡ [] }
        ensures other { result ≡ false → 1 ≤ length self.now }
    {
        self.open == 0
    }

    /// The newest.
    #[inline(always)]
    pub(crate) fn newest(&self) -> Open
        requires { 1 ≤ length self.now }
        ensures { IsOpen result self.now }
    {
        self.items[self.open - 1].seen()
    }

    /// How many of the newest in a row `continue` passes, if it doesn't pass all.
    pub fn passed(&self) -> Option<usize>
        ensures { Passes result self.now }
    {
        passed(&self.items[..self.open])
    }

    /// All are closed, and what they have saved isn't put back.
    pub(crate) fn close_all(&mut self)
        ensures { self.new ≡ [] }
    {
        self.open = 0;
    }

    /// One more is open, and saves these. In their place comes what its body begins with.
    #[inline(always)]
    pub fn open(
        &mut self,
        alloc: Global,
        at: usize,
        passes: bool,
        depth: u32,
        texts: &mut Pile<Value>,
        lists: &mut Pile<Words>,
        results: &mut Results,
    ) -> Result<(), AllocError>
        requires { at + 1 < 2 ^ 64 }
        ensures saved { OnOk result (self.new ≡ loop_of at passes texts.old lists.old results.old depth ∷ self.old) }
        ensures texts { OnOk result (texts.new ≡ []) }
        ensures lists { OnOk result (lists.new ≡ []) }
        ensures results { OnOk result (results.new ≡ nothing ∷ []) }
    {
        let open = self.open;
        provide(&mut self.items, alloc, open)?;
        self.items[open].save(at, passes, depth, texts, lists, results);
        self.open = open + 1;
        Ok(())
    }

    /// The newest is closed. It puts back what it has saved, and answers its place and its depth.
    #[inline(always)]
    pub fn close(
        &mut self,
        texts: &mut Pile<Value>,
        lists: &mut Pile<Words>,
        results: &mut Results,
    ) -> (usize, u32)
        requires { 1 ≤ length self.old }
        ensures saved { (passes : Bool) × (self.old ≡ loop_of result.0 passes texts.new lists.new results.new result.1 ∷ self.new) }
        ensures place { result.0 + 1 < 2 ^ 64 }
    {
        let newest = self.open - 1;
        self.open = newest;
        self.items[newest].restore(texts, lists, results)
    }

    /// The first word of the newest list that the newest has saved becomes a variable's, and the result that it has saved: tells whether that is done. Else
    /// all is as it was.
    #[inline(always)]
    pub(crate) fn deal(&mut self, alloc: Global, frames: &mut Frames, name: &Sought<'_>) -> bool
        requires { 1 ≤ length self.old }
        ensures { DealsNewest result name.now frames.old frames.new self.old self.new }
    {
        let newest = self.open - 1;
        self.items[newest].deal(alloc, frames, name)
    }

    /// The newest of these results is one more word of the list under the newest that the newest has saved, where there is one: tells whether that is done.
    /// Where memory is refused all is as it was.
    #[inline(always)]
    pub(crate) fn collect(&mut self, alloc: Global, results: &mut Results) -> bool
        requires loops { 1 ≤ length self.old }
        requires results { 1 ≤ length results.old }
        ensures { CollectsNewest result results.old results.new self.old self.new }
    {
        let newest = self.open - 1;
        self.items[newest].collect(alloc, results)
    }
}
