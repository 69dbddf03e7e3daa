//! The frames that stand, without their variables: who called whom, and which names are links.
ghost use Rattle.std.specs.Prelude.{◌≡◌, ℕ, List, true, false, is_some, ◌<◌, ◌≤◌, ◌^◌, suc, length, take, ◌++◌, ◌∷◌, [], Some, None, IfOk, IfSome, OnOk, OnErr};
ghost use Rattle.std.specs.FinMap as map;
ghost use Rattle.std.specs.Str.{chars};
ghost use Rattle.std.specs.Option.{option_copied};
ghost use Rattle.tcl_meaning.specs.Frames.{global_frame, frame_at, frame_of_level, up, at};
ghost use Rattle.tcl_meaning.specs.Links.{links_of, link_at, destination, is_own};
ghost use Rattle.tcl_meaning.specs.State.{Commands, with_link};
ghost use Rattle.tcl_frames.specs.Standing.{store_of, called, left};
ghost use Rattle.tcl_frames.specs.Parts.{part_of};
ghost use Rattle.tcl_frames.specs.Places.{spot, spot_of};
ghost use Rattle.tcl_frames.specs.Levels.{level_of};
ghost use Rattle.tcl_frames.specs.NameSets.{with_names};
ghost use Rattle.tcl_meaning.specs.SeenPages.{names_of};

use crate::level::Level;
use crate::name::Part;
use crate::name_set::add_names;
use crate::place::{Link, Place};
use std::alloc::{AllocError, Global};
use std::marker::Model;
use tcl_names::NameMap;

/// A frame, without its variables.
#[derive(Drop)]
pub(crate) struct Call {
    caller: usize,
    level: usize,
    links: NameMap<Link>,
}

impl Model for Call {
    ghost use Rattle.tcl_meaning.specs.Frames.{Frame};
    ghost use Rattle.tcl_frames.specs.Coding.{frame_code};

    ghost Value = { Frame };

    ghost coded = { frame_code };

    ghost use Rattle.tcl_frames.specs.CallShape.{frame_of};

    ghost view = { frame_of };
}

impl Call {
    // Is no name a link?
    #[inline(always)]
    fn has_no_link(&self) -> bool
        ensures { result ≡ true → self.now.links ≡ map.empty }
    {
        self.links.is_empty()
    }

    // The link that a name is.
    #[inline]
    fn link(&self, name: &str) -> Option<&Link>
        ensures { option_copied result ≡ map.get self.now.links (chars name.now) }
    {
        if self.links.is_empty() {
            return None;
        }
        self.links.get(name)
    }

    fn caller(&self) -> usize
        ensures { result ≡ self.now.caller }
    {
        self.caller
    }

    fn level(&self) -> usize
        ensures { result ≡ self.now.level }
    {
        self.level
    }

    // Puts the names of the links into a set of names.
    fn add_links(&self, alloc: Global, names: &mut NameMap<()>) -> Result<(), AllocError>
        ensures { OnOk result (names.new ≡ with_names names.old (names_of self.now.links)) }
    {
        add_names(alloc, names, &self.links)
    }

    // Makes a name a link.
    fn set_link(&mut self, alloc: Global, name: &str, target: Link) -> Result<(), AllocError>
        ensures done { OnOk result (self.new ≡ record self.old { links = map.insert self.old.links (chars name.now) target }) }
        ensures same { OnErr result (self.new ≡ self.old) }
    {
        self.links.insert(alloc, name, target)
    }
}

/// The frames that stand, without their variables.
#[derive(Drop)]
pub(crate) struct Stack {
    calls: Vec<Call>,
    active: usize,
}

impl Model for Stack {
    ghost use Rattle.tcl_frames.specs.Standing.{Standing};
    ghost use Rattle.tcl_frames.specs.Coding.{standing_code};

    ghost Value = { Standing };

    ghost coded = { standing_code };

    ghost use Rattle.tcl_frames.specs.StackShape.{standing_of, IsStack};

    ghost view = { standing_of };

    ghost invariant = { IsStack };
}

// Is no name of a frame a link?
#[inline(always)]
fn links_none(calls: &[Call], frame: usize) -> bool
    ensures { result ≡ true → (name : List ℕ) → link_at (links_of calls.now) frame name ≡ None }
{
    if frame < calls.len() {
        let call = &calls[frame];
        call.has_no_link()
    } else {
        true
    }
}

// The link that a name of a frame is.
fn find<'a>(calls: &'a [Call], frame: usize, name: &str) -> Option<&'a Link>
    ensures { option_copied result ≡ link_at (links_of calls.now) frame (chars name.now) }
{
    if frame < calls.len() {
        let call = &calls[frame];
        call.link(name)
    } else {
        None
    }
}

// How many frames there are.
fn count(calls: &[Call]) -> usize
    ensures is { result ≡ length calls.now }
    ensures fits { result < 2 ^ 63 }
{
    calls.len()
}

impl Stack {
    /// The global frame alone.
    pub(crate) fn new(alloc: Global) -> Result<Stack, AllocError>
        ensures frames { IfOk result (λ s. s.frames ≡ global_frame map.empty ∷ []) }
        ensures active { IfOk result (λ s. s.active ≡ 0) }
    {
        let mut calls = Vec::new(alloc);
        calls.push(Call {
            caller: 0,
            level: 0,
            links: NameMap::new(alloc),
        })?;
        Ok(Stack { calls, active: 0 })
    }

    /// The active frame.
    #[inline(always)]
    pub(crate) fn active(&self) -> usize
        ensures active { result ≡ self.now.active }
        ensures there { result < length self.now.frames }
    {
        self.active
    }

    /// Is no name of the active frame a link?
    #[inline(always)]
    pub(crate) fn has_no_link(&self) -> bool
        ensures { result ≡ true → (name : List ℕ) → link_at (links_of self.now.frames) self.now.active name ≡ None }
    {
        links_none(&self.calls, self.active)
    }

    /// How many frames stand.
    pub(crate) fn count(&self) -> usize
        ensures { result ≡ length self.now.frames }
    {
        self.calls.len()
    }

    /// The place to which a part of a name of a frame leads.
    #[inline(always)]
    pub(crate) fn follow<'a>(&'a self, frame: usize, name: &'a str, part: Part<'a>) -> Place<'a>
        ensures leads { spot_of result ≡ destination self.now.frames (spot frame (chars name.now) (part_of part.entry)) }
        ensures earlier { result.frame ≤ frame }
        ensures free { link_at (links_of self.now.frames) result.frame (chars result.name.now) ≡ None }
    {
        if links_none(&self.calls, frame) {
            return Place { frame, name, part };
        }
        self.follow_links(frame, name, part)
    }

    // The same, where the frame may have links.
    #[inline(never)]
    fn follow_links<'a>(&'a self, frame: usize, name: &'a str, part: Part<'a>) -> Place<'a>
        ensures leads { spot_of result ≡ destination self.now.frames (spot frame (chars name.now) (part_of part.entry)) }
        ensures earlier { result.frame ≤ frame }
        ensures free { link_at (links_of self.now.frames) result.frame (chars result.name.now) ≡ None }
    {
        let mut at_frame = frame;
        let mut at_name = name;
        let mut at_part = part;
        while let Some(link) = find(&self.calls, at_frame, at_name) {
            let on = link.through(at_part);
            at_frame = on.frame;
            at_name = on.name;
            at_part = on.part;
        }
        Place {
            frame: at_frame,
            name: at_name,
            part: at_part,
        }
    }
}

// How frames call one another.
impl Stack {
    /// The level of the active frame.
    pub(crate) fn level(&self) -> usize
        ensures { result ≡ (frame_at self.now.frames self.now.active).level }
    {
        self.calls[self.active].level()
    }

    // The frame that is `count` callers up from the active one, if there is one.
    fn caller_up(&self, count: usize) -> Option<usize>
        ensures found { result ≡ frame_of_level self.now.frames self.now.active (up count) }
        ensures earlier { IfSome result (λ i. i ≤ self.now.active) }
    {
        let mut frame = self.active;
        let mut left = count;
        let mut above = self.level();
        'up: while left > 0 {
            if above == 0 {
                return None;
            }
            frame = self.calls[frame].caller();
            left -= 1;
            above -= 1;
        }
        Some(frame)
    }

    // The frame of a level, among the active one and its callers.
    fn caller_at(&self, level: usize) -> Option<usize>
        ensures found { result ≡ frame_of_level self.now.frames self.now.active (at level) }
        ensures earlier { IfSome result (λ i. i ≤ self.now.active) }
    {
        let mut frame = self.active;
        let mut above = self.level();
        'up: while self.calls[frame].level() != level {
            if above == 0 {
                return None;
            }
            frame = self.calls[frame].caller();
            above -= 1;
        }
        Some(frame)
    }

    /// No level is as large as 2^63.
    pub(crate) fn levels_fit(&self)
        ensures up { (n : ℕ) → 2 ^ 63 ≤ n → frame_of_level self.now.frames self.now.active (up n) ≡ None }
        ensures at { (n : ℕ) → 2 ^ 63 ≤ n → frame_of_level self.now.frames self.now.active (at n) ≡ None }
    {
        count(&self.calls);
    }

    /// The frame that a level means.
    pub(crate) fn frame_of(&self, level: Level) -> Option<usize>
        ensures found { result ≡ frame_of_level self.now.frames self.now.active (level_of level) }
        ensures there { IfSome result (λ i. i < length self.now.frames) }
        ensures earlier { IfSome result (λ i. i ≤ self.now.active) }
    {
        let _active = self.active();
        match level {
            Level::Up(count) => self.caller_up(count),
            Level::At(level) => self.caller_at(level),
        }
    }

    /// Makes another frame the active one, and answers which one was.
    pub(crate) fn activate(&mut self, frame: usize) -> usize
        requires { frame < length self.old.frames }
        ensures active { self.new ≡ record self.old { active = frame } }
        ensures before { result ≡ self.old.active }
        ensures there { result < length self.old.frames }
    {
        let before = self.active;
        self.active = frame;
        before
    }

    /// Adds a frame that the active one calls, and makes it the active one.
    pub(crate) fn push(&mut self, alloc: Global) -> Result<(), AllocError>
        ensures done { OnOk result (self.new ≡ called self.old) }
        ensures same { OnErr result (self.new ≡ self.old) }
    {
        let level = self.level() + 1;
        self.calls.push(Call {
            caller: self.active,
            level,
            links: NameMap::new(alloc),
        })?;
        self.active = self.calls.len() - 1;
        Ok(())
    }

    /// Drops the last frame, and makes its caller the active one.
    pub(crate) fn pop(&mut self)
        requires { 1 < length self.old.frames }
        ensures { self.new ≡ left self.old }
    {
        match self.calls.pop() {
            Some(call) => self.active = call.caller(),
            None => unreachable!(),
        }
    }

    /// Is a name of a frame a link?
    #[inline(always)]
    pub(crate) fn is_link(&self, frame: usize, name: &str) -> bool
        ensures { result ≡ is_some (link_at (links_of self.now.frames) frame (chars name.now)) }
    {
        find(&self.calls, frame, name).is_some()
    }

    /// Puts the names of the active frame's links into a set of names.
    pub(crate) fn add_links(&self, alloc: Global, names: &mut NameMap<()>) -> Result<(), AllocError>
        ensures { OnOk result (names.new ≡ with_names names.old (names_of (frame_at self.now.frames self.now.active).links)) }
    {
        self.calls[self.active].add_links(alloc, names)
    }

    /// Makes a name of the active frame a link to a place that is none.
    pub(crate) fn set_link(
        &mut self,
        alloc: Global,
        name: &str,
        target: Link,
    ) -> Result<(), AllocError>
        requires earlier { target.frame ≤ self.old.active }
        requires free { link_at (links_of self.old.frames) target.frame target.name ≡ None }
        requires apart { is_own (store_of map.empty self.old) (chars name.now) target ≡ false }
        ensures done { (cs : Commands) → OnOk result (store_of cs self.new ≡ with_link (chars name.now) target (store_of cs self.old)) }
        ensures same { OnErr result (self.new ≡ self.old) }
    {
        let active = self.active;
        self.calls[active].set_link(alloc, name, target)
    }
}
