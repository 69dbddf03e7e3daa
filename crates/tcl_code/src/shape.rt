//! What stands there on a way through a code, and what an instruction makes of it.

ghost use Rattle.std.specs.Prelude.{◌≡◌, ◌+◌, ◌-◌, ◌<◌, ◌≤◌, ◌^◌, ◌∷◌, [], ◌↔◌, IfOk, IfSome, IsTrue, length};
ghost use Rattle.tcl_code.specs.Search.{StaysInside, begun, listed, maybe_one, reached};
ghost use Rattle.tcl_code.specs.Shown.{no_texts, shown, textual};
ghost use Rattle.tcl_pages.specs.Texts.{Text};
ghost use Rattle.tcl_code.specs.Valid.{IsEager, IsFine, IsWithin, bare, bare_in, inner, left_by, with_texts};

use crate::instr::{Instr, TextInstr};
use std::alloc::AllocError;
use tcl_expr::BinaryOp;

/// How many texts and lists of words are there; how many brackets are open; how many commands have been paid for that
/// haven't been called yet, all in the innermost loop's body; and how many loops' bodies run. There is one result more than
/// brackets are open.
#[derive(Clone, Copy, Debug, PartialEq, Eq)]
pub struct Shape {
    pub height: u32,
    pub lists: u32,
    pub depth: u32,
    pub paid: u32,
    pub loops: u32,
}

/// The places that an instruction leads to.
#[derive(Clone, Copy)]
pub(crate) struct Reached {
    pub(crate) first: Option<usize>,
    pub(crate) second: Option<usize>,
}

/// One more, as far as can be counted.
fn one_more(count: u32) -> Result<u32, AllocError>
    ensures { IfOk result (λ m. m ≡ count + 1) }
{
    count.checked_add(1).ok_or(AllocError)
}

/// Does an operator take both texts?
fn is_eager(op: BinaryOp) -> bool
    ensures { IsTrue result ↔ IsEager op }
{
    !matches!(op, BinaryOp::And | BinaryOp::Or)
}

impl Shape {
    /// What stands there at the start and at the end.
    pub(crate) fn bare() -> Shape
        ensures { result ≡ bare }
    {
        Shape {
            height: 0,
            lists: 0,
            depth: 0,
            paid: 0,
            loops: 0,
        }
    }

    /// Are they the same?
    pub(crate) fn same(self, other: Shape) -> bool
        ensures { IsTrue result ↔ (self ≡ other) }
    {
        self.height == other.height
            && self.lists == other.lists
            && self.depth == other.depth
            && self.paid == other.paid
            && self.loops == other.loops
    }

    /// The greater of each.
    pub(crate) fn covering(self, other: Shape) -> Shape
        ensures this { IsWithin self result }
        ensures other { IsWithin other result }
    {
        Shape {
            height: self.height.max(other.height),
            lists: self.lists.max(other.lists),
            depth: self.depth.max(other.depth),
            paid: self.paid.max(other.paid),
            loops: self.loops.max(other.loops),
        }
    }

    /// Is this place the end of a code of `count` instructions, with nothing left?
    pub(crate) fn is_end(self, place: usize, count: usize) -> bool
        ensures { IsTrue result ↔ ((place ≡ count) × (self ≡ bare)) }
    {
        place == count && self.loops == 0 && self.has_nothing()
    }

    /// Does nothing stand there but loops?
    fn has_nothing(self) -> bool
        ensures { IsTrue result ↔ (self ≡ bare_in self.loops) }
    {
        self.height == 0 && self.lists == 0 && self.depth == 0 && self.paid == 0
    }

    /// What stands where an instruction leads with another shape.
    pub(crate) fn inner(self, instr: Instr) -> Result<Shape, AllocError>
        ensures { IfOk result (λ s. s ≡ inner (shown no_texts instr) self) }
    {
        match instr {
            Instr::Guard(_, _) => Ok(Shape {
                paid: self.paid.saturating_sub(1),
                ..self
            }),
            _ => Ok(Shape {
                height: 0,
                lists: 0,
                depth: 0,
                paid: 0,
                loops: one_more(self.loops)?,
            }),
        }
    }

    /// With `less` texts taken away, and then `more` put there.
    fn with_texts(self, less: u32, more: u32) -> Result<Shape, AllocError>
        ensures { IfOk result (λ s. s ≡ with_texts less more self) }
    {
        let height = self
            .height
            .saturating_sub(less)
            .checked_add(more)
            .ok_or(AllocError)?;
        Ok(Shape { height, ..self })
    }

    /// What an instruction leaves.
    pub(crate) fn after(self, instr: Instr) -> Result<Shape, AllocError>
        ensures { IfOk result (λ s. s ≡ left_by (shown no_texts instr) self) }
    {
        match instr {
            Instr::Push(_)
            | Instr::Read(_)
            | Instr::ReadPairs(_)
            | Instr::ReadList(_)
            | Instr::Rare(TextInstr::Push | TextInstr::Read, _)
            | Instr::TakeFirst => self.with_texts(0, 1),
            Instr::ReadElement(_)
            | Instr::Rare(TextInstr::ReadElement, _)
            | Instr::Unary(_)
            | Instr::Truth
            | Instr::Final => self.with_texts(1, 1),
            Instr::Join(n) | Instr::Apply(_, n) => self.with_texts(n, 1),
            Instr::Binary(_) | Instr::Power => self.with_texts(2, 1),
            Instr::Add
            | Instr::AddAll
            | Instr::SkipWhen(_, _)
            | Instr::Answer
            | Instr::Write(_)
            | Instr::Bump(_)
            | Instr::Rare(TextInstr::Write | TextInstr::Bump, _) => self.with_texts(1, 0),
            Instr::Duplicate | Instr::Under(_) | Instr::Rare(TextInstr::Under, _) => {
                self.with_texts(1, 2)
            }
            Instr::Raise(_)
            | Instr::Rare(TextInstr::Raise, _)
            | Instr::Skip(_)
            | Instr::Turn(_)
            | Instr::Guard(_, _)
            | Instr::SkipEmpty(_)
            | Instr::Body(_, _)
            | Instr::Again
            | Instr::Collect
            | Instr::Return
            | Instr::Break
            | Instr::Continue => Ok(self),
            Instr::Deal(n) => Ok(Shape {
                height: self.height.saturating_sub(n),
                lists: one_more(self.lists)?,
                ..self
            }),
            Instr::DropList => Ok(Shape {
                lists: self.lists.saturating_sub(1),
                ..self
            }),
            Instr::Listed => Ok(Shape {
                height: one_more(self.height)?,
                lists: self.lists.saturating_sub(1),
                ..self
            }),
            Instr::Become => Ok(Shape {
                depth: self.depth.saturating_sub(1),
                ..self
            }),
            Instr::Spend | Instr::Begin(_) => Ok(Shape {
                paid: one_more(self.paid)?,
                ..self
            }),
            Instr::Gather => Ok(Shape {
                lists: one_more(self.lists)?,
                ..self
            }),
            Instr::Enter => Ok(Shape {
                depth: one_more(self.depth)?,
                ..self
            }),
            Instr::Leave => Ok(Shape {
                height: one_more(self.height)?,
                depth: self.depth.saturating_sub(1),
                ..self
            }),
            Instr::Call(n) | Instr::CallSlow(n) => Ok(Shape {
                height: self.height.saturating_sub(n),
                paid: self.paid.saturating_sub(1),
                ..self
            }),
            Instr::CallGathered => Ok(Shape {
                lists: self.lists.saturating_sub(1),
                paid: self.paid.saturating_sub(1),
                ..self
            }),
        }
    }

    /// Does an instruction that has a text find what it needs?
    fn suits_text(self, instr: TextInstr) -> bool
        ensures { (text : Text) → IsTrue result ↔ IsFine (textual instr text) self }
    {
        match instr {
            TextInstr::Push | TextInstr::Read | TextInstr::Raise => true,
            TextInstr::ReadElement | TextInstr::Under | TextInstr::Write | TextInstr::Bump =>
                self.height >= 1,
        }
    }

    /// Does an instruction find what it needs?
    pub(crate) fn suits(self, instr: Instr) -> bool
        ensures { IsTrue result ↔ IsFine (shown no_texts instr) self }
    {
        match instr {
            Instr::Push(_)
            | Instr::Read(_)
            | Instr::ReadPairs(_)
            | Instr::ReadList(_)
            | Instr::Spend
            | Instr::Begin(_)
            | Instr::Enter
            | Instr::Gather
            | Instr::Raise(_)
            | Instr::Skip(_)
            | Instr::Turn(_)
            | Instr::Body(_, _)
            | Instr::Break
            | Instr::Continue => true,
            Instr::TakeFirst | Instr::SkipEmpty(_) | Instr::DropList | Instr::Listed => {
                self.lists >= 1
            }
            Instr::Guard(_, _) => self.paid >= 1,
            Instr::Again | Instr::Collect => self.loops >= 1 && self.has_nothing(),
            Instr::ReadElement(_)
            | Instr::Duplicate
            | Instr::Return
            | Instr::SkipWhen(_, _)
            | Instr::Unary(_)
            | Instr::Truth
            | Instr::Final
            | Instr::Answer
            | Instr::Under(_)
            | Instr::Write(_)
            | Instr::Bump(_) => self.height >= 1,
            Instr::Rare(instr, _) => self.suits_text(instr),
            Instr::Join(n) | Instr::Apply(_, n) | Instr::Deal(n) => self.height >= n,
            Instr::Leave | Instr::Become => self.depth >= 1,
            Instr::Call(n) | Instr::CallSlow(n) => self.height >= n && self.paid >= 1,
            Instr::Add | Instr::AddAll => self.height >= 1 && self.lists >= 1,
            Instr::CallGathered => self.lists >= 1 && self.paid >= 1,
            Instr::Binary(op) => self.height >= 2 && is_eager(op),
            Instr::Power => self.height >= 2,
        }
    }
}

/// Does an instruction lead inside?
pub(crate) fn stays_inside(place: usize, count: usize, instr: Instr) -> bool
    requires { place < count }
    ensures { IsTrue result ↔ StaysInside place count (shown no_texts instr) }
{
    match instr {
        Instr::Skip(n) | Instr::SkipWhen(_, n) | Instr::SkipEmpty(n) | Instr::Guard(_, n) => {
            count - place - 1 >= n as usize
        }
        Instr::Body(_, n) => count - place - 1 > n as usize,
        Instr::Turn(n) => place >= n as usize,
        _ => true,
    }
}

/// The places that an instruction leads to, which are inside.
pub(crate) fn leads_to(place: usize, count: usize, instr: Instr) -> Reached
    requires at { place < count }
    requires inside { StaysInside place count (shown no_texts instr) }
    ensures { listed result ≡ reached place (shown no_texts instr) }
{
    let next = place + 1;
    match instr {
        Instr::Raise(_)
        | Instr::Rare(TextInstr::Raise, _)
        | Instr::Again
        | Instr::Collect
        | Instr::Return
        | Instr::Break
        | Instr::Continue => Reached {
            first: None,
            second: None,
        },
        Instr::Skip(n) | Instr::Guard(_, n) => Reached {
            first: Some(next + n as usize),
            second: None,
        },
        Instr::SkipWhen(_, n) | Instr::SkipEmpty(n) => Reached {
            first: Some(next),
            second: Some(next + n as usize),
        },
        Instr::Body(_, n) => Reached {
            first: Some(next + n as usize),
            second: Some(next + n as usize + 1),
        },
        Instr::Turn(n) => Reached {
            first: Some(place - n as usize),
            second: None,
        },
        _ => Reached {
            first: Some(next),
            second: None,
        },
    }
}

/// The place that an instruction leads to with another shape.
pub(crate) fn inner_at(place: usize, count: usize, instr: Instr) -> Option<usize>
    requires at { place < count }
    ensures place { maybe_one result ≡ begun place (shown no_texts instr) }
    ensures inside { IfSome result (λ p. p ≤ count) }
{
    match instr {
        Instr::Guard(_, _) | Instr::Body(_, _) => Some(place + 1),
        _ => None,
    }
}
