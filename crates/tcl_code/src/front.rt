//! The front of a code that grows: instructions that were found valid by themselves.

ghost use Rattle.std.specs.Prelude.{◌≡◌, ◌≤◌, IfOk, List, drop, length};
ghost use Rattle.tcl_code.specs.Front.{IsFront};
ghost use Rattle.tcl_code.specs.Instructions.{Instruction};
ghost use Rattle.tcl_code.specs.Search.{Decides};
ghost use Rattle.tcl_code.specs.Shown.{CodeTexts, instructions};

use crate::instr::Instr;
use crate::search::decide;
use crate::shape::Shape;
use std::alloc::{AllocError, Global};

/// A part of as many instructions is decided at once: what is noted of its places takes little room.
const PART: usize = 65_536;

/// The instructions at the front that were found valid by themselves.
#[derive(Clone, Copy)]
pub(crate) struct Front {
    /// How many there are.
    pub(crate) count: usize,
    /// What covers all that is reached in them.
    pub(crate) top: Shape,
    /// How many instructions there were when those behind the front were last tried.
    pub(crate) tried: usize,
}

/// The instructions behind so many.
fn behind(code: &[Instr], count: usize) -> &[Instr]
    requires { count ≤ length code.now }
    ensures { result.now ≡ drop count code.now }
{
    &code[count..]
}

impl Front {
    /// None yet.
    pub(crate) fn new() -> Front
        ensures none { result.count ≡ 0 }
        ensures front { (code : List Instruction) → IsFront code result.count result.top }
    {
        Front {
            count: 0,
            top: Shape::bare(),
            tried: 0,
        }
    }

    /// Are so many instructions enough for a part behind those that were tried?
    pub(crate) fn is_due(self, count: usize) -> bool {
        count.saturating_sub(self.tried) >= PART
    }

    /// What is left of it where the instruction at a place becomes another: all of it or nothing.
    pub(crate) fn before(self, place: usize) -> Front
        ensures front { (code : List Instruction) → IsFront code self.count self.top → IsFront code result.count result.top }
        ensures before { result.count ≤ place }
    {
        if self.count <= place {
            return self;
        }
        Front {
            tried: self.tried,
            ..Front::new()
        }
    }

    /// The front with all of these instructions, if those behind it are valid by themselves. Those that aren't are tried again with the next part.
    pub(crate) fn grown(self, alloc: Global, code: &[Instr]) -> Result<Front, AllocError>
        requires { self.count ≤ length code.now }
        ensures { IfOk result (λ front. (texts : CodeTexts) → IsFront (instructions texts code.now) self.count self.top → IsFront (instructions texts code.now) front.count front.top) }
    {
        let tried = code.len();
        match decide(alloc, behind(code, self.count))? {
            Some(top) => Ok(Front {
                count: tried,
                top: self.top.covering(top),
                tried,
            }),
            None => Ok(Front { tried, ..self }),
        }
    }
}

/// The shape that covers all that is reached in a code, whatever its texts, if it is valid. Those behind its front are decided by themselves, and
/// all of it only where they aren't valid: a jump may lead across.
pub(crate) fn decide_behind(
    alloc: Global,
    front: Front,
    code: &[Instr],
) -> Result<Option<Shape>, AllocError>
    requires { front.count ≤ length code.now }
    ensures { IfOk result (λ top. (texts : CodeTexts) → IsFront (instructions texts code.now) front.count front.top → Decides top (instructions texts code.now)) }
{
    if front.count == 0 {
        return decide(alloc, code);
    }
    match decide(alloc, behind(code, front.count))? {
        Some(top) => Ok(Some(front.top.covering(top))),
        None => decide(alloc, code),
    }
}
