//! A code, valid by its type.

ghost use Rattle.std.specs.Prelude.{◌≡◌, ◌<◌, IfOk, IfSome, Some, length, option_map, slice_get};
ghost use Rattle.tcl_code.specs.Shown.{IsKnown, shown, shown_by};
ghost use Rattle.tcl_code.specs.Turns.{turns_of};
ghost use Rattle.tcl_code.specs.Valid.{Covers, Valid};

use crate::instr::Instr;
use crate::shape::Shape;
use crate::texts::Texts;
use std::alloc::{AllocError, Global};
use std::marker::Model;
use tcl_values::Value;

/// A valid code: its instructions and their texts.
#[derive(Drop)]
pub struct Code {
    pub(crate) instrs: Vec<Instr>,
    pub(crate) texts: Texts,
    pub(crate) top: Shape,
}

impl Model for Code {
    ghost use Rattle.tcl_code.specs.Shown.{AllKnown, Listing, instructions, listing};
    ghost use Rattle.tcl_code.specs.Valid.{Covers, Valid};

    ghost Value = { Listing };

    ghost view = { λ c. listing c.instrs.items c.texts };

    ghost invariant = { λ c. Valid (instructions c.texts c.instrs.items) × Covers (instructions c.texts c.instrs.items) c.top × AllKnown c.texts c.instrs.items };
}

/// The instruction at a place, if there is one.
#[inline(always)]
fn item(instrs: &[Instr], place: usize) -> Option<Instr>
    ensures { result ≡ slice_get instrs.now place }
{
    instrs.get(place).copied()
}

impl Code {
    /// How many instructions there are.
    pub fn len(&self) -> usize
        ensures { result ≡ length self.now.instrs }
    {
        self.instrs.len()
    }

    /// How many turns back there are: one for each loop that is inlined.
    pub fn turns(&self) -> usize
        ensures { result ≡ turns_of (shown_by self.now) }
    {
        self.instrs
            .iter()
            .filter(|instr| matches!(instr, Instr::Turn(_)))
            .count()
    }

    /// The most texts, lists of words and brackets that are ever there, so that room can be made for them at once.
    pub fn top(&self) -> Shape
        ensures { Covers (shown_by self.now) result }
    {
        self.top
    }

    /// The instruction at a place, if there is one.
    #[inline(always)]
    pub fn instr(&self, place: usize) -> Option<Instr>
        ensures instr { result ≡ slice_get self.now.instrs place }
        ensures shown { slice_get (shown_by self.now) place ≡ option_map (shown self.now.texts) result }
        ensures known { IfSome result (λ i. IsKnown self.now.texts i) }
        ensures valid { Valid (shown_by self.now) }
    {
        item(self.instrs.as_slice(), place)
    }

    /// The kept text of a number.
    #[inline(always)]
    pub fn text(&self, number: u32) -> &Value
        requires { number < length self.now.texts.kept }
        ensures { slice_get self.now.texts.kept number ≡ Some result.now }
    {
        self.texts.kept(number)
    }

    /// The text of a number among those that are rarely asked for. It is made for who asks.
    pub fn rare_text(&self, alloc: Global, number: u32) -> Result<Value, AllocError>
        requires { number < length self.now.texts.rare }
        ensures { IfOk result (λ v. slice_get self.now.texts.rare number ≡ Some v) }
    {
        self.texts.rare(alloc, number)
    }
}
