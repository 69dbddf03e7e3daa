//! The search for the shape at each place of a code, over all ways from the start.

ghost use Rattle.std.specs.Prelude.{◌≡◌, ◌+◌, ◌<◌, ◌≤◌, ◌++◌, ◌∷◌, [], false, true, IfOk, IfSome, List, None, Some, length, ℕ};
ghost use Rattle.tcl_code.specs.Search.{Closed, Decides, Has, Noted, Sound, left_over, listed, maybe_one, shape_at};
ghost use Rattle.tcl_code.specs.Shown.{CodeTexts, instructions, no_texts};
ghost use Rattle.tcl_code.specs.Valid.{IsWithin, Valid, bare};
ghost use Rattle.tcl_code.specs.declared.shape.Shape.{Shape};

use crate::instr::Instr;
use crate::notes::Found;
use crate::shape::{Reached, Shape, inner_at, leads_to, stays_inside};
use std::alloc::{AllocError, Global};

/// The shapes that were found, and the places that weren't looked at yet.
#[derive(Drop)]
struct Search {
    shapes: Found,
    pending: Vec<usize>,
}

/// Where a place stands among those that wait, of which the farthest stand first.
fn rank(pending: &[usize], place: usize) -> usize
    ensures { result ≤ length pending.now }
{
    for index in (0..pending.len()).rev() {
        if pending[index] >= place {
            return index + 1;
        }
    }
    0
}

/// Has a place wait.
fn wait(pending: &mut Vec<usize>, place: usize) -> Result<(), AllocError>
    ensures there { IfOk result (λ _. Has pending.new.items place) }
    ensures kept { IfOk result (λ _. (p : ℕ) → Has pending.old.items p → Has pending.new.items p) }
    ensures long { IfOk result (λ _. length pending.new.items ≡ length pending.old.items + 1) }
{
    let index = rank(pending.as_slice(), place);
    pending.insert(index, place)?;
    Ok(())
}

impl Search {
    /// Does a shape fit what was found at a place? It is noted where nothing was.
    fn note(&mut self, place: usize, shape: Shape) -> Result<bool, AllocError>
        requires { place < length self.old.shapes }
        ensures { IfOk result (λ fits. Noted fits (place ∷ []) shape self.old.shapes self.old.pending.items self.new.shapes self.new.pending.items) }
    {
        match self.shapes.at(place) {
            Some(found) => Ok(found.same(shape)),
            None => {
                wait(&mut self.pending, place)?;
                self.shapes.put(place, shape)?;
                Ok(true)
            }
        }
    }

    /// The same at a place, if there is one.
    fn note_at(&mut self, place: Option<usize>, shape: Shape) -> Result<bool, AllocError>
        requires { IfSome place (λ p. p < length self.old.shapes) }
        ensures { IfOk result (λ fits. Noted fits (maybe_one place) shape self.old.shapes self.old.pending.items self.new.shapes self.new.pending.items) }
    {
        match place {
            Some(place) => self.note(place, shape),
            None => Ok(true),
        }
    }

    /// The same at each place that is reached.
    fn note_all(&mut self, reached: Reached, shape: Shape) -> Result<bool, AllocError>
        requires first { IfSome reached.first (λ p. p < length self.old.shapes) }
        requires second { IfSome reached.second (λ p. p < length self.old.shapes) }
        ensures { IfOk result (λ fits. Noted fits (listed reached) shape self.old.shapes self.old.pending.items self.new.shapes self.new.pending.items) }
    {
        if !self.note_at(reached.first, shape)? {
            return Ok(false);
        }
        let fits = self.note_at(reached.second, shape)?;
        Ok(fits)
    }

    /// Looks at a place: does its instruction find what it needs and lead inside, and does all that it leads to fit?
    fn settle(&mut self, code: &[Instr], place: usize) -> Result<bool, AllocError>
        requires sound { Sound (instructions no_texts code.now) self.old.shapes }
        requires closed { Closed (instructions no_texts code.now) self.old.shapes (self.old.pending.items ++ place ∷ []) }
        requires long { length self.old.shapes ≡ length code.now + 1 }
        ensures yes { IfOk result (λ fits. fits ≡ true → Sound (instructions no_texts code.now) self.new.shapes × Closed (instructions no_texts code.now) self.new.shapes self.new.pending.items) }
        ensures no { IfOk result (λ fits. fits ≡ false → Valid (instructions no_texts code.now) → ⊥) }
        ensures kept { IfOk result (λ _. (p : ℕ) (s : Shape) → shape_at self.old.shapes p ≡ Some s → shape_at self.new.shapes p ≡ Some s) }
        ensures long { IfOk result (λ _. length self.new.shapes ≡ length self.old.shapes) }
        ensures less { IfOk result (λ _. left_over self.new.shapes self.new.pending.items ≤ left_over self.old.shapes self.old.pending.items) }
    {
        let shape = match self.shapes.at(place) {
            None => return Ok(true),
            Some(shape) => shape,
        };
        match code.get(place) {
            None => Ok(shape.is_end(place, code.len())),
            Some(instr) => {
                if !shape.suits(*instr) {
                    return Ok(false);
                }
                if !stays_inside(place, code.len(), *instr) {
                    return Ok(false);
                }
                let left = shape.after(*instr)?;
                if !self.note_all(leads_to(place, code.len(), *instr), left)? {
                    return Ok(false);
                }
                let inner = shape.inner(*instr)?;
                let fits = self.note_at(inner_at(place, code.len(), *instr), inner)?;
                Ok(fits)
            }
        }
    }
}

/// No shape is known yet.
fn nothing(alloc: Global, count: usize) -> Result<Search, AllocError>
    ensures none { IfOk result (λ s. (p : ℕ) → shape_at s.shapes p ≡ None) }
    ensures long { IfOk result (λ s. length s.shapes ≡ count) }
    ensures pending { IfOk result (λ s. s.pending.items ≡ []) }
{
    Ok(Search {
        shapes: Found::new(alloc, count)?,
        pending: Vec::new(alloc),
    })
}

/// The start is known, and waits.
fn started(alloc: Global, count: usize) -> Result<Search, AllocError>
    requires { 0 < count }
    ensures start { IfOk result (λ s. shape_at s.shapes 0 ≡ Some bare) }
    ensures sound { IfOk result (λ s. (code : List Instr) → Sound (instructions no_texts code) s.shapes) }
    ensures closed { IfOk result (λ s. (code : List Instr) → Closed (instructions no_texts code) s.shapes s.pending.items) }
    ensures long { IfOk result (λ s. length s.shapes ≡ count) }
{
    let mut search = nothing(alloc, count)?;
    let _fits = search.note(0, Shape::bare())?;
    Ok(search)
}

/// The shape that covers all that is reached in a code, whatever its texts, if it is valid.
pub(crate) fn decide(alloc: Global, code: &[Instr]) -> Result<Option<Shape>, AllocError>
    ensures { IfOk result (λ top. (texts : CodeTexts) → Decides top (instructions texts code.now)) }
{
    let mut search = started(alloc, code.len() + 1)?;
    while let Some(place) = search.pending.pop() {
        if !search.settle(code, place)? {
            return Ok(None);
        }
    }
    Ok(Some(search.shapes.top()))
}
