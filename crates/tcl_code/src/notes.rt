//! The shapes that were found at the places of a code.

ghost use Rattle.std.specs.Prelude.{◌≡◌, ◌<◌, false, true, IfOk, IfSome, List, None, Some, length, slice_set, ℕ};
ghost use Rattle.tcl_code.specs.Search.{HasMore, numbered, shape_at};
ghost use Rattle.tcl_code.specs.Valid.{IsWithin};
ghost use Rattle.tcl_code.specs.declared.shape.Shape.{Shape};

use crate::builder::{narrow, push_item};
use crate::numbers::Numbers;
use crate::shape::Shape;
use std::alloc::{AllocError, Global};
use std::marker::Model;

/// How many slots there are for the numbers of shapes that were seen.
const SLOTS: usize = 256;

/// How many slots a shape may be in.
const TRIES: usize = 32;

/// The shape that was found at each place of a code. Few differ, so each is kept once, and a place has its number: one more than its
/// index, or 0 where no shape was found.
#[derive(Drop)]
pub(crate) struct Found {
    shapes: Vec<Shape>,
    numbers: Numbers,
    // numbers of shapes: what one says is looked up, so it may say nothing
    slots: [u32; SLOTS],
    alloc: Global,
}

impl Model for Found {
    ghost use Rattle.std.specs.Prelude.{length};
    ghost use Rattle.tcl_code.specs.Search.{AllWithin, Shapes, all_numbered, numbers_in};

    ghost Value = { Shapes };

    ghost view = { λ f. all_numbered f.shapes.items (numbers_in f.numbers) };

    ghost invariant = { λ f. AllWithin (length f.shapes.items) (numbers_in f.numbers) };
}

/// The first slot of a shape.
fn slot_of(shape: Shape) -> usize
    ensures { result < 256 }
{
    let Shape {
        height,
        lists,
        depth,
        paid,
        loops,
    } = shape;
    let sum = (height % 256)
        + 11 * (paid % 256)
        + 47 * (depth % 256)
        + 101 * (loops % 256)
        + 191 * (lists % 256);
    sum as usize % SLOTS
}

/// The shape of a number.
fn shape_of(shapes: &[Shape], number: usize) -> Option<Shape>
    ensures { result ≡ numbered shapes.now number }
{
    if number == 0 {
        return None;
    }
    shapes.get(number - 1).copied()
}

/// Is this the number of a shape?
fn is_number(shapes: &[Shape], number: u32, shape: Shape) -> bool
    ensures { result ≡ true → numbered shapes.now number ≡ Some shape }
{
    match shape_of(shapes, number as usize) {
        Some(found) => found.same(shape),
        None => false,
    }
}

/// The number of a shape, where a slot has it.
fn seek(shapes: &[Shape], slots: &[u32; SLOTS], shape: Shape) -> Option<u32>
    ensures { IfSome result (λ n. numbered shapes.now n ≡ Some shape) }
{
    let first = slot_of(shape);
    for step in 0..TRIES {
        let number = slots[(first + step) % SLOTS];
        if number == 0 {
            return None;
        }
        if is_number(shapes, number, shape) {
            return Some(number);
        }
    }
    None
}

/// Puts the number of a shape into a slot of its own, or in the place of another.
fn note_slot(slots: &mut [u32; SLOTS], shape: Shape, number: u32) {
    let first = slot_of(shape);
    for step in 0..TRIES {
        let slot = (first + step) % SLOTS;
        if slots[slot] == 0 {
            slots[slot] = number;
            return;
        }
    }
    slots[first] = number;
}

/// The number of a shape, which is put at the end of those that were found where no slot has it.
#[tactic(auto, using(crate::proofs::Numbering::numbered_end, crate::proofs::Numbering::more_none, crate::proofs::Numbering::more_one))]
fn number_of(
    shapes: &mut Vec<Shape>,
    slots: &mut [u32; SLOTS],
    shape: Shape,
) -> Result<u32, AllocError>
    ensures number { IfOk result (λ n. numbered shapes.new.items n ≡ Some shape) }
    ensures more { HasMore shapes.old.items shapes.new.items }
{
    if let Some(number) = seek(shapes.as_slice(), slots, shape) {
        return Ok(number);
    }
    push_item(shapes, shape)?;
    let number = narrow(shapes.len())?;
    note_slot(slots, shape, number);
    Ok(number)
}

/// A shape that covers all of these.
fn covering(shapes: &[Shape]) -> Shape
    ensures { (n : ℕ) (s : Shape) → numbered shapes.now n ≡ Some s → IsWithin s result }
{
    let mut top = Shape::bare();
    for shape in shapes {
        top = top.covering(*shape);
    }
    top
}

impl Found {
    /// No shape at each of `count` places.
    pub(crate) fn new(alloc: Global, count: usize) -> Result<Found, AllocError>
        ensures none { IfOk result (λ found. (p : ℕ) → shape_at found p ≡ None) }
        ensures long { IfOk result (λ found. length found ≡ count) }
    {
        Ok(Found {
            shapes: Vec::new(alloc),
            numbers: Numbers::new(alloc, count)?,
            slots: [0; SLOTS],
            alloc,
        })
    }

    /// The shape at a place, where one was found.
    pub(crate) fn at(&self, place: usize) -> Option<Shape>
        ensures { result ≡ shape_at self.now place }
    {
        match self.numbers.at(place) {
            Some(number) => shape_of(self.shapes.as_slice(), number),
            None => None,
        }
    }

    /// Puts a shape at a place.
    #[tactic(auto, using(crate::proofs::Numbering::place_within, crate::proofs::Numbering::put_there, crate::proofs::Numbering::put_within, crate::proofs::Numbering::still_within))]
    pub(crate) fn put(&mut self, place: usize, shape: Shape) -> Result<(), AllocError>
        requires { place < length self.old }
        ensures { IfOk result (λ _. self.new ≡ slice_set self.old place (Some shape)) }
    {
        let number = number_of(&mut self.shapes, &mut self.slots, shape)?;
        self.numbers.put(self.alloc, place, number)?;
        Ok(())
    }

    /// A shape that covers those that were found.
    pub(crate) fn top(&self) -> Shape
        ensures { (p : ℕ) (s : Shape) → shape_at self.now p ≡ Some s → IsWithin s result }
    {
        covering(self.shapes.as_slice())
    }
}
