//! Values that are put on top of one another.
ghost use Rattle.std.specs.Prelude.{◌≡◌, ◌≤◌, ◌<◌, ◌∷◌, ◌++◌, Some, [], true, false, length, take, drop, reverse, vec_len, vec_capacity, OnOk, IfOk};
ghost use Rattle.std.specs.Borrow.{sem};
ghost use Rattle.tcl_activation.specs.Piles.{Lifts};
ghost use Rattle.tcl_activation.specs.PileLent.{LendsNewest, LendsSecond, LendsTop};

use std::alloc::{AllocError, Global};
use std::marker::Model;
use std::mem;
use tcl_values::Value;

/// Values that are put on top of one another. Contracts see a list, the newest first.
#[derive(Drop)]
pub struct Pile<T> {
    items: Vec<T>,
}

impl<T> Model for Pile<T> {
    ghost use Rattle.std.specs.Prelude.{List, reverse};
    ghost use Rattle.std.specs.Coded.{coded_list};

    ghost Value = { List T };

    ghost coded = { coded_list T.code };

    ghost view = { λ p. reverse p.items.items };
}

// Makes room for one more. It stands apart, so that what puts an item where room is stays small.
#[cold]
#[inline(never)]
pub(crate) fn grow<T>(items: &mut Vec<T>) -> Result<(), AllocError>
    ensures same { items.new.items ≡ items.old.items }
    ensures room { OnOk result (vec_len items.new < vec_capacity items.new) }
{
    items.reserve(1)
}

impl<T: Drop> Pile<T> {
    /// A pile with nothing on it.
    pub fn new(alloc: Global) -> Pile<T>
        ensures { result ≡ [] }
    {
        Pile {
            items: Vec::new(alloc),
        }
    }

    /// A pile with nothing on it, and room for `count` items.
    pub fn with_room(alloc: Global, count: u32) -> Result<Pile<T>, AllocError>
        ensures { IfOk result (λ p. p ≡ []) }
    {
        Ok(Pile {
            items: Vec::with_capacity(alloc, count as usize)?,
        })
    }

    /// All is dropped, but for the room.
    pub(crate) fn clear(&mut self)
        ensures { self.new ≡ [] }
    {
        self.items.clear();
    }

    /// Makes room for `count` more.
    pub(crate) fn provide(&mut self, count: u32) -> Result<(), AllocError>
        ensures { self.new ≡ self.old }
    {
        self.items.reserve(count as usize)
    }

    /// Is nothing there?
    #[inline(always)]
    pub(crate) fn is_empty(&self) -> bool
        ensures { result ≡ false → 1 ≤ length self.now }
    {
        self.items.is_empty()
    }

    /// One more on top.
    #[inline(always)]
    pub fn push(&mut self, item: T) -> Result<(), AllocError>
        ensures { OnOk result (self.new ≡ item ∷ self.old) }
    {
        if self.items.len() >= self.items.capacity() {
            grow(&mut self.items)?;
        }
        self.items.push_reserved(item);
        Ok(())
    }

    /// One more on top, if there is room for it: tells whether there is.
    #[inline(always)]
    pub fn push_near(&mut self, item: T) -> bool
        ensures done { result ≡ true → self.new ≡ item ∷ self.old }
        ensures same { result ≡ false → self.new ≡ self.old }
    {
        if self.items.len() >= self.items.capacity() {
            return false;
        }
        self.items.push_reserved(item);
        true
    }

    /// What lies on top is taken away.
    #[inline(always)]
    pub fn pop(&mut self) -> T
        requires { 1 ≤ length self.old }
        ensures { self.old ≡ result ∷ self.new }
    {
        match self.items.pop() {
            Some(item) => item,
            None => unreachable!(),
        }
    }

    /// What lies on top.
    #[inline(always)]
    pub fn newest(&self) -> &T
        requires { 1 ≤ length self.now }
        ensures { self.now ≡ result.now ∷ drop 1 self.now }
    {
        &self.items[self.items.len() - 1]
    }

    /// What lies under the top.
    #[inline(always)]
    pub fn second(&self) -> &T
        requires { 2 ≤ length self.now }
        ensures { drop 1 self.now ≡ result.now ∷ drop 2 self.now }
    {
        &self.items[self.items.len() - 2]
    }

    /// Does anything lie under the top?
    #[inline(always)]
    pub(crate) fn has_second(&self) -> bool
        ensures two { result ≡ true → 2 ≤ length self.now }
        ensures fewer { result ≡ false → length self.now < 2 }
    {
        self.items.len() >= 2
    }

    /// Lends what lies under the top.
    #[inline(always)]
    pub(crate) fn second_mut(&mut self) -> &mut T
        requires { 2 ≤ length self.old }
        ensures* writes_back { sem 𝓛 (LendsSecond T.row self.entry result) }
        ensures value { drop 1 self.old ≡ result.now ∷ drop 2 self.old }
    {
        let second = self.items.len() - 2;
        &mut self.items[second]
    }

    /// Lends what lies on top.
    #[inline(always)]
    pub fn newest_mut(&mut self) -> &mut T
        requires { 1 ≤ length self.old }
        ensures* writes_back { sem 𝓛 (LendsNewest T.row self.entry result) }
        ensures value { self.old ≡ result.now ∷ drop 1 self.old }
    {
        let newest = self.items.len() - 1;
        &mut self.items[newest]
    }

    /// All that lies here comes to another pile, in place of what lies there.
    #[inline(always)]
    pub fn move_to(&mut self, other: &mut Pile<T>)
        ensures moved { other.new ≡ self.old }
        ensures left { self.new ≡ [] }
    {
        if self.items.is_empty() && other.items.is_empty() {
            return;
        }
        self.move_all_to(other);
    }

    #[inline(never)]
    fn move_all_to(&mut self, other: &mut Pile<T>)
        ensures moved { other.new ≡ self.old }
        ensures left { self.new ≡ [] }
    {
        if !other.items.is_empty() {
            other.items.clear();
        }
        mem::swap(&mut self.items, &mut other.items);
    }

    /// More on top, the last of them uppermost. On a pile with nothing on it none of them is moved.
    pub fn append(&mut self, items: &mut Vec<T>) -> Result<(), AllocError>
        ensures { OnOk result (self.new ≡ reverse items.old.items ++ self.old) }
    {
        if self.items.is_empty() && self.items.capacity() <= items.capacity() {
            mem::swap(&mut self.items, items);
            return Ok(());
        }
        self.items.append(items)
    }

    /// Lends the top `count` items, in the order in which they came.
    pub fn top(&mut self, count: usize) -> &mut [T]
        requires { count ≤ length self.old }
        ensures* writes_back { sem 𝓛 (LendsTop T.row self.entry count result) }
        ensures value { result.now ≡ reverse (take count self.old) }
    {
        let left = self.items.len() - count;
        self.items.slice_mut(left..)
    }

    /// The top `count` items, in the order in which they came.
    pub fn uppermost(&self, count: usize) -> &[T]
        requires { count ≤ length self.now }
        ensures { result.now ≡ reverse (take count self.now) }
    {
        let left = self.items.len() - count;
        &self.items[left..]
    }

    /// Drops the top `count` items.
    pub fn truncate(&mut self, count: usize)
        requires { count ≤ length self.old }
        ensures { self.new ≡ drop count self.old }
    {
        let left = self.items.len() - count;
        self.items.truncate(left)
    }

    #[tactic(auto, using(crate::proofs::Lifting::lifted))]
    /// Takes the top `count` items away and answers them, in the order in which they came.
    pub fn lift(&mut self, count: usize) -> Result<Vec<T>, AllocError>
        requires { count ≤ length self.old }
        ensures { IfOk result (λ v. Lifts count v.items self.old self.new) }
    {
        let left = self.items.len() - count;
        self.items.split_off(left)
    }
}

// Drops a text. A number gives nothing back, so it is let go without a call.
#[inline(always)]
fn discard(text: Value) {
    match text.number() {
        Some(_) => mem::forget(text),
        None => drop(text),
    }
}

impl Pile<Value> {
    /// Another text in place of what lies on top.
    #[inline(always)]
    pub fn replace_newest(&mut self, text: Value)
        requires { 1 ≤ length self.old }
        ensures { self.new ≡ text ∷ drop 1 self.old }
    {
        let last = self.items.len() - 1;
        discard(mem::replace(&mut self.items[last], text));
    }

    /// What lies on top is dropped.
    #[inline(always)]
    pub fn drop_newest(&mut self)
        requires { 1 ≤ length self.old }
        ensures { self.new ≡ drop 1 self.old }
    {
        discard(self.pop());
    }

    /// Another text in place of the two on top.
    #[inline(always)]
    pub fn replace_two(&mut self, text: Value)
        requires { 2 ≤ length self.old }
        ensures { self.new ≡ text ∷ drop 2 self.old }
    {
        self.drop_newest();
        self.replace_newest(text);
    }
}
