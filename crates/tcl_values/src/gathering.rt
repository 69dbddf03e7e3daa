//! Elements that are gathered one behind the other, to be a list.

ghost use Rattle.std.specs.Prelude.{◌≡◌, ◌≤◌, ◌+◌, ◌++◌, [], drop, max, take, reverse, IfOk, IfSome, OnOk};
ghost use Rattle.tcl_list.specs.Written.{written};
ghost use Rattle.tcl_pages.specs.Lists.{replaced, times};
ghost use Rattle.tcl_values.specs.Kept.{texts, depth_over};
ghost use Rattle.tcl_values.specs.Shape.{elements};

use crate::element::{Element, Items};
use crate::items::{copy_elements, deepest, splice_elements};
use crate::row::Row;
use crate::value::{Held, Value};
use std::alloc::{AllocError, Global};
use std::marker::Model;
use std::rc::Rc;

/// Elements, and how deep a list of them is at most. Each stands there once, as it is kept in the list.
#[derive(Drop)]
pub struct Gathering {
    depth: u8,
    items: Vec<Element>,
}

impl Model for Gathering {
    ghost use Rattle.std.specs.Prelude.{List, ℕ};

    ghost Value = { List (List ℕ) };

    ghost use Rattle.tcl_values.specs.Gathered.{gathered_texts, IsGathering};

    ghost view = { gathered_texts };

    ghost invariant = { IsGathering };
}

/// Some elements of a list: those from the place `first` on, in front of `last`.
fn between(row: &Items, first: usize, last: usize) -> &[Element]
    ensures { result.now ≡ drop first (take last (elements row.now)) }
{
    let front = match row.items.get(..last) {
        Some(front) => front,
        None => &row.items,
    };
    match front.get(first..) {
        Some(part) => part,
        None => &[],
    }
}

/// Adds copies of elements at the end of others. What is kept of them is shared.
fn add_copies(items: &mut Vec<Element>, more: &[Element]) -> Result<(), AllocError>
    ensures { OnOk result (items.new.items ≡ items.old.items ++ more.now) }
{
    items.reserve(more.len())?;
    for element in more {
        items.push(element.duplicate()?)?;
    }
    Ok(())
}

/// A value as an element, and how deep a list is at most of it and of elements of which one is no deeper than so much. What is kept is shared;
/// a number and a short text are copied in place.
#[inline(always)]
fn element_within(alloc: Global, value: &Value, depth: u8) -> Result<(Element, u8), AllocError>
    requires { depth ≤ 64 }
    ensures text { IfOk result (λ e. e.0.text ≡ value.now) }
    ensures others { IfOk result (λ e. depth ≤ e.1) }
    ensures deeper { IfOk result (λ e. e.0.depth + 1 ≤ e.1) }
    ensures limit { IfOk result (λ e. e.1 ≤ 64) }
{
    if let Some(element) = value.plain_element() {
        return Ok((element, depth.max(1)));
    }
    let element = value.element(alloc)?;
    let deeper = depth.max(element.depth() + 1);
    Ok((element, deeper))
}

/// Adds values at the end of elements, of which a list is no deeper than so much, and answers how deep a list of all is at most.
fn add_values(
    alloc: Global,
    items: &mut Vec<Element>,
    depth: u8,
    more: &[Value],
) -> Result<u8, AllocError>
    requires deeper { depth_over items.old.items ≤ depth }
    requires limit { depth ≤ 64 }
    ensures texts { OnOk result (texts items.new.items ≡ texts items.old.items ++ more.now) }
    ensures deeper { IfOk result (λ d. depth_over items.new.items ≤ d) }
    ensures limit { IfOk result (λ d. d ≤ 64) }
{
    items.reserve(more.len())?;
    let mut deepest = depth;
    for value in more {
        let (element, depth) = element_within(alloc, value, deepest)?;
        items.push(element)?;
        deepest = depth;
    }
    Ok(deepest)
}

/// Adds copies of the elements `more`, `count` times over.
fn add_times(items: &mut Vec<Element>, more: &[Element], count: u64) -> Result<(), AllocError>
    ensures texts { OnOk result (texts items.new.items ≡ texts items.old.items ++ times count (texts more.now)) }
    ensures depth { OnOk result (depth_over items.new.items ≤ max (depth_over items.old.items) (depth_over more.now)) }
{
    for done in 0..count {
        add_copies(items, more)?;
    }
    Ok(())
}

/// How deep a list of these elements is, which is no deeper than so much. Where no element is a list, none is looked at.
fn depth_within(elements: &[Element], most: u8) -> u8
    requires deeper { depth_over elements.now ≤ most }
    requires limit { most ≤ 64 }
    ensures { result ≡ depth_over elements.now }
{
    if most <= 1 {
        return most;
    }
    deepest(elements)
}

impl Gathering {
    /// None yet, with room for `count` elements.
    pub fn with_capacity(alloc: Global, count: usize) -> Result<Gathering, AllocError>
        ensures { IfOk result (λ g. g ≡ []) }
    {
        Ok(Gathering {
            depth: 1,
            items: Vec::with_capacity(alloc, count)?,
        })
    }

    /// The elements of a row, which are taken where nobody else holds them, and else copied.
    pub fn of_row(alloc: Global, row: Row) -> Result<Gathering, AllocError>
        ensures { IfOk result (λ g. g ≡ row) }
    {
        match Rc::try_unwrap(row.items) {
            Ok(own) => Ok(Gathering {
                depth: own.depth,
                items: own.items,
            }),
            Err(shared) => Ok(Gathering {
                depth: shared.depth,
                items: copy_elements(alloc, &shared.items)?,
            }),
        }
    }

    /// The elements, and behind them those of a row from the place `first` on, up to `last` and without it. What is kept of them is
    /// shared.
    pub fn with_part(self, row: &Row, first: usize, last: usize) -> Result<Gathering, AllocError>
        ensures { IfOk result (λ g. g ≡ self ++ drop first (take last row.now)) }
    {
        let mut items = self.items;
        add_copies(&mut items, between(&row.items, first, last))?;
        Ok(Gathering {
            depth: self.depth.max(row.items.depth),
            items,
        })
    }

    /// The elements, and behind them the values.
    pub fn with_values(self, alloc: Global, values: &[Value]) -> Result<Gathering, AllocError>
        ensures { IfOk result (λ g. g ≡ self ++ values.now) }
    {
        let mut items = self.items;
        let depth = add_values(alloc, &mut items, self.depth, values)?;
        Ok(Gathering { depth, items })
    }

    /// The elements, with values in the place of those from the place `first` on, in front of `last`.
    pub fn spliced(
        self,
        alloc: Global,
        first: usize,
        last: usize,
        values: &[Value],
    ) -> Result<Gathering, AllocError>
        ensures { IfOk result (λ g. g ≡ replaced self first last values.now) }
    {
        let mut items = self.items;
        let mut inserted = Vec::new(alloc);
        let new = add_values(alloc, &mut inserted, 1, values)?;
        splice_elements(&mut items, first, last.saturating_sub(first), inserted)?;
        Ok(Gathering {
            depth: self.depth.max(new),
            items,
        })
    }

    /// The elements from the place `first` on, in front of `last`.
    pub fn part(self, alloc: Global, first: usize, last: usize) -> Result<Gathering, AllocError>
        ensures { IfOk result (λ g. g ≡ drop first (take last self)) }
    {
        let mut items = self.items;
        items.truncate(last);
        splice_elements(&mut items, 0, first, Vec::new(alloc))?;
        Ok(Gathering {
            depth: self.depth,
            items,
        })
    }

    /// The elements in reverse order.
    pub fn reversed(self) -> Gathering
        ensures { result ≡ reverse self }
    {
        let depth = self.depth;
        let mut items = self.items;
        items.reverse();
        Gathering { depth, items }
    }

    /// The elements, repeated `count` times.
    pub fn repeated(self, alloc: Global, count: u64) -> Result<Gathering, AllocError>
        ensures { IfOk result (λ g. g ≡ times count self) }
    {
        let size = (self.items.len() as u64).saturating_mul(count) as usize;
        let mut items = Vec::with_capacity(alloc, size)?;
        add_times(&mut items, &self.items, count)?;
        Ok(Gathering {
            depth: self.depth,
            items,
        })
    }

    /// The value that is a list of them: their written form (list(n)).
    pub fn into_value(self, alloc: Global) -> Result<Value, AllocError>
        ensures { IfOk result (λ v. v ≡ written self) }
    {
        let depth = depth_within(&self.items, self.depth);
        let row = Items {
            text: None,
            depth,
            items: self.items,
            pairs: None,
        };
        Ok(Value {
            held: Held::Row(Rc::new(alloc, row)?),
        })
    }
}

impl Value {
    /// The elements, where the value is kept as a list and nobody has asked for its text: the text is then how they are written.
    pub fn unwritten(&self) -> Result<Option<Row>, AllocError>
        ensures { IfOk result (λ o. IfSome o (λ r. self.now ≡ written r)) }
    {
        match &self.held {
            Held::Row(row) => match &row.text {
                Some(_) => Ok(None),
                None => Ok(Some(Row {
                    items: row.clone()?,
                })),
            },
            _ => Ok(None),
        }
    }
}
