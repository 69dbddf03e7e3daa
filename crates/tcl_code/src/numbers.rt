//! A number for each place of a code.

ghost use Rattle.std.specs.Prelude.{◌≡◌, ◌<◌, IfOk, OnErr, OnOk, length, replicate, slice_get, slice_set};
ghost use Rattle.tcl_code.specs.Search.{numbers_in};

use std::alloc::{AllocError, Global};

/// A number for each place, in a byte as long as all are small.
#[derive(Drop)]
pub(crate) enum Numbers {
    Narrow(Vec<u8>),
    Wide(Vec<u32>),
}

/// As many times 0.
fn zeros(alloc: Global, count: usize) -> Result<Vec<u8>, AllocError>
    ensures { IfOk result (λ zeros. zeros.items ≡ replicate count 0) }
{
    let mut zeros = Vec::new(alloc);
    zeros.resize(count, 0)?;
    Ok(zeros)
}

/// The same numbers with more room for each.
fn widened(alloc: Global, narrow: &[u8]) -> Result<Vec<u32>, AllocError>
    ensures { IfOk result (λ wide. wide.items ≡ narrow.now) }
{
    let mut wide = Vec::with_capacity(alloc, narrow.len())?;
    for number in narrow {
        wide.push(u32::from(*number))?;
    }
    Ok(wide)
}

/// The item at a place.
pub(crate) fn get_item<T: Copy>(items: &[T], place: usize) -> Option<T>
    ensures { result ≡ slice_get items.now place }
{
    items.get(place).copied()
}

/// Puts an item in the place of one.
fn set_item<T: Copy>(items: &mut Vec<T>, place: usize, item: T)
    requires { place < length items.old.items }
    ensures { items.new.items ≡ slice_set items.old.items place item }
{
    items[place] = item;
}

impl Numbers {
    /// 0 at each of `count` places.
    pub(crate) fn new(alloc: Global, count: usize) -> Result<Numbers, AllocError>
        ensures { IfOk result (λ numbers. numbers_in numbers ≡ replicate count 0) }
    {
        Ok(Numbers::Narrow(zeros(alloc, count)?))
    }

    /// The number at a place.
    pub(crate) fn at(&self, place: usize) -> Option<usize>
        ensures { result ≡ slice_get (numbers_in self.now) place }
    {
        match self {
            Numbers::Narrow(narrow) => match get_item(narrow.as_slice(), place) {
                Some(number) => Some(usize::from(number)),
                None => None,
            },
            Numbers::Wide(wide) => match get_item(wide.as_slice(), place) {
                Some(number) => Some(number as usize),
                None => None,
            },
        }
    }

    /// Puts a number at a place.
    pub(crate) fn put(&mut self, alloc: Global, place: usize, number: u32) -> Result<(), AllocError>
        requires { place < length (numbers_in self.old) }
        ensures done { OnOk result (numbers_in self.new ≡ slice_set (numbers_in self.old) place number) }
        ensures same { OnErr result (numbers_in self.new ≡ numbers_in self.old) }
    {
        match self {
            Numbers::Narrow(narrow) => match u8::try_from(number) {
                Ok(small) => set_item(narrow, place, small),
                Err(_) => {
                    let mut wide = widened(alloc, narrow.as_slice())?;
                    set_item(&mut wide, place, number);
                    *self = Numbers::Wide(wide);
                }
            },
            Numbers::Wide(wide) => set_item(wide, place, number),
        }
        Ok(())
    }
}
