//! The long elements that were taken last. Each time that such an element is taken it is a new value, of which nobody knows what
//! it is read as; so who takes the same one again gets the value that was read.
ghost use Rattle.std.specs.Prelude.{◌≡◌, IfSome};

use std::alloc::Global;
use tcl_values::Value;

/// The least bytes of a text that is worth a look.
const LEAST: usize = 32;

/// The most bytes of a text that is kept here.
const MOST: usize = 1_048_576;

/// How many are kept.
const COUNT: usize = 4;

/// The elements that were taken last.
#[derive(Drop)]
pub(crate) struct LastElements {
    values: Vec<Value>,
    /// The place that the next one takes where all are taken.
    next: usize,
}

/// Is it a text that is worth a look?
#[inline(always)]
fn is_long(value: &Value) -> bool {
    if value.number().is_some() {
        return false;
    }
    match value.shown() {
        Some(text) => LEAST <= text.len() && text.len() <= MOST,
        None => false,
    }
}

/// A value of the same text, if both have their texts ready: what is known of the first.
fn known_as(last: &Value, value: &Value) -> Option<Value>
    ensures { IfSome result (λ known. known ≡ value.now) }
{
    match (last.shown(), value.shown()) {
        (Some(one), Some(other)) if one == other => last.copy().ok(),
        _ => None,
    }
}

/// A value of the same text among others.
fn found(values: &[Value], value: &Value) -> Option<Value>
    ensures { IfSome result (λ known. known ≡ value.now) }
{
    for last in values {
        if let Some(known) = known_as(last, value) {
            return Some(known);
        }
    }
    None
}

impl LastElements {
    /// None yet.
    pub(crate) fn new(alloc: Global) -> LastElements {
        LastElements {
            values: Vec::new(alloc),
            next: 0,
        }
    }

    /// Keeps a value, in the place of the one that is kept longest.
    fn keep(&mut self, value: Value) {
        if self.values.len() < COUNT {
            if self.values.reserve(1).is_ok() {
                self.values.push_reserved(value);
            }
            return;
        }
        if let Some(oldest) = self.values.get_mut(self.next) {
            *oldest = value;
        }
        self.next = self.next.wrapping_add(1) % COUNT;
    }

    /// The same text, as it was taken before if it was; else it is kept.
    #[inline(never)]
    fn known(&mut self, value: Value) -> Value
        ensures { result ≡ value }
    {
        if let Some(known) = found(&self.values, &value) {
            return known;
        }
        if let Ok(copy) = value.copy() {
            self.keep(copy);
        }
        value
    }

    /// An element that is taken, as the value that it was taken as before, where it is long and was among the last.
    #[inline(always)]
    pub(crate) fn taken(&mut self, value: Value) -> Value
        ensures { result ≡ value }
    {
        if is_long(&value) {
            return self.known(value);
        }
        value
    }
}
