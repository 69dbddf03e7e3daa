//! Lists in order: lsort(n).

ghost use Rattle.std.specs.Prelude.{◌≡◌, ◌<◌, ◌-◌, Bool, map, length, take, drop, IfOk, OnOk};
ghost use Rattle.std.specs.Cmp.{IsStrictWeakOrder, int_cmp_total};
ghost use Rattle.std.specs.Ordering.{is_lt};
ghost use Rattle.std.specs.List.Sorted.{ties};
ghost use Rattle.std.specs.Str.{chars};
ghost use Rattle.std.proofs.lemmas.Cmp.{nat_list_cmp_total};
ghost use Rattle.std.proofs.lemmas.List.Sorted.{ranks_by};
ghost use Rattle.tcl_chars.specs.Answers.{Answers};
ghost use Rattle.tcl_chars.specs.Messages.{number};
ghost use Rattle.tcl_lists.specs.Options.{with_options};
ghost use Rattle.tcl_lists.specs.Sorted as step;
ghost use Rattle.tcl_pages.specs.Sorting as spec;
ghost use Rattle.tcl_values.specs.Kept.{texts};

use crate::message::usage;
use crate::words::{row_at, text_at};
use std::alloc::{AllocError, Global};
use std::cmp::Ordering;
use tcl_chars::{Dialect, Fault, about, compare, expect_number, is_text};
use tcl_pages::SortOptions;
use tcl_values::{Element, ElementText, Value};

/// What elements are sorted by.
trait Key: Drop {
    /// Is one before another, where the least comes first?
    ghost is_less: { Self → Self → Bool };

    /// How two stand where the least comes first.
    fn compare(&self, other: &Self) -> Ordering
        ensures { is_lt result ≡ is_less self.now other.now };

    ghost orders: { IsStrictWeakOrder is_less };
}

impl Key for i64 {
    ghost is_less = { step.less_number };

    fn compare(&self, other: &i64) -> Ordering {
        self.cmp(other)
    }

    ghost orders = { ranks_by int_cmp_total (λ z. z) };
}

impl Key for &str {
    ghost is_less = { step.less_text };

    fn compare(&self, other: &Self) -> Ordering {
        compare(self, other)
    }

    ghost orders = { ranks_by nat_list_cmp_total (λ t. chars t.now) };
}

/// An element, and what it is sorted by.
#[derive(Drop)]
struct Item<'a, K> {
    key: K,
    element: &'a Element,
}

/// How two items stand by the options.
fn order<K: Key>(options: SortOptions, a: &Item<'_, K>, b: &Item<'_, K>) -> Ordering
    ensures { is_lt result ≡ step.is_before K.is_less options a.now b.now }
{
    if options.decreasing {
        b.key.compare(&a.key)
    } else {
        a.key.compare(&b.key)
    }
}

/// Is neither of two items before the other?
fn tie<K: Key>(options: SortOptions, a: &Item<'_, K>, b: &Item<'_, K>) -> bool
    ensures { result ≡ ties (step.is_before K.is_less options) a.now b.now }
{
    !order(options, a, b).is_lt() && !order(options, b, a).is_lt()
}

/// Sorts items. Those that tie stay as they stood.
fn sort<K: Key>(items: &mut Vec<Item<'_, K>>, options: SortOptions) -> Result<(), AllocError>
    ensures { OnOk result (items.new.items ≡ spec.sorted (step.is_before K.is_less options) items.old.items) }
{
    items.sort_by(|a, b| order(options, a, b))
}

/// Does the item at a place tie with the one behind it?
fn ties_with_next<K: Key>(items: &[Item<'_, K>], place: usize, options: SortOptions) -> bool
    requires { place < length items.now }
    ensures { result ≡ step.ties_with_next (step.is_before K.is_less options) (drop place items.now) }
{
    match items.get(place + 1) {
        Some(next) => tie(options, &items[place], next),
        None => false,
    }
}

/// Is the item at a place kept? Where one of each is wanted, not if it ties with the one behind it.
fn is_kept<K: Key>(items: &[Item<'_, K>], place: usize, options: SortOptions) -> bool
    requires { place < length items.now }
    ensures { result ≡ step.is_kept options (step.is_before K.is_less options) (drop place items.now) }
{
    !(options.unique && ties_with_next(items, place, options))
}

/// The elements of items in order; of neighbours that tie, that of the last one alone where that is wanted.
fn values_of<K: Key>(
    alloc: Global,
    items: &[Item<'_, K>],
    options: SortOptions,
) -> Result<Vec<Value>, AllocError>
    ensures { IfOk result (λ v. v.items ≡ map step.its_text (step.kept_of options (step.is_before K.is_less options) items.now)) }
{
    let mut values = Vec::with_capacity(alloc, items.len())?;
    for (place, item) in items.iter().enumerate() {
        if is_kept(items, place, options) {
            values.push(item.element.copy()?)?;
        }
    }
    Ok(values)
}

/// The elements of items, sorted by the options.
fn in_order<K: Key>(
    alloc: Global,
    mut items: Vec<Item<'_, K>>,
    options: SortOptions,
) -> Result<Vec<Value>, AllocError>
    ensures { IfOk result (λ v. v.items ≡ map step.its_text (spec.in_order options (step.is_before K.is_less options) items.entry.items)) }
{
    sort(&mut items, options)?;
    values_of(alloc, &items, options)
}

/// The number of an element. One that is kept as a number isn't read.
fn number_of(alloc: Global, element: &Element, dialect: Dialect) -> Result<i64, Fault>
    ensures { Answers (λ z. z) result (number dialect element.now.text) }
{
    if let Some(number) = element.number() {
        return Ok(number);
    }
    let text = element.text(alloc)?;
    expect_number(alloc, text.as_str(), dialect)
}

/// Each element with its number.
fn numbered<'a>(
    alloc: Global,
    elements: &'a [Element],
    dialect: Dialect,
) -> Result<Vec<Item<'a, i64>>, Fault>
    ensures { Answers (λ v. map step.with_number v.items) result (spec.numbered dialect (texts elements.now)) }
{
    let mut items = Vec::with_capacity(alloc, elements.len())?;
    for element in elements {
        let key = number_of(alloc, element, dialect)?;
        items.push(Item { key, element })?;
    }
    Ok(items)
}

/// The texts of elements.
fn texts_of(alloc: Global, elements: &[Element]) -> Result<Vec<ElementText<'_>>, AllocError>
    ensures { IfOk result (λ v. v.items ≡ texts elements.now) }
{
    let mut all = Vec::with_capacity(alloc, elements.len())?;
    for element in elements {
        all.push(element.text(alloc)?)?;
    }
    Ok(all)
}

/// Each element with its text.
fn spelled<'a>(
    alloc: Global,
    elements: &'a [Element],
    spellings: &'a [ElementText<'a>],
) -> Result<Vec<Item<'a, &'a str>>, AllocError>
    requires { spellings.now ≡ texts elements.now }
    ensures { IfOk result (λ v. map step.with_text v.items ≡ map step.twice elements.now) }
{
    let mut items = Vec::with_capacity(alloc, elements.len())?;
    for (place, element) in elements.iter().enumerate() {
        items.push(Item {
            key: spellings[place].as_str(),
            element,
        })?;
    }
    Ok(items)
}

/// Options, and one more behind them: of two that clash the later counts.
fn with_option(alloc: Global, options: SortOptions, text: &str) -> Result<SortOptions, Fault>
    ensures { Answers (λ o. o) result (spec.with_sort_option options (chars text.now)) }
{
    if is_text(text, "-ascii") {
        Ok(SortOptions {
            integer: false,
            ..options
        })
    } else if is_text(text, "-integer") {
        Ok(SortOptions {
            integer: true,
            ..options
        })
    } else if is_text(text, "-increasing") {
        Ok(SortOptions {
            decreasing: false,
            ..options
        })
    } else if is_text(text, "-decreasing") {
        Ok(SortOptions {
            decreasing: true,
            ..options
        })
    } else if is_text(text, "-unique") {
        Ok(SortOptions {
            unique: true,
            ..options
        })
    } else {
        Err(Fault::Error(about(
            alloc,
            "bad option",
            text,
            ": must be -ascii, -integer, -increasing, -decreasing, or -unique",
        )?))
    }
}

/// The options that all words but the last are.
fn options_of(alloc: Global, words: &mut [Value]) -> Result<SortOptions, Fault>
    requires { 0 < length words.old }
    ensures options { Answers (λ o. o) result (with_options spec.with_sort_option spec.plain_sort (take (length words.old - 1) words.old)) }
    ensures same { words.new ≡ words.old }
{
    let mut options = SortOptions {
        integer: false,
        decreasing: false,
        unique: false,
    };
    for place in 0..words.len() - 1 {
        let text = text_at(alloc, words, place)?;
        options = with_option(alloc, options, text.as_str())?;
    }
    Ok(options)
}

/// The list of elements in order, by the options.
fn sorted(
    alloc: Global,
    elements: &[Element],
    options: SortOptions,
    dialect: Dialect,
) -> Result<Value, Fault>
    ensures { Answers (λ v. v) result (step.sorted_list dialect options (texts elements.now)) }
{
    let values = if options.integer {
        let items = numbered(alloc, elements, dialect)?;
        in_order(alloc, items, options)?
    } else {
        let spellings = texts_of(alloc, elements)?;
        let items = spelled(alloc, elements, &spellings)?;
        in_order(alloc, items, options)?
    };
    Ok(Value::of_list(alloc, values)?)
}

/// `lsort ?-option ...? list`: the list with its elements in order.
///
/// # Errors
///
/// `Fault::Error` with the usage, the first word that is no option, the list's fault or the first element that is no number where
/// numbers are wanted, `Fault::Memory`.
pub fn lsort(alloc: Global, words: &mut [Value], dialect: Dialect) -> Result<Value, Fault>
    ensures answer { Answers (λ v. v) result (spec.lsort dialect words.old) }
    ensures same { words.new ≡ words.old }
{
    if words.len() == 0 {
        return usage(alloc, "lsort ?-option ...? list");
    }
    let options = options_of(alloc, words)?;
    let last = words.len() - 1;
    let row = row_at(alloc, words, last)?;
    sorted(alloc, row.items(), options, dialect)
}
