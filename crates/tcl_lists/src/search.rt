//! Elements that fit a pattern: lsearch(n).

ghost use Rattle.std.specs.Prelude.{◌≡◌, ◌<◌, ◌-◌, ◌^◌, length, take, map, IfOk};
ghost use Rattle.std.specs.Str.{chars};
ghost use Rattle.tcl_chars.specs.Answers.{Answers};
ghost use Rattle.tcl_list.specs.Written.{written};
ghost use Rattle.tcl_lists.specs.Options.{with_options};
ghost use Rattle.tcl_pages.specs.Searching as spec;
ghost use Rattle.tcl_values.specs.Kept.{texts};

use crate::message::usage;
use crate::pattern::Pattern;
use crate::words::{empty, row_at, text_at};
use std::alloc::{AllocError, Global};
use tcl_chars::{Fault, about, is_text};
use tcl_pages::SearchOptions;
use tcl_values::{Element, Value};

/// Options, and one more behind them: of two that clash the later counts.
fn with_option(alloc: Global, options: SearchOptions, text: &str) -> Result<SearchOptions, Fault>
    ensures { Answers (λ o. o) result (spec.with_search_option options (chars text.now)) }
{
    if is_text(text, "-exact") {
        Ok(SearchOptions {
            exact: true,
            ..options
        })
    } else if is_text(text, "-glob") {
        Ok(SearchOptions {
            exact: false,
            ..options
        })
    } else if is_text(text, "-all") {
        Ok(SearchOptions {
            all: true,
            ..options
        })
    } else if is_text(text, "-inline") {
        Ok(SearchOptions {
            inline: true,
            ..options
        })
    } else if is_text(text, "-not") {
        Ok(SearchOptions {
            negated: true,
            ..options
        })
    } else {
        Err(Fault::Error(about(
            alloc,
            "bad option",
            text,
            ": must be -exact, -glob, -all, -inline, or -not",
        )?))
    }
}

/// The options that all words but the last two are.
fn options_of(alloc: Global, words: &mut [Value]) -> Result<SearchOptions, Fault>
    requires { 1 < length words.old }
    ensures options { Answers (λ o. o) result (with_options spec.with_search_option spec.plain_search (take (length words.old - 2) words.old)) }
    ensures same { words.new ≡ words.old }
{
    let mut options = SearchOptions {
        exact: false,
        all: false,
        inline: false,
        negated: false,
    };
    for place in 0..words.len() - 2 {
        let text = text_at(alloc, words, place)?;
        options = with_option(alloc, options, text.as_str())?;
    }
    Ok(options)
}

/// What is answered of an element that fits: the element, or its place.
fn hit(place: usize, element: &Element, inline: bool) -> Result<Value, AllocError>
    requires { place < 2 ^ 63 }
    ensures { IfOk result (λ v. v ≡ spec.hit_text inline (place, element.now.text)) }
{
    if inline {
        element.copy()
    } else {
        Ok(Value::of_int(place as i64))
    }
}

/// The first element that fits, or its place.
fn first_hit(
    alloc: Global,
    options: SearchOptions,
    pattern: &Pattern,
    elements: &[Element],
) -> Result<Value, AllocError>
    ensures { IfOk result (λ v. v ≡ spec.first_found options.inline (spec.wanted options pattern.now 0 (texts elements.now))) }
{
    for (place, element) in elements.iter().enumerate() {
        let wanted = pattern.is_wanted(alloc, options, element)?;
        if wanted {
            return hit(place, element, options.inline);
        }
    }
    if options.inline {
        empty(alloc)
    } else {
        Ok(Value::of_int(-1))
    }
}

/// All elements that fit, or their places.
fn all_hits(
    alloc: Global,
    options: SearchOptions,
    pattern: &Pattern,
    elements: &[Element],
) -> Result<Value, AllocError>
    ensures { IfOk result (λ v. v ≡ written (map (spec.hit_text options.inline) (spec.wanted options pattern.now 0 (texts elements.now)))) }
{
    let mut hits = Vec::new(alloc);
    for (place, element) in elements.iter().enumerate() {
        let wanted = pattern.is_wanted(alloc, options, element)?;
        if wanted {
            hits.push(hit(place, element, options.inline)?)?;
        }
    }
    Value::of_list(alloc, hits)
}

/// What is answered of the elements that fit.
fn found(
    alloc: Global,
    options: SearchOptions,
    pattern: &Pattern,
    elements: &[Element],
) -> Result<Value, AllocError>
    ensures { IfOk result (λ v. v ≡ spec.found options (spec.wanted options pattern.now 0 (texts elements.now))) }
{
    if options.all {
        all_hits(alloc, options, pattern, elements)
    } else {
        first_hit(alloc, options, pattern, elements)
    }
}

/// `lsearch ?-option ...? list pattern`: the elements that fit, or their places.
///
/// # Errors
///
/// `Fault::Error` with the usage, the first word that is no option or the list's fault, `Fault::Memory`.
pub fn lsearch(alloc: Global, words: &mut [Value]) -> Result<Value, Fault>
    ensures answer { Answers (λ v. v) result (spec.lsearch words.old) }
    ensures same { words.new ≡ words.old }
{
    if words.len() < 2 {
        return usage(alloc, "lsearch ?-option ...? list pattern");
    }
    let options = options_of(alloc, words)?;
    let last = words.len() - 1;
    let row = row_at(alloc, words, last - 1)?;
    let pattern = Pattern::new(text_at(alloc, words, last)?);
    Ok(found(alloc, options, &pattern, row.items())?)
}
