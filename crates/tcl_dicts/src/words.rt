//! The words behind a command's name, read as dictionaries and as pairs. A reading leaves them as they were.

ghost use Rattle.std.specs.Prelude.{◌≡◌, ◌<◌, ◌≤◌, ◌+◌, drop, length, IfOk};
ghost use Rattle.std.specs.Str.{chars};
ghost use Rattle.tcl_arguments.specs.WordAt.{word};
ghost use Rattle.tcl_chars.specs.Answers.{Answers};
ghost use Rattle.tcl_pages.specs.Dictionaries.{in_pairs, pairs_of};
ghost use Rattle.tcl_pages.specs.DictPages.{pairs_or};

use std::alloc::{AllocError, Global};
use tcl_arguments::usage;
use tcl_chars::Fault;
use tcl_values::{Dictionary, Key, Value};

/// The dictionary that the word at a place is.
pub(crate) fn dictionary_at(
    alloc: Global,
    words: &mut [Value],
    place: usize,
) -> Result<Dictionary, Fault>
    requires { place < length words.old }
    ensures pairs { Answers (λ d. d) result (pairs_of (word words.old place)) }
    ensures same { words.new ≡ words.old }
{
    words[place].dictionary(alloc)
}

/// The word at a place. What is kept of it is shared.
pub(crate) fn word_at(words: &[Value], place: usize) -> Result<Value, AllocError>
    requires { place < length words.now }
    ensures { IfOk result (λ v. v ≡ word words.now place) }
{
    words[place].copy()
}

/// A word as a key, and the one behind it as its value.
fn pair_at(alloc: Global, words: &[Value], place: usize) -> Result<(Key, Value), AllocError>
    requires { place + 1 < length words.now }
    ensures { IfOk result (λ p. p ≡ (word words.now place, word words.now (place + 1))) }
{
    let key = words[place].key(alloc)?;
    let value = word_at(words, place + 1)?;
    Ok((key, value))
}

/// The words from a place on, as keys and values in turn.
///
/// # Errors
///
/// `Fault::Error` with the usage of this form where a key has no value, `Fault::Memory`.
pub(crate) fn pairs_behind(
    alloc: Global,
    words: &[Value],
    first: usize,
    form: &str,
) -> Result<Vec<(Key, Value)>, Fault>
    requires { first ≤ length words.now }
    ensures { Answers (λ v. v.items) result (pairs_or (chars form.now) (in_pairs (drop first words.now))) }
{
    let mut pairs = Vec::new(alloc);
    let mut place = first;
    while words.len() - place > 1 {
        pairs.push(pair_at(alloc, words, place)?)?;
        place += 2;
    }
    if place < words.len() {
        return Err(Fault::Error(usage(alloc, form)?));
    }
    Ok(pairs)
}
