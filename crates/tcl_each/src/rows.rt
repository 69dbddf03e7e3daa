//! Words read as lists with the names of their variables: foreach(n), lmap(n), `dict for` of dict(n).
ghost use Rattle.std.specs.Prelude.{◌≡◌, ◌+◌, ◌<◌, ◌≤◌, length, Ok, IfOk};
ghost use Rattle.std.specs.Str.{chars};
ghost use Rattle.tcl_chars.specs.Answers.{Answers};
ghost use Rattle.tcl_arguments.specs.WordAt.{word};
ghost use Rattle.tcl_pages.specs.Dictionaries.{pairs};
ghost use Rattle.tcl_each.specs.LoopLists.{loop_list_read, pairs_read};
ghost use Rattle.tcl_list.specs.Elements.{elements_of};
ghost use Rattle.tcl_meaning.specs.Control as spec;
ghost use Rattle.tcl_meaning.specs.Shapes as shapes;
ghost use Rattle.tcl_pages.specs.DictPages.{flat};
ghost use Rattle.tcl_steps.specs.Views.{loop_list_of, loop_lists_of};

use std::alloc::{AllocError, Global};
use tcl_chars::{Fault, message};
use tcl_steps::LoopList;
use tcl_values::{Dictionary, Row, Value};

/// The elements of the word at a place.
///
/// # Errors
///
/// `Fault::Error` with the list's fault, `Fault::Memory`.
pub(crate) fn list_at(alloc: Global, words: &mut [Value], place: usize) -> Result<Vec<Value>, Fault>
    requires { place < length words.old }
    ensures list { Answers (λ list. list.items) result (elements_of (word words.old place)) }
    ensures same { words.new ≡ words.old }
{
    words[place].list(alloc)
}

// The elements of the word at a place, which are shared with it.
fn row_at(alloc: Global, words: &mut [Value], place: usize) -> Result<Row, Fault>
    requires { place < length words.old }
    ensures row { Answers (λ row. row) result (elements_of (word words.old place)) }
    ensures same { words.new ≡ words.old }
{
    words[place].row(alloc)
}

// The names, if there is one; or what is said of none.
#[tactic(auto, using(crate::proofs::LoopListLemmas::none_named, crate::proofs::LoopListLemmas::some_named))]
fn some_names(alloc: Global, names: Vec<Value>, empty: &str) -> Result<Vec<Value>, Fault>
    ensures { Answers (λ names. names.items) result (shapes.some_names (chars empty.now) names.items) }
{
    if names.len() == 0 {
        return Err(Fault::Error(message(alloc, empty)?));
    }
    Ok(names)
}

// The names that the word at a place is, and the elements of the word behind it.
fn loop_list_at(
    alloc: Global,
    words: &mut [Value],
    place: usize,
    empty: &str,
) -> Result<LoopList, Fault>
    requires { place + 1 < length words.old }
    ensures list { Answers loop_list_of result (loop_list_read (chars empty.now) (word words.old place) (word words.old (place + 1))) }
    ensures same { words.new ≡ words.old }
{
    let list = list_at(alloc, words, place)?;
    let names = some_names(alloc, list, empty)?;
    let elements = row_at(alloc, words, place + 1)?;
    Ok(LoopList {
        names,
        elements,
        gone: 0,
    })
}

/// The words, which come in pairs, as names with their lists; a word that is left over isn't read.
///
/// # Errors
///
/// `Fault::Error` with the first list's fault, or with `empty` where a list has no names, `Fault::Memory`.
pub(crate) fn loop_lists_among(
    alloc: Global,
    words: &mut [Value],
    empty: &str,
) -> Result<Vec<LoopList>, Fault>
    ensures lists { Answers (λ lists. loop_lists_of lists.items) result (shapes.loop_lists_of (chars empty.now) (pairs words.old)) }
    ensures same { words.new ≡ words.old }
{
    let mut lists = Vec::new(alloc);
    for pair in 0..words.len() / 2 {
        let list = loop_list_at(alloc, words, 2 * pair, empty)?;
        lists.push(list)?;
    }
    Ok(lists)
}

// The names, if they are two.
#[tactic(auto, using(crate::proofs::LoopListLemmas::not_two, crate::proofs::LoopListLemmas::are_two))]
fn two_names(alloc: Global, names: Vec<Value>) -> Result<Vec<Value>, Fault>
    ensures { Answers (λ names. names.items) result (spec.two_names names.items) }
{
    if names.len() != 2 {
        let said = message(alloc, "must have exactly two variable names")?;
        return Err(Fault::Error(said));
    }
    Ok(names)
}

// Keys and values in turn.
fn flat_values(alloc: Global, pairs: &Dictionary) -> Result<Vec<Value>, AllocError>
    ensures { IfOk result (λ values. values.items ≡ flat pairs.now) }
{
    let keys = pairs.keys();
    let values = pairs.values();
    let mut flat = Vec::new(alloc);
    for place in 0..keys.len() {
        flat.push(keys[place].value()?)?;
        flat.push(values[place].copy()?)?;
    }
    Ok(flat)
}

// Values as elements that are shared.
#[tactic(auto, using(tcl_values::proofs::Joined::reads_written))]
fn row_of(alloc: Global, items: Vec<Value>) -> Result<Row, Fault>
    ensures { Answers (λ row. row) result (Ok items.items) }
{
    let mut list = Value::of_list(alloc, items)?;
    list.row(alloc)
}

/// The two names that the first word is, and the keys and values in turn of the dictionary that the second one is.
///
/// # Errors
///
/// `Fault::Error` with the list's fault, of another count of names or with the dictionary's fault, `Fault::Memory`.
pub(crate) fn pairs_at(alloc: Global, words: &mut [Value]) -> Result<LoopList, Fault>
    requires { 2 ≤ length words.old }
    ensures list { Answers loop_list_of result (pairs_read (word words.old 0) (word words.old 1)) }
    ensures same { words.new ≡ words.old }
{
    let list = list_at(alloc, words, 0)?;
    let names = two_names(alloc, list)?;
    let pairs = words[1].dictionary(alloc)?;
    let values = flat_values(alloc, &pairs)?;
    let elements = row_of(alloc, values)?;
    Ok(LoopList {
        names,
        elements,
        gone: 0,
    })
}
