//! Commands that their words alone decide, by their pages: each once. Expected texts are what tclsh 8.6 answers.
use std::alloc::{AllocError, Global};
use std::rc::RcStr;
use tcl_chars::{Dialect, Fault};
use tcl_pages::{DictPage, ListPage, PurePage, StringPage};
use tcl_pure::pure_page;
use tcl_values::Value;

/// A page, its words, and what it says.
type Row = (PurePage, &'static [&'static str], &'static str);

static ROWS: [Row; 26] = [
    (PurePage::List(ListPage::Concat), &[" a ", "b c"], "a b c"),
    (PurePage::List(ListPage::Lindex), &["a b c", "end-1"], "b"),
    (
        PurePage::List(ListPage::Linsert),
        &["a b", "1", "c d"],
        "a {c d} b",
    ),
    (
        PurePage::List(ListPage::List),
        &["a", "b c", ""],
        "a {b c} {}",
    ),
    (PurePage::List(ListPage::Llength), &["a {b c}"], "2"),
    (
        PurePage::List(ListPage::Lrange),
        &["a b c d", "1", "2"],
        "b c",
    ),
    (
        PurePage::List(ListPage::Lrepeat),
        &["2", "a", ""],
        "a {} a {}",
    ),
    (
        PurePage::List(ListPage::Lreplace),
        &["a b c", "0", "1", "x"],
        "x c",
    ),
    (PurePage::List(ListPage::Lreverse), &["a b c"], "c b a"),
    (PurePage::List(ListPage::Lsearch), &["a b c", "b"], "1"),
    (PurePage::List(ListPage::Lsort), &["c a b"], "a b c"),
    (PurePage::String(StringPage::Length), &["abc"], "3"),
    (PurePage::String(StringPage::Index), &["abc", "end"], "c"),
    (
        PurePage::Dict(DictPage::Create),
        &["a", "1", "b", "2", "a", "3"],
        "a 3 b 2",
    ),
    (
        PurePage::Dict(DictPage::Exists),
        &["a {b c}", "a", "b"],
        "1",
    ),
    (PurePage::Dict(DictPage::Get), &["a {b c}", "a", "b"], "c"),
    (PurePage::Dict(DictPage::Keys), &["a 1 bc 2", "b*"], "bc"),
    (
        PurePage::Dict(DictPage::Merge),
        &["a 1", "b 2 a 3"],
        "a 3 b 2",
    ),
    (PurePage::Dict(DictPage::Remove), &["a 1 b 2", "a"], "b 2"),
    (
        PurePage::Dict(DictPage::Replace),
        &["a 1", "b", "2"],
        "a 1 b 2",
    ),
    (PurePage::Dict(DictPage::Size), &["a 1 b 2 a 3"], "2"),
    (PurePage::Dict(DictPage::Values), &["a 1 b 2"], "1 2"),
    (
        PurePage::Dict(DictPage::Get),
        &["a 1", "x"],
        "key \"x\" not known in dictionary",
    ),
    (PurePage::InfoComplete, &["set a {"], "0"),
    (PurePage::InfoComplete, &["set a {}"], "1"),
    (
        PurePage::InfoComplete,
        &["a", "b"],
        "wrong # args: should be \"info complete command\"",
    ),
];

fn value(alloc: Global, text: &str) -> Result<Value, AllocError> {
    Ok(Value::of_text(RcStr::from_str(alloc, text)?))
}

/// Adds the words as values.
fn add_values(values: &mut Vec<Value>, alloc: Global, words: &[&str]) -> Result<(), AllocError> {
    for word in words {
        values.push(value(alloc, word)?)?;
    }
    Ok(())
}

fn answered(alloc: Global, page: PurePage, words: &[&str]) -> Result<Value, Fault> {
    let mut values = Vec::new(alloc);
    add_values(&mut values, alloc, words)?;
    pure_page(alloc, Dialect::Tcl86, page, values.as_mut_slice())
}

/// Is this the text of a value?
pub(crate) fn is_text(alloc: Global, mut value: Value, wanted: &str) -> bool {
    match value.text(alloc) {
        Ok(text) => text.as_str() == wanted,
        Err(_) => false,
    }
}

/// Is this the answer, or its error?
fn says(alloc: Global, answer: Result<Value, Fault>, wanted: &str) -> bool {
    match answer {
        Ok(value) => is_text(alloc, value, wanted),
        Err(Fault::Error(message)) => message.as_str() == wanted,
        Err(Fault::Memory) => false,
    }
}

/// What the first page should say that says something else.
fn wrong(alloc: Global, rows: &[Row]) -> Option<&'static str> {
    for row in rows {
        let (page, words, wanted) = *row;
        if !says(alloc, answered(alloc, page, words), wanted) {
            return Some(wanted);
        }
    }
    None
}

#[test]
fn pages(rt: HostRuntime) {
    assert_eq!(rt; wrong(rt.alloc(), &ROWS), None);
}
