//! Rows that the language's own shell answers the same way. A row's words stand behind its command as a list.
use std::alloc::Global;
use std::rc::RcStr;
use tcl_chars::{Dialect, Fault};
use tcl_pages::StringPage;
use tcl_strings::string_page;
use tcl_values::Value;

fn value(alloc: Global, text: &str) -> Result<Value, Fault> {
    Ok(Value::of_text(RcStr::from_str(alloc, text)?))
}

/// The elements of a list, each as a value.
fn words(alloc: Global, line: &str) -> Result<Vec<Value>, Fault> {
    value(alloc, line)?.list(alloc)
}

fn ran(alloc: Global, page: StringPage, words: &mut [Value]) -> Result<RcStr, Fault> {
    let mut value = string_page(alloc, page, words, Dialect::Tcl86)?;
    Ok(value.text(alloc)?)
}

/// What the command answers to the words of a line.
fn answer(alloc: Global, page: StringPage, line: &str) -> Result<RcStr, Fault> {
    ran(alloc, page, &mut words(alloc, line)?)
}

/// Is this answered?
fn is(found: Result<RcStr, Fault>, want: &str) -> bool {
    match found {
        Ok(text) => text.as_str() == want,
        Err(_) => false,
    }
}

/// Is this the count that was worked out?
fn counts(found: Result<usize, Fault>, want: usize) -> bool {
    match found {
        Ok(count) => count == want,
        Err(_) => false,
    }
}

/// Was the question answered, by yes?
fn holds(found: Result<bool, Fault>) -> bool {
    match found {
        Ok(answer) => answer,
        Err(_) => false,
    }
}

/// Does a script's error say this?
fn fails(found: Result<RcStr, Fault>, want: &str) -> bool {
    match found {
        Err(Fault::Error(message)) => message.as_str() == want,
        _ => false,
    }
}

/// A command, the words behind its name as a list, and what it says.
type Row = (StringPage, &'static str, &'static str);

/// The words of the first row whose command answers something else.
fn wrong(alloc: Global, rows: &[Row]) -> Option<&'static str> {
    for row in rows {
        let (page, line, want) = *row;
        if !is(answer(alloc, page, line), want) {
            return Some(line);
        }
    }
    None
}

/// The words of the first row whose command doesn't refuse them so.
fn wrongly_refused(alloc: Global, rows: &[Row]) -> Option<&'static str> {
    for row in rows {
        let (page, line, want) = *row;
        if !fails(answer(alloc, page, line), want) {
            return Some(line);
        }
    }
    None
}

static PLACES: [Row; 6] = [
    (StringPage::Length, "aé中😀", "4"),
    (StringPage::Index, "aé中b end-1", "中"),
    (StringPage::Index, "abc 3", ""),
    (StringPage::Index, "abc -1", ""),
    (StringPage::Range, "abcde 1 end-1", "bcd"),
    (StringPage::Range, "abcde -5 100", "abcde"),
];

#[test]
fn places(rt: HostRuntime) {
    assert_eq!(rt; wrong(rt.alloc(), &PLACES), None);
}

static REPLACEMENTS: [Row; 6] = [
    (StringPage::Replace, "abcde 1 2 XYZ", "aXYZde"),
    (StringPage::Replace, "abcde 3 1 X", "abcde"),
    (StringPage::Replace, "{} -1 0 A", "A"),
    (StringPage::Map, "{a 1 ab 2} abab", "1b1b"),
    (StringPage::Map, "{ab 2 a ab {} x} aaba", "ab2ab"),
    (
        StringPage::Map,
        "{aa 0 {} x áb 1 ab 2 a 3 á 4 b 5 c 6 d 7 e 8 aá 9} aaáábaabšbgbab",
        "04105š5g52",
    ),
];

#[test]
fn replacements(rt: HostRuntime) {
    assert_eq!(rt; wrong(rt.alloc(), &REPLACEMENTS), None);
}

static SEARCHES_AND_COMPARISONS: [Row; 14] = [
    (StringPage::First, "a banana", "1"),
    (StringPage::First, "an banana 2", "3"),
    (StringPage::First, "{} banana", "-1"),
    (StringPage::Last, "an banana", "3"),
    (StringPage::Last, "an banana 3", "1"),
    (StringPage::Match, "{a*[x-z]?} abcyd", "1"),
    (StringPage::Match, "*a*b* xxaxxbx", "1"),
    (StringPage::Match, "*a*b* xxbxa", "0"),
    (StringPage::Match, "*áb* xáábx", "1"),
    (StringPage::Match, r"{*\**} a*b", "1"),
    (StringPage::Match, "*?b* b", "0"),
    (StringPage::Compare, "abc abd", "-1"),
    (StringPage::Compare, "b abd", "1"),
    (StringPage::Equal, "abc abc", "1"),
];

#[test]
fn searches_and_comparisons(rt: HostRuntime) {
    assert_eq!(rt; wrong(rt.alloc(), &SEARCHES_AND_COMPARISONS), None);
}

static CHARACTERS_AND_ENDS: [Row; 8] = [
    (StringPage::Reverse, "aé中", "中éa"),
    (StringPage::Repeat, "ab 3", "ababab"),
    (StringPage::Repeat, "ab -1", ""),
    (StringPage::Tolower, "AbZ", "abz"),
    (StringPage::Toupper, "aBz", "ABZ"),
    (StringPage::Trim, "{ \ta b\n}", "a b"),
    (StringPage::Trimleft, "xyaxy xy", "axy"),
    (StringPage::Trimright, "xyaxy xy", "xya"),
];

#[test]
fn characters_and_ends(rt: HostRuntime) {
    assert_eq!(rt; wrong(rt.alloc(), &CHARACTERS_AND_ENDS), None);
}

static LISTS: [Row; 7] = [
    (StringPage::Split, "a:b::c :", "a b {} c"),
    (StringPage::Split, "abc {}", "a b c"),
    (StringPage::Split, "abaáb {}", "a b a á b"),
    (StringPage::Split, "{} :", ""),
    (StringPage::Split, "{a b\tc}", "a b c"),
    (StringPage::Join, "{a {b c} d} {, }", "a, b c, d"),
    (StringPage::Join, "{1 2 3}", "1 2 3"),
];

#[test]
fn lists(rt: HostRuntime) {
    assert_eq!(rt; wrong(rt.alloc(), &LISTS), None);
}

static CLASSES: [Row; 6] = [
    (StringPage::Is, "integer -0x1f", "1"),
    (StringPage::Is, "alpha -strict {}", "0"),
    (StringPage::Is, "alpha {}", "1"),
    (StringPage::Is, r"list a\ \{b", "0"),
    (StringPage::Is, "true yes", "1"),
    (StringPage::Is, "xdigit 0aFg", "0"),
];

#[test]
fn classes(rt: HostRuntime) {
    assert_eq!(rt; wrong(rt.alloc(), &CLASSES), None);
}

static FORMATS: [Row; 4] = [
    (
        StringPage::Format,
        "%5d|%-5d|%05d 42 42 -42",
        "   42|42   |-0042",
    ),
    (
        StringPage::Format,
        "{%#x %X %o %b} 255 255 8 5",
        "0xff FF 10 101",
    ),
    (StringPage::Format, "%.2s%c%% abc 65", "abA%"),
    (StringPage::Format, "%*.*d 6 3 7", "   007"),
];

#[test]
fn formats(rt: HostRuntime) {
    assert_eq!(rt; wrong(rt.alloc(), &FORMATS), None);
}

static REFUSALS: [Row; 5] = [
    (StringPage::Map, "a b", "char map list unbalanced"),
    (
        StringPage::Equal,
        "abc",
        r#"wrong # args: should be "string equal string1 string2""#,
    ),
    (
        StringPage::Format,
        "%d",
        "not enough arguments for all format specifiers",
    ),
    (
        StringPage::Format,
        "%5",
        "format string ended in middle of field specifier",
    ),
    (
        StringPage::Format,
        "%*q abc",
        r#"expected integer but got "abc""#,
    ),
];

#[test]
fn refusals(rt: HostRuntime) {
    assert_eq!(rt; wrongly_refused(rt.alloc(), &REFUSALS), None);
}

/// A part a thousand times.
fn thousand(alloc: Global, part: &str) -> Result<String, Fault> {
    let mut text = String::new(alloc);
    for _ in 0..1000u32 {
        text.push_str(part)?;
    }
    Ok(text)
}

/// How many characters the command answers to a part a thousand times with the words of a line behind it.
fn size(alloc: Global, page: StringPage, part: &str, more: &str) -> Result<usize, Fault> {
    let text = thousand(alloc, part)?;
    let mut words = words(alloc, more)?;
    words.insert(0, value(alloc, text.as_str())?)?;
    Ok(ran(alloc, page, &mut words)?.chars().count())
}

/// A command, a part, the words behind it as a list, and how many characters are answered.
type Large = (StringPage, &'static str, &'static str, usize);

static LARGE: [Large; 15] = [
    (StringPage::Split, "ab ", "", 3002),
    (StringPage::Split, "a:", ":", 2002),
    (StringPage::Split, "ab", "{}", 3999),
    (StringPage::Join, "ab ", "", 2999),
    (StringPage::Join, "ab ", "{, }", 3998),
    (StringPage::Reverse, "é中", "", 2000),
    (StringPage::Toupper, "ab", "", 2000),
    (StringPage::Tolower, "AB", "", 2000),
    (StringPage::Trim, " a", "", 1999),
    (StringPage::Trimleft, " a", "", 1999),
    (StringPage::Trimright, "a ", "", 1999),
    (StringPage::Format, "ab%%", "", 3000),
    (StringPage::Repeat, "ab", "10", 20_000),
    (StringPage::Range, "ab", "1 end-1", 1998),
    (StringPage::Replace, "ab", "1 1 xyz", 2002),
];

/// The part of the first row that has an answer of another size.
fn other_size(alloc: Global, rows: &[Large]) -> Option<&'static str> {
    for row in rows {
        let (page, part, more, want) = *row;
        if !counts(size(alloc, page, part, more), want) {
            return Some(part);
        }
    }
    None
}

#[test]
fn a_thousand_parts(rt: HostRuntime) {
    assert_eq!(rt; other_size(rt.alloc(), &LARGE), None);
}

/// How many characters stand for a thousand numbers.
fn formatted(alloc: Global) -> Result<usize, Fault> {
    let numbers = thousand(alloc, "1 ")?;
    size(alloc, StringPage::Format, "%d", numbers.as_str())
}

/// What stands for a thousand keys of a text.
fn mapped(alloc: Global) -> Result<RcStr, Fault> {
    let text = thousand(alloc, "ab")?;
    let mut words = words(alloc, "{ab xyz}")?;
    words.push(value(alloc, text.as_str())?)?;
    ran(alloc, StringPage::Map, &mut words)
}

/// Is each of a thousand keys replaced?
fn all_mapped(alloc: Global) -> Result<bool, Fault> {
    let want = thousand(alloc, "xyz")?;
    Ok(mapped(alloc)?.as_str() == want.as_str())
}

#[test]
fn a_thousand_values(rt: HostRuntime) {
    let alloc = rt.alloc();
    assert!(rt; counts(formatted(alloc), 1000));
    assert!(rt; holds(all_mapped(alloc)));
}
