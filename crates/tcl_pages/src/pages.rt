//! The commands that are functions of texts, by their pages of the manual.

use crate::lists::ListPage;

/// A command whose answer its words alone decide.
#[derive(Clone, Copy, Debug, PartialEq, Eq)]
pub enum PurePage {
    /// A command on lists.
    List(ListPage),
    /// A command on strings.
    String(StringPage),
    /// A subcommand of dict(n).
    Dict(DictPage),
    /// info(n), `info complete`
    InfoComplete,
}

/// A command on strings: string(n), split(n), join(n), format(n).
#[derive(Clone, Copy, Debug, PartialEq, Eq)]
pub enum StringPage {
    Compare,
    Equal,
    First,
    Format,
    Index,
    Is,
    Join,
    Last,
    Length,
    Map,
    Match,
    Range,
    Repeat,
    Replace,
    Reverse,
    Split,
    Tolower,
    Toupper,
    Trim,
    Trimleft,
    Trimright,
}

/// A subcommand of dict(n) that names no variable.
#[derive(Clone, Copy, Debug, PartialEq, Eq)]
pub enum DictPage {
    Create,
    Exists,
    Get,
    Keys,
    Merge,
    Remove,
    Replace,
    Size,
    Values,
}

/// A command that gives a variable a text made of the one that it has.
#[derive(Clone, Copy, Debug, PartialEq, Eq)]
pub enum UpdatePage {
    Append,
    Incr,
    Lappend,
    Lset,
    DictAppend,
    DictIncr,
    DictLappend,
    DictSet,
    DictUnset,
}
