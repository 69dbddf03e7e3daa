//! The commands on lists, and their options.

/// A command on lists whose answer its words alone decide.
#[derive(Clone, Copy, Debug, PartialEq, Eq)]
pub enum ListPage {
    Concat,
    Lindex,
    Linsert,
    List,
    Llength,
    Lrange,
    Lrepeat,
    Lreplace,
    Lreverse,
    Lsearch,
    Lsort,
}

/// The options of `lsearch`.
#[derive(Clone, Copy, Debug, PartialEq, Eq)]
pub struct SearchOptions {
    /// Is the pattern the element itself, and no glob?
    pub exact: bool,
    /// Are all elements wanted that match, and not the first one alone?
    pub all: bool,
    /// Are elements wanted, and not their places?
    pub inline: bool,
    /// Are the elements wanted that do not match?
    pub negated: bool,
}

/// The options of `lsort`.
#[derive(Clone, Copy, Debug, PartialEq, Eq)]
pub struct SortOptions {
    /// Are the elements compared as numbers, and not as texts?
    pub integer: bool,
    /// Does the greatest element come first?
    pub decreasing: bool,
    /// Is the last one alone kept of elements that are equal?
    pub unique: bool,
}
