//! Subcommands by their names, and what is said where there is none. Usages are what tclsh 8.6 says; the names to choose from are
//! those that tclint has.
use crate::pure::is_text;
use std::alloc::{AllocError, Global};
use tcl_meaning::{Ensemble, Page, SeenPage};
use tcl_pages::{DictPage, PurePage, StringPage};
use tcl_pure::{subcommand, subcommand_usage, unknown_subcommand};
use tcl_steps::Completion;

/// An ensemble, a name, and the subcommand that it is.
type Name = (Ensemble, &'static str, Option<Page>);

/// The first name that is another subcommand.
fn wrong_name(rows: &[Name]) -> Option<&'static str> {
    for row in rows {
        let (ensemble, name, wanted) = *row;
        if subcommand(ensemble, name) != wanted {
            return Some(name);
        }
    }
    None
}

static NAMES: [Name; 8] = [
    (Ensemble::Array, "set", Some(Page::ArraySet)),
    (Ensemble::Array, "se", None),
    (Ensemble::Dict, "for", Some(Page::DictFor)),
    (
        Ensemble::Dict,
        "values",
        Some(Page::Pure(PurePage::Dict(DictPage::Values))),
    ),
    (Ensemble::Dict, "", None),
    (Ensemble::Info, "vars", Some(Page::Seen(SeenPage::InfoVars))),
    (
        Ensemble::String,
        "compare",
        Some(Page::Pure(PurePage::String(StringPage::Compare))),
    ),
    (Ensemble::String, "compares", None),
];

#[test]
fn names(rt: HostRuntime) {
    assert_eq!(rt; wrong_name(&NAMES), None);
}

/// Does the error say this?
fn says(alloc: Global, error: Result<Completion, AllocError>, wanted: &str) -> bool {
    match error {
        Ok(completion) => is_text(alloc, completion.into_result(), wanted),
        Err(_) => false,
    }
}

/// An ensemble, and what is said.
type Said = (Ensemble, &'static str);

/// The first text that isn't said of a subcommand that there isn't.
fn wrong_unknown(alloc: Global, rows: &[Said]) -> Option<&'static str> {
    for row in rows {
        let (ensemble, wanted) = *row;
        if !says(alloc, unknown_subcommand(alloc, ensemble, "x y"), wanted) {
            return Some(wanted);
        }
    }
    None
}

static UNKNOWN: [Said; 4] = [
    (
        Ensemble::Array,
        "unknown or ambiguous subcommand \"x y\": must be exists, get, names, set, size, or unset",
    ),
    (
        Ensemble::Dict,
        "unknown or ambiguous subcommand \"x y\": must be append, create, exists, for, get, incr, keys, lappend, merge, remove, replace, set, size, unset, or values",
    ),
    (
        Ensemble::Info,
        "unknown or ambiguous subcommand \"x y\": must be args, body, commands, complete, exists, level, procs, or vars",
    ),
    (
        Ensemble::String,
        "unknown or ambiguous subcommand \"x y\": must be compare, equal, first, index, is, last, length, map, match, range, repeat, replace, reverse, tolower, toupper, trim, trimleft, or trimright",
    ),
];

#[test]
fn unknown(rt: HostRuntime) {
    assert_eq!(rt; wrong_unknown(rt.alloc(), &UNKNOWN), None);
}

/// The first text that isn't said of a subcommand that is missing.
fn wrong_usage(alloc: Global, rows: &[Said]) -> Option<&'static str> {
    for row in rows {
        let (ensemble, wanted) = *row;
        if !says(alloc, subcommand_usage(alloc, ensemble), wanted) {
            return Some(wanted);
        }
    }
    None
}

static USAGES: [Said; 4] = [
    (
        Ensemble::Array,
        "wrong # args: should be \"array subcommand ?arg ...?\"",
    ),
    (
        Ensemble::Dict,
        "wrong # args: should be \"dict subcommand ?arg ...?\"",
    ),
    (
        Ensemble::Info,
        "wrong # args: should be \"info subcommand ?arg ...?\"",
    ),
    (
        Ensemble::String,
        "wrong # args: should be \"string subcommand ?arg ...?\"",
    ),
];

#[test]
fn usages(rt: HostRuntime) {
    assert_eq!(rt; wrong_usage(rt.alloc(), &USAGES), None);
}
