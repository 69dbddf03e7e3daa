//! Commands that are found by their names.
use std::alloc::{AllocError, Global};
use tcl_meaning::{BuiltIn, Ensemble};
use tcl_names::{Hint, NameKey, Sought};
use tcl_table::{Command, Meaning, Table, TableFault};

/// Is this the built-in command of these subcommands?
fn is_ensemble(command: Option<&Command>, wanted: Ensemble) -> bool {
    match command {
        Some(command) => match command.meaning() {
            Meaning::BuiltIn(BuiltIn::Ensemble(ensemble)) => ensemble == wanted,
            _ => false,
        },
        None => false,
    }
}

/// A step of a test, and what comes of it.
enum Step {
    /// The first of the two names is looked for.
    First(Option<Ensemble>),
    Second(Option<Ensemble>),
    /// A name is looked for without a hint.
    Find(&'static str, Ensemble),
    Define(&'static str, Ensemble),
    Delete(&'static str, bool),
    Rename(&'static str, &'static str, Result<(), TableFault>),
}

/// Is there this built-in command, or none where there should be none?
fn finds(command: Option<&Command>, wanted: Option<Ensemble>) -> bool {
    match wanted {
        Some(wanted) => is_ensemble(command, wanted),
        None => command.is_none(),
    }
}

/// Two names that are looked for by their hints.
#[derive(Clone, Copy)]
struct Names<'a> {
    first: &'a Sought<'a>,
    second: &'a Sought<'a>,
}

/// Does this come of the step?
fn comes(alloc: Global, table: &mut Table, names: Names<'_>, step: &Step) -> bool {
    match *step {
        Step::First(wanted) => finds(table.find_near(names.first), wanted),
        Step::Second(wanted) => finds(table.find_near(names.second), wanted),
        Step::Find(name, wanted) => is_ensemble(table.find(name), wanted),
        Step::Define(name, ensemble) => table
            .define(alloc, name, Command::built_in(BuiltIn::Ensemble(ensemble)))
            .is_ok(),
        Step::Delete(name, wanted) => table.delete(name) == wanted,
        Step::Rename(old, new, wanted) => table.rename(alloc, old, new) == wanted,
    }
}

/// The place of the first step of which something else comes.
fn wrong(alloc: Global, table: &mut Table, names: Names<'_>, steps: &[Step]) -> Option<usize> {
    for (place, step) in steps.iter().enumerate() {
        if !comes(alloc, table, names, step) {
            return Some(place);
        }
    }
    None
}

/// The same of the first commands.
fn wrong_at_first(
    alloc: Global,
    names: Names<'_>,
    steps: &[Step],
) -> Result<Option<usize>, AllocError> {
    let mut table = Table::new(alloc)?;
    Ok(wrong(alloc, &mut table, names, steps))
}

static A_NAME: [Step; 7] = [
    Step::First(Some(Ensemble::Dict)),
    Step::First(Some(Ensemble::Dict)),
    Step::Define("dict", Ensemble::Info),
    Step::First(Some(Ensemble::Info)),
    Step::Delete("dict", true),
    Step::First(None),
    Step::Delete("dict", false),
];

#[test]
fn a_hint_finds_what_a_name_stands_for(rt: HostRuntime) {
    let hint = Hint::new();
    let name = Sought::keyed("dict", NameKey::of("dict"), &hint);
    let names = Names {
        first: &name,
        second: &name,
    };
    assert!(rt; wrong_at_first(rt.alloc(), names, &A_NAME) == Ok(None));
}

static A_NUMBER: [Step; 7] = [
    Step::First(Some(Ensemble::Array)),
    Step::Second(None),
    Step::Rename("array", "moved_elsewhere", Ok(())),
    Step::First(None),
    Step::Second(Some(Ensemble::Array)),
    Step::Second(Some(Ensemble::Array)),
    Step::Find("moved_elsewhere", Ensemble::Array),
];

#[test]
fn a_number_stays_with_its_name(rt: HostRuntime) {
    let old_hint = Hint::new();
    let new_hint = Hint::new();
    let old = Sought::keyed("array", NameKey::of("array"), &old_hint);
    let new = Sought::unkeyed("moved_elsewhere", &new_hint);
    let names = Names {
        first: &old,
        second: &new,
    };
    assert!(rt; wrong_at_first(rt.alloc(), names, &A_NUMBER) == Ok(None));
}

static ANOTHER_NAME: [Step; 5] = [
    Step::First(Some(Ensemble::Info)),
    Step::Second(Some(Ensemble::Dict)),
    Step::First(Some(Ensemble::Info)),
    Step::Rename("none", "other", Err(TableFault::Unknown)),
    Step::Rename("info", "dict", Err(TableFault::TargetExists)),
];

#[test]
fn a_hint_of_another_name_is_no_answer(rt: HostRuntime) {
    let hint = Hint::new();
    let info = Sought::keyed("info", NameKey::of("info"), &hint);
    let dict = Sought::keyed("dict", NameKey::of("dict"), &hint);
    let names = Names {
        first: &info,
        second: &dict,
    };
    assert!(rt; wrong_at_first(rt.alloc(), names, &ANOTHER_NAME) == Ok(None));
}
