//! Commands that a pattern chooses: info(n).
ghost use Rattle.std.specs.Prelude.{◌≡◌, ◌&&◌, map as each, option_map, IfOk};
ghost use Rattle.std.specs.FinMap as map;
ghost use Rattle.std.specs.Str.{chars};
ghost use Rattle.tcl_chars.specs.Texts.{text_of};
ghost use Rattle.tcl_list.specs.Written.{written};
ghost use Rattle.tcl_meaning.specs.Arrays.{name_fits};
ghost use Rattle.tcl_meaning.specs.SeenPages as pages;
ghost use Rattle.tcl_procs.specs.Looking.{of_kind};

use std::alloc::{AllocError, Global};
use std::rc::RcStr;
use tcl_glob::glob_match;
use tcl_table::{Command, Meaning, Table};
use tcl_values::Value;

// Does a name match the pattern, if there is one?
fn name_fits(pattern: &Option<RcStr>, name: &str) -> bool
    ensures { result ≡ name_fits (option_map text_of pattern.now) (chars name.now) }
{
    match pattern {
        Some(pattern) => glob_match(pattern.as_str(), name),
        None => true,
    }
}

// Is a command listed: each is, or each procedure?
fn is_listed(command: &Command, procedures: bool) -> bool
    ensures { result ≡ of_kind procedures command.now }
{
    match command.meaning() {
        Meaning::Procedure(_) => true,
        Meaning::BuiltIn(_) => !procedures,
    }
}

// Is a command listed under this name?
fn is_chosen(command: &Command, procedures: bool, name: &str, pattern: &Option<RcStr>) -> bool
    ensures { result ≡ (of_kind procedures command.now && name_fits (option_map text_of pattern.now) (chars name.now)) }
{
    is_listed(command, procedures) && name_fits(pattern, name)
}

// The names of those commands that are listed.
fn names_among(
    alloc: Global,
    entries: &[(RcStr, &Command)],
    procedures: bool,
    pattern: &Option<RcStr>,
) -> Result<Vec<Value>, AllocError>
    ensures { IfOk result (λ names. names.items ≡ pages.commands_among (of_kind procedures) (option_map text_of pattern.now) (each (λ e. (text_of e.0, e.1.now)) entries.now)) }
{
    let mut found = Vec::new(alloc);
    for (name, command) in entries {
        if is_chosen(command, procedures, name.as_str(), pattern) {
            found.push(Value::of_text(name.clone()?))?;
        }
    }
    Ok(found)
}

/// The list of the names that match, of all commands or of the procedures, in the order of code points.
pub(crate) fn command_names(
    alloc: Global,
    table: &Table,
    procedures: bool,
    pattern: &Option<RcStr>,
) -> Result<Value, AllocError>
    ensures { IfOk result (λ value. value ≡ written (pages.commands_among (of_kind procedures) (option_map text_of pattern.now) (map.entries table.now))) }
{
    let entries = table.entries(alloc)?;
    let names = names_among(alloc, &entries, procedures, pattern)?;
    Value::of_list(alloc, names)
}
