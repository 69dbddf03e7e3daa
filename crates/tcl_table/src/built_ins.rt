//! The commands of a new interpreter.
ghost use Rattle.std.specs.Prelude.{◌≡◌, IfOk, OnOk, map as each};
ghost use Rattle.std.specs.Str.{chars};
ghost use Rattle.tcl_meaning.specs.Pages.{first_commands};
ghost use Rattle.tcl_table.specs.BuiltIns.{with_built_ins};

use crate::command::Command;
use std::alloc::{AllocError, Global};
use tcl_meaning::{BuiltIn, Ensemble, Page};
use tcl_names::HashedNames;
use tcl_pages::{ListPage, PurePage, StringPage, UpdatePage};

// The built-in commands by their names.
const BUILT_INS: [(&str, BuiltIn); 52] = [
    ("string", BuiltIn::Ensemble(Ensemble::String)),
    ("info", BuiltIn::Ensemble(Ensemble::Info)),
    ("dict", BuiltIn::Ensemble(Ensemble::Dict)),
    ("array", BuiltIn::Ensemble(Ensemble::Array)),
    (
        "format",
        BuiltIn::Page(Page::Pure(PurePage::String(StringPage::Format))),
    ),
    (
        "join",
        BuiltIn::Page(Page::Pure(PurePage::String(StringPage::Join))),
    ),
    (
        "split",
        BuiltIn::Page(Page::Pure(PurePage::String(StringPage::Split))),
    ),
    (
        "lsort",
        BuiltIn::Page(Page::Pure(PurePage::List(ListPage::Lsort))),
    ),
    (
        "lsearch",
        BuiltIn::Page(Page::Pure(PurePage::List(ListPage::Lsearch))),
    ),
    (
        "lrepeat",
        BuiltIn::Page(Page::Pure(PurePage::List(ListPage::Lrepeat))),
    ),
    ("lassign", BuiltIn::Page(Page::Lassign)),
    ("lset", BuiltIn::Page(Page::Update(UpdatePage::Lset))),
    (
        "lreplace",
        BuiltIn::Page(Page::Pure(PurePage::List(ListPage::Lreplace))),
    ),
    (
        "lrange",
        BuiltIn::Page(Page::Pure(PurePage::List(ListPage::Lrange))),
    ),
    (
        "linsert",
        BuiltIn::Page(Page::Pure(PurePage::List(ListPage::Linsert))),
    ),
    ("lappend", BuiltIn::Page(Page::Update(UpdatePage::Lappend))),
    (
        "lindex",
        BuiltIn::Page(Page::Pure(PurePage::List(ListPage::Lindex))),
    ),
    (
        "lreverse",
        BuiltIn::Page(Page::Pure(PurePage::List(ListPage::Lreverse))),
    ),
    (
        "llength",
        BuiltIn::Page(Page::Pure(PurePage::List(ListPage::Llength))),
    ),
    (
        "concat",
        BuiltIn::Page(Page::Pure(PurePage::List(ListPage::Concat))),
    ),
    (
        "list",
        BuiltIn::Page(Page::Pure(PurePage::List(ListPage::List))),
    ),
    ("flush", BuiltIn::Page(Page::Flush)),
    ("eof", BuiltIn::Page(Page::Eof)),
    ("read", BuiltIn::Page(Page::Read)),
    ("gets", BuiltIn::Page(Page::Gets)),
    ("puts", BuiltIn::Page(Page::Puts)),
    ("try", BuiltIn::Page(Page::Try)),
    ("throw", BuiltIn::Page(Page::Throw)),
    ("exit", BuiltIn::Page(Page::Exit)),
    ("return", BuiltIn::Page(Page::Return)),
    ("error", BuiltIn::Page(Page::Error)),
    ("catch", BuiltIn::Page(Page::Catch)),
    ("expr", BuiltIn::Page(Page::Expr)),
    ("eval", BuiltIn::Page(Page::Eval)),
    ("continue", BuiltIn::Page(Page::Continue)),
    ("break", BuiltIn::Page(Page::Break)),
    ("switch", BuiltIn::Page(Page::Switch)),
    ("lmap", BuiltIn::Page(Page::Lmap)),
    ("foreach", BuiltIn::Page(Page::Foreach)),
    ("for", BuiltIn::Page(Page::For)),
    ("while", BuiltIn::Page(Page::While)),
    ("if", BuiltIn::Page(Page::If)),
    ("rename", BuiltIn::Page(Page::Rename)),
    ("apply", BuiltIn::Page(Page::Apply)),
    ("proc", BuiltIn::Page(Page::Proc)),
    ("uplevel", BuiltIn::Page(Page::Uplevel)),
    ("upvar", BuiltIn::Page(Page::Upvar)),
    ("global", BuiltIn::Page(Page::Global)),
    ("incr", BuiltIn::Page(Page::Update(UpdatePage::Incr))),
    ("append", BuiltIn::Page(Page::Update(UpdatePage::Append))),
    ("unset", BuiltIn::Page(Page::Unset)),
    ("set", BuiltIn::Page(Page::Set)),
];

// Puts commands under their names, one after another.
fn add(
    alloc: Global,
    commands: &mut HashedNames<Command>,
    built_ins: &[(&str, BuiltIn)],
) -> Result<(), AllocError>
    ensures { OnOk result (commands.new ≡ with_built_ins (each (λ entry. (chars entry.0.now, entry.1)) built_ins.now) commands.old) }
{
    let mut rest = built_ins;
    'entries: while let [(name, built_in), others @ ..] = rest {
        commands.insert(alloc, name, Command::built_in(*built_in))?;
        rest = others;
    }
    Ok(())
}

/// The commands of a new interpreter.
pub(crate) fn first_commands(alloc: Global) -> Result<HashedNames<Command>, AllocError>
    ensures { IfOk result (λ commands. commands ≡ first_commands) }
{
    let mut commands = HashedNames::new(alloc);
    add(alloc, &mut commands, &BUILT_INS)?;
    Ok(commands)
}
