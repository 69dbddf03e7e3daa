//! Commands that are called.
ghost use Rattle.std.specs.Prelude.{◌≡◌, ◌≤◌, ◌∷◌, [], List, None, false, length};
ghost use Rattle.std.specs.FinMap as map;
ghost use Rattle.std.specs.Option.{option_copied};
ghost use Rattle.std.specs.Str.{chars};
ghost use Rattle.tcl_activation.specs.Called.{words_of, without_words};
ghost use Rattle.tcl_chars.specs.declared.numbers.Dialect.{Dialect as Numbers};
ghost use Rattle.tcl_steps.specs.Asked.{IsAsked};
ghost use Rattle.tcl_engine.specs.Answered.{Answered};
ghost use Rattle.tcl_engine.specs.Hosts.{shown, HostLeaves};
ghost use Rattle.tcl_meaning.specs.Asking as asking;
ghost use Rattle.tcl_meaning.specs.Completions.{nothing};
ghost use Rattle.tcl_meaning.specs.Names as names;
ghost use Rattle.tcl_meaning.specs.State.{State};
ghost use Rattle.tcl_meaning.specs.Pages.{page_asks, command_asks, built_in_asks, ensemble_asks, subcommand_asks, invoked};
ghost use Rattle.tcl_pages.specs.Texts.{Text};
ghost use Rattle.tcl_vm.specs.Engines.{is_io};

use crate::at_once::command_named;
use crate::channels::over_channels;
use crate::control::at_once;
use crate::frames::over_frames;
use crate::host::Host;
use crate::lifts::{asked, asked_over, done_in, exited};
use crate::looking::seen;
use crate::pages::over_commands;
use std::alloc::{AllocError, Global};
use tcl_activation::Activation;
use tcl_arguments::text_at;
use tcl_channels::Devices;
use tcl_chars::Dialect;
use tcl_control::exit_page;
use tcl_frames::without_colons;
use tcl_meaning::{BuiltIn, Ensemble, Page};
use tcl_procs::call_procedure;
use tcl_pure::{subcommand, subcommand_usage, unknown_subcommand};
use tcl_steps::{Completion, Loop, Owes, Scope, Step};
use tcl_table::{Command, Meaning, Table};
use tcl_values::Value;
use tcl_vm::Stop;

// A command without words.
fn no_words(alloc: Global) -> Result<Step<Scope, Owes, Loop>, AllocError>
    ensures { IsAsked result (asking.done nothing) }
{
    Ok(Step::Done(Completion::nothing(alloc)?))
}

// A word that names no command.
fn unknown(alloc: Global, word: &str) -> Result<Step<Scope, Owes, Loop>, AllocError>
    ensures { (dialect : Numbers) (words : List Text) → IsAsked result (command_asks dialect None (chars word.now) words) }
{
    Ok(Step::Done(Completion::unknown_command(alloc, word)?))
}

// A command with subcommands that is called without one.
fn no_subcommand(alloc: Global, ensemble: Ensemble) -> Result<Step<Scope, Owes, Loop>, AllocError>
    ensures { (dialect : Numbers) → IsAsked result (ensemble_asks dialect ensemble []) }
{
    Ok(Step::Done(subcommand_usage(alloc, ensemble)?))
}

// A word that names no subcommand.
fn unknown_word(
    alloc: Global,
    ensemble: Ensemble,
    word: &str,
) -> Result<Step<Scope, Owes, Loop>, AllocError>
    ensures { (dialect : Numbers) (words : List Text) → IsAsked result (subcommand_asks dialect ensemble (chars word.now) None words) }
{
    Ok(Step::Done(unknown_subcommand(alloc, ensemble, word)?))
}

// The command that a word stands for now, which is given as a value too.
fn found<'a>(table: &'a Table, word: &str, first: &Value) -> Option<&'a Command>
    requires { first.now ≡ chars word.now }
    ensures { option_copied result ≡ map.get table.now (names.without_colons (chars word.now)) }
{
    match command_named(table, first) {
        Some(command) => Some(command),
        None => table.find(without_colons(word)),
    }
}

impl<V: Devices> Host<'_, '_, '_, '_, '_, V> {
    // A command, or a subcommand, by its page.
    fn page(
        &mut self,
        dialect: Dialect,
        page: Page,
        words: &mut [Value],
    ) -> Result<Step<Scope, Owes, Loop>, Stop>
        ensures answered { Answered (page_asks dialect page words.old) (shown V.channels self.old) result (shown V.channels self.new) }
        ensures leaves { HostLeaves V.leaves (is_io result) self.old self.new }
    {
        match page {
            Page::Seen(page) => done_in(seen(self.alloc, self.frames, self.table, page, words)),
            Page::Exit => exited(exit_page(self.alloc, dialect, words)),
            Page::Proc | Page::Rename => over_commands(self.alloc, self.table, page, words),
            Page::Puts | Page::Gets | Page::Read | Page::Eof | Page::Flush => {
                over_channels(self.alloc, dialect, self.frames, self.devices, page, words)
            }
            Page::Update(_)
            | Page::Set
            | Page::Unset
            | Page::Lassign
            | Page::ArraySet
            | Page::ArrayUnset
            | Page::Uplevel
            | Page::Upvar
            | Page::Global => asked_over(over_frames(
                self.alloc,
                dialect,
                self.frames,
                page,
                words,
            )),
            _ => asked(at_once(self.alloc, dialect, page, words)),
        }
    }

    // The subcommand of a command that a word names.
    fn subcommand(
        &mut self,
        dialect: Dialect,
        ensemble: Ensemble,
        word: &str,
        words: &mut [Value],
    ) -> Result<Step<Scope, Owes, Loop>, Stop>
        ensures answered { Answered (ensemble_asks dialect ensemble (chars word.now ∷ words.old)) (shown V.channels self.old) result (shown V.channels self.new) }
        ensures leaves { HostLeaves V.leaves (is_io result) self.old self.new }
    {
        match subcommand(ensemble, word) {
            None => asked(unknown_word(self.alloc, ensemble, word)),
            Some(page) => self.page(dialect, page, words),
        }
    }

    // A command with subcommands.
    fn ensemble(
        &mut self,
        dialect: Dialect,
        ensemble: Ensemble,
        words: &mut [Value],
    ) -> Result<Step<Scope, Owes, Loop>, Stop>
        ensures answered { Answered (ensemble_asks dialect ensemble words.old) (shown V.channels self.old) result (shown V.channels self.new) }
        ensures leaves { HostLeaves V.leaves (is_io result) self.old self.new }
    {
        if words.len() == 0 {
            return asked(no_subcommand(self.alloc, ensemble));
        }
        let word = text_at(self.alloc, words, 0)?;
        self.subcommand(dialect, ensemble, word.as_str(), &mut words[1..])
    }

    // A built-in command.
    fn built_in(
        &mut self,
        dialect: Dialect,
        built_in: BuiltIn,
        words: &mut [Value],
    ) -> Result<Step<Scope, Owes, Loop>, Stop>
        ensures answered { Answered (built_in_asks dialect built_in words.old) (shown V.channels self.old) result (shown V.channels self.new) }
        ensures leaves { HostLeaves V.leaves (is_io result) self.old self.new }
    {
        match built_in {
            BuiltIn::Page(page) => self.page(dialect, page, words),
            BuiltIn::Ensemble(ensemble) => self.ensemble(dialect, ensemble, words),
        }
    }

    // The command that a word stands for now, which is given as a value too.
    fn command(
        &mut self,
        dialect: Dialect,
        word: &str,
        first: &Value,
        words: &mut [Value],
    ) -> Result<Step<Scope, Owes, Loop>, Stop>
        requires { first.now ≡ chars word.now }
        ensures answered { Answered (invoked dialect (chars word.now ∷ words.old)) (shown V.channels self.old) result (shown V.channels self.new) }
        ensures leaves { HostLeaves V.leaves (is_io result) self.old self.new }
    {
        match found(self.table, word, first) {
            None => asked(unknown(self.alloc, word)),
            Some(command) => match command.meaning() {
                Meaning::BuiltIn(built_in) => self.built_in(dialect, built_in, words),
                Meaning::Procedure(procedure) => {
                    asked(call_procedure(self.alloc, word, procedure, words))
                }
            },
        }
    }

    // Calls a command: the first of its words is looked up now.
    fn invoke(
        &mut self,
        dialect: Dialect,
        words: &mut [Value],
    ) -> Result<Step<Scope, Owes, Loop>, Stop>
        ensures answered { Answered (invoked dialect words.old) (shown V.channels self.old) result (shown V.channels self.new) }
        ensures leaves { HostLeaves V.leaves (is_io result) self.old self.new }
    {
        let Some((first, behind)) = words.split_first_mut() else {
            return asked(no_words(self.alloc));
        };
        if let Some(word) = first.shown() {
            return self.command(dialect, word, &*first, behind);
        }
        let word = first.text(self.alloc)?;
        self.command(dialect, word.as_str(), &*first, behind)
    }

    /// Calls the command whose words lie on top of a code's texts, where they stay until it is done. It stands apart, as `instruct` does.
    #[inline(never)]
    pub(crate) fn call(
        &mut self,
        dialect: Dialect,
        activation: &mut Activation,
        count: usize,
    ) -> Result<Step<Scope, Owes, Loop>, Stop>
        requires { count ≤ length activation.old.spot.stack.texts }
        ensures taken { activation.new ≡ without_words count activation.old }
        ensures answered { Answered (invoked dialect (words_of count activation.old.spot)) (shown V.channels self.old) result (shown V.channels self.new) }
        ensures leaves { HostLeaves V.leaves (is_io result) self.old self.new }
    {
        let step = self.invoke(dialect, activation.words(count));
        activation.drop_words(count);
        step
    }
}
